//! What holds of the taint of every netlist, and of the names of tags.

ghost use Rattle.sap_lattice.specs.Codes.{width_of};
ghost use Rattle.sap_lattice.specs.Levels.{order_of};
ghost use Rattle.sap_taint.specs.Carries.{CodesAreWoven, CarriesTaint, TakesTags, OneTaggedRun, ShowsTaint, TagsStayCodes, RunsWithTagsAgree};
ghost use Rattle.sap_taint.specs.Laws.{RoomOrClash, NoClashWithRoom, OneClash, SomeTaint, OneTaint, CodesStayCodes, AlikeThroughout, AgreeThroughout};

use sap_lattice::lattice::Lattice;
use sap_net::laws::one_run;
use sap_net::netlist::Netlist;

/// All names and tags have names of their own, or exactly one name is the first clash.
pub fn one_clash(netlist: &Netlist)
    ensures some { RoomOrClash netlist.now }
    ensures apart { NoClashWithRoom netlist.now }
    ensures one { OneClash netlist.now }
{
    netlist.rules();
}

/// Every run has exactly one taint, whatever the tags of the inputs.
pub fn one_taint(netlist: &Netlist)
    ensures some { SomeTaint netlist.now }
    ensures one { OneTaint netlist.now }
{
    netlist.rules();
}

/// Where the tags of all inputs are codes of levels, all tags are.
pub fn codes_stay(netlist: &Netlist, lattice: &Lattice)
    ensures { CodesStayCodes (order_of lattice.now) netlist.now }
{
    netlist.rules();
    lattice.lawful();
}

/// Runs on inputs that look alike do so in every cycle: to one to whom some bits of tags are low, whatever numbers tags
/// are; and at a level, where they are codes of levels.
pub fn noninterference(netlist: &Netlist, lattice: &Lattice)
    ensures bits { AlikeThroughout netlist.now }
    ensures levels { AgreeThroughout (order_of lattice.now) netlist.now }
{
    netlist.rules();
    lattice.lawful();
}

/// Numbers with the codes of levels for tags are given to a netlist as they are to a compiled module.
pub fn codes_are_woven()
    ensures { CodesAreWoven }
{}

/// A netlist that carries the taint of another takes what that takes, with tags, has exactly one run on it, and shows in it
/// the other's numbers and taint. In its runs all tags are codes where its inputs' are, and they agree at a level where
/// its inputs do.
pub fn carried(netlist: &Netlist, tagged: &Netlist, lattice: &Lattice)
    requires { CarriesTaint (width_of (order_of lattice.now)) netlist.now tagged.now }
    ensures takes { TakesTags (width_of (order_of lattice.now)) netlist.now tagged.now }
    ensures runs { OneTaggedRun (width_of (order_of lattice.now)) netlist.now tagged.now }
    ensures shows { ShowsTaint netlist.now tagged.now }
    ensures codes { TagsStayCodes (order_of lattice.now) netlist.now tagged.now }
    ensures agree { RunsWithTagsAgree (order_of lattice.now) netlist.now tagged.now }
{
    netlist.rules();
    one_run(tagged);
    lattice.lawful();
}
