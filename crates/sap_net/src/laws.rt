//! What holds of every netlist.

ghost use Rattle.sap_net.specs.Laws.{SomeRun, OneRun, SomeCycle, OneCycle, BeginsWithInitial};

use crate::netlist::Netlist;

/// A netlist has exactly one run on each list of inputs within the widths.
pub fn one_run(netlist: &Netlist)
    ensures some { SomeRun netlist.now }
    ensures one { OneRun netlist.now }
{
    netlist.rules();
}

/// A netlist has exactly one first cycle, and one cycle after each, on each list of inputs within the widths.
pub fn one_cycle(netlist: &Netlist)
    ensures some { SomeCycle netlist.now }
    ensures one { OneCycle netlist.now }
{
    netlist.rules();
}

/// A first cycle begins with the starts of registers and memories, whatever the netlist.
pub fn begins_with_initial()
    ensures { BeginsWithInitial }
{}
