//! From a checked design to the text of its module.

ghost use Rattle.std.specs.Prelude.{◌≡◌, IfOk};
ghost use Rattle.sap_check.specs.Checked.{levels_in, tree_in};
ghost use Rattle.sap_compile.specs.Agree.{RunsAgree, RunsLookAlike};
ghost use Rattle.sap_compile.specs.Compiles.{IsModuleFor, IsNetlistFor};
ghost use Rattle.sap_compile.specs.Parts.{checked_of, hang_of, module_of, netlist_of};
ghost use Rattle.sap_compile.specs.Runs.{HasOneRunOnStreams};
ghost use Rattle.sap_hang.specs.Hang.{IsHangTable};
ghost use Rattle.sap_interface.specs.Designs.{StandsForDesign, StartsAsDesign};
ghost use Rattle.sap_net.specs.Net.{Net};
ghost use Rattle.sap_size.specs.Items.{IsSmall};
ghost use Rattle.sap_trim.specs.Reads.{ReadsWires};
ghost use Rattle.sap_share.specs.Copying.{CopiesPorts};
ghost use Rattle.sap_trim.specs.Trimmed.{FoldsWires, SharesWires};

use crate::compiled::Compiled;
use crate::stages::netlist;
use sap_check::Checked;
use sap_desk::Bytes;
use sap_hang::HangTable;
use sap_hang::hang::hang;
use sap_net::laws::one_run;
use sap_net::netlist::Netlist;
use sap_resolve::resolve::resolve;
use sap_resolved::premises::well_formed_serves;
use sap_tags::insert::insert;
use sap_vprint::print;
use std::alloc::{AllocError, Global};

/// What holds of the runs of each netlist that stands for a checked design.
fn runs(checked: &Checked, netlist: &Netlist)
    requires { StandsForDesign (levels_in checked.now) (tree_in checked.now) netlist.now }
    ensures one { HasOneRunOnStreams (levels_in checked.now) (tree_in checked.now) netlist.now }
    ensures agree { RunsAgree (levels_in checked.now) (tree_in checked.now) netlist.now }
    ensures look_alike { RunsLookAlike (levels_in checked.now) (tree_in checked.now) netlist.now }
{
    one_run(netlist);
    checked.lawful();
    checked.lattice().lawful();
    sap_secure::designs::runs_agree();
    sap_secure::designs::states_keep();
    well_formed_serves()
}

/// The netlist that stands for a checked design.
fn netlist_for(alloc: Global, checked: &Checked, hang: &HangTable) -> Result<Netlist, AllocError>
    requires { IsHangTable (tree_in checked.now) hang.now }
    ensures stands { IfOk result (λ n. StandsForDesign (levels_in checked.now) (tree_in checked.now) n) }
    ensures starts { IfOk result (λ n. StartsAsDesign (levels_in checked.now) (tree_in checked.now) n) }
    ensures shared { IfOk result (λ n. SharesWires n) }
    ensures folded { IfOk result (λ n. FoldsWires n) }
    ensures read { IfOk result (λ n. ReadsWires n) }
    ensures copies { IfOk result (λ n. CopiesPorts n) }
    ensures small { IfOk result (λ n. IsSmall (levels_in checked.now) (tree_in checked.now) n) }
{
    let program = resolve(alloc, checked, hang)?;
    let plain = insert(alloc, checked, &program)?;
    netlist(alloc, &plain)
}

/// The netlist of the module of a checked design.
fn module_netlist(alloc: Global, checked: &Checked, hang: &HangTable) -> Result<Netlist, AllocError>
    requires { IsHangTable (tree_in checked.now) hang.now }
    ensures { IfOk result (λ n. IsNetlistFor (levels_in checked.now) (tree_in checked.now) n) }
{
    checked.lawful();
    let netlist = netlist_for(alloc, checked, hang)?;
    runs(checked, &netlist);
    netlist.rules();
    Ok(netlist)
}

/// The small netlist of a checked design.
pub fn design_netlist(alloc: Global, checked: &Checked) -> Result<Netlist, AllocError>
    ensures stands { IfOk result (λ n. StandsForDesign (levels_in checked.now) (tree_in checked.now) n) }
    ensures starts { IfOk result (λ n. StartsAsDesign (levels_in checked.now) (tree_in checked.now) n) }
    ensures shared { IfOk result (λ n. SharesWires n) }
    ensures folded { IfOk result (λ n. FoldsWires n) }
    ensures read { IfOk result (λ n. ReadsWires n) }
    ensures copies { IfOk result (λ n. CopiesPorts n) }
    ensures small { IfOk result (λ n. IsSmall (levels_in checked.now) (tree_in checked.now) n) }
    ensures compiled { IfOk result (λ n. IsNetlistFor (levels_in checked.now) (tree_in checked.now) n) }
{
    let hang = hang(alloc, checked.design(), checked.names())?;
    module_netlist(alloc, checked, &hang)
}

/// The text of the module of a checked design.
pub fn module_text(alloc: Global, checked: &Checked) -> Result<Bytes, AllocError>
    ensures { IfOk result (λ text. (n : Net) × IsModuleFor (levels_in checked.now) (tree_in checked.now) n text) }
{
    let netlist = design_netlist(alloc, checked)?;
    print(alloc, &netlist)
}

/// Compiles a checked design.
pub(crate) fn module(alloc: Global, checked: Checked) -> Result<Compiled, AllocError>
    ensures same { IfOk result (λ c. checked_of c ≡ checked) }
    ensures hang { IfOk result (λ c. IsHangTable (tree_in checked) (hang_of c)) }
    ensures compiled { IfOk result (λ c. IsModuleFor (levels_in checked) (tree_in checked) (netlist_of c) (module_of c)) }
{
    let hang = hang(alloc, checked.design(), checked.names())?;
    let netlist = module_netlist(alloc, &checked, &hang)?;
    let module = print(alloc, &netlist)?;
    Ok(Compiled {
        checked,
        hang,
        netlist,
        module,
    })
}
