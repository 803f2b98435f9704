//! The command `taint`.

ghost use Rattle.std.specs.Prelude.{◌≡◌};
ghost use Rattle.sap_files.specs.Steps.{Ends, ending_of, seen};
ghost use Rattle.sap_commands.specs.Taint.{Tags, Taints, asks_taint, taint_failure};

use sap_desk::{Bytes, Desk};
use sap_files::failure::Failure;
use sap_files::refusal::Refusal;
use sap_files::{lattice_of_file, module_of_file, write};
use sap_lattice::Lattice;
use sap_net::netlist::Netlist;
use sap_taint_pass::fault::TaintFault;
use sap_taint_pass::taint::taint as add_tags;
use sap_vprint::print;
use std::alloc::Global;

/// Writes the module of a module file with a tag for each name, over a lattice file.
pub fn taint<'a, D: Desk>(
    alloc: Global,
    desk: &mut D,
    lattice: &'a str,
    verilog: &'a str,
    out: &'a str,
) -> Result<(), Failure<'a>>
    ensures { Ends (asks_taint lattice.now verilog.now out.now) (ending_of result) (seen D.told D.faults D.lost D.sure desk.old) (seen D.told D.faults D.lost D.sure desk.new) }
{
    let levels = lattice_of_file(alloc, desk, lattice)?;
    let netlist = module_of_file(alloc, desk, verilog)?;
    let text = tainted_text(alloc, &levels, &netlist)?;
    write(desk, out, &text)
}

fn tainted_text<'a>(
    alloc: Global,
    lattice: &Lattice,
    netlist: &Netlist,
) -> Result<Bytes, Failure<'a>>
    ensures { Taints lattice.now netlist.now result }
{
    let tagged = tagged(alloc, lattice, netlist)?;
    let text = print(alloc, &tagged)?;
    Ok(text)
}

fn tagged<'a>(alloc: Global, lattice: &Lattice, netlist: &Netlist) -> Result<Netlist, Failure<'a>>
    ensures { Tags lattice.now netlist.now result }
{
    match add_tags(alloc, netlist, lattice) {
        Ok(tagged) => Ok(tagged),
        Err(fault) => Err(taint_failure(fault)),
    }
}

fn taint_failure<'a>(fault: TaintFault) -> Failure<'a>
    ensures { result ≡ taint_failure fault }
{
    match fault {
        TaintFault::Memory => Failure::Memory,
        fault => Failure::Refused(Refusal::Taint(fault)),
    }
}
