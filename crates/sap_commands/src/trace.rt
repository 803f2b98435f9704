//! The command `trace`.

ghost use Rattle.sap_commands.specs.Commands.{asks_trace};
ghost use Rattle.sap_files.specs.Steps.{Ends, ending_of, seen};

use sap_compile::design_netlist;
use sap_desk::Desk;
use sap_files::failure::Failure;
use sap_files::{checked_of_file, lattice_of_file, print_trace};
use std::alloc::Global;

/// Prints the trace of a design file on a stimulus file, over a lattice file.
pub fn trace<'a, D: Desk>(
    alloc: Global,
    desk: &mut D,
    lattice: &'a str,
    design: &'a str,
    stimulus: &'a str,
) -> Result<(), Failure<'a>>
    ensures { Ends (asks_trace lattice.now design.now stimulus.now) (ending_of result) (seen D.told D.faults D.lost D.sure desk.old) (seen D.told D.faults D.lost D.sure desk.new) }
{
    let levels = lattice_of_file(alloc, desk, lattice)?;
    let checked = checked_of_file(alloc, desk, &levels, design)?;
    let netlist = design_netlist(alloc, &checked)?;
    print_trace(alloc, desk, &checked, netlist, stimulus)
}
