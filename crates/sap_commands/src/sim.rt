//! The command `sim`.

ghost use Rattle.sap_commands.specs.Commands.{asks_sim};
ghost use Rattle.sap_files.specs.Steps.{Ends, ending_of, seen};

use sap_desk::Desk;
use sap_files::failure::Failure;
use sap_files::{lattice_of_file, module_of_file, print_rows};
use std::alloc::Global;

/// Prints the rows of a module file's run on a stimulus file, over a lattice file.
pub fn sim<'a, D: Desk>(
    alloc: Global,
    desk: &mut D,
    lattice: &'a str,
    verilog: &'a str,
    stimulus: &'a str,
) -> Result<(), Failure<'a>>
    ensures { Ends (asks_sim lattice.now verilog.now stimulus.now) (ending_of result) (seen D.told D.faults D.lost D.sure desk.old) (seen D.told D.faults D.lost D.sure desk.new) }
{
    let levels = lattice_of_file(alloc, desk, lattice)?;
    let netlist = module_of_file(alloc, desk, verilog)?;
    print_rows(alloc, desk, &levels, netlist, stimulus)
}
