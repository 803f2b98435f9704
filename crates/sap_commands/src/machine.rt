//! The command `machine`.

ghost use Rattle.sap_commands.specs.Commands.{asks_machine};
ghost use Rattle.sap_files.specs.Steps.{Ends, ending_of, seen};

use sap_cpu::machine::MACHINE_TEXT;
use sap_desk::Desk;
use sap_files::failure::Failure;
use sap_files::put_bytes;

/// Writes the canonical text of the machine.
pub fn machine<'a, D: Desk>(desk: &mut D) -> Result<(), Failure<'a>>
    ensures { Ends asks_machine (ending_of result) (seen D.told D.faults D.lost D.sure desk.old) (seen D.told D.faults D.lost D.sure desk.new) }
{
    put_bytes(desk, MACHINE_TEXT)
}
