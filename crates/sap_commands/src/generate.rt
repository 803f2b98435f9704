//! The command `gen`.

ghost use Rattle.sap_commands.specs.Commands.{asks_gen};
ghost use Rattle.sap_files.specs.Steps.{Ends, ending_of, seen};

use sap_desk::Desk;
use sap_files::failure::Failure;
use sap_files::put;
use sap_gen::generated;
use sap_words::RunNumber;
use std::alloc::Global;

/// Writes the text of the generated run of a number.
pub fn generate<'a, D: Desk>(
    alloc: Global,
    desk: &mut D,
    number: RunNumber,
) -> Result<(), Failure<'a>>
    ensures { Ends (asks_gen number.value) (ending_of result) (seen D.told D.faults D.lost D.sure desk.old) (seen D.told D.faults D.lost D.sure desk.new) }
{
    let text = generated(alloc, number.value)?;
    put(desk, &text)
}
