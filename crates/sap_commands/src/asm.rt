//! The command `asm`.

ghost use Rattle.sap_commands.specs.Commands.{asks_asm};
ghost use Rattle.sap_files.specs.Steps.{Ends, ending_of, seen};

use sap_cpu::stimulus::stimulus_text;
use sap_desk::Desk;
use sap_files::failure::Failure;
use sap_files::{put, words_of_file};
use std::alloc::Global;

/// Writes the stimulus of two assembly files for the machine and so many slices.
pub fn asm<'a, D: Desk>(
    alloc: Global,
    desk: &mut D,
    first: &'a str,
    second: &'a str,
    slices: u32,
) -> Result<(), Failure<'a>>
    ensures { Ends (asks_asm first.now second.now slices) (ending_of result) (seen D.told D.faults D.lost D.sure desk.old) (seen D.told D.faults D.lost D.sure desk.new) }
{
    let a = words_of_file(alloc, desk, 1, first)?;
    let b = words_of_file(alloc, desk, 2, second)?;
    let text = stimulus_text(alloc, &a, &b, slices)?;
    put(desk, &text)
}
