//! The command `cpu`.

ghost use Rattle.sap_commands.specs.Commands.{asks_cpu};
ghost use Rattle.sap_files.specs.Steps.{Ends, ending_of, seen};

use sap_cpu::text::users_text;
use sap_desk::Desk;
use sap_files::failure::Failure;
use sap_files::{put, words_of_file};
use std::alloc::Global;

/// Writes what the instruction table makes of two assembly files in so many slices.
pub fn cpu<'a, D: Desk>(
    alloc: Global,
    desk: &mut D,
    first: &'a str,
    second: &'a str,
    slices: u32,
) -> Result<(), Failure<'a>>
    ensures { Ends (asks_cpu first.now second.now slices) (ending_of result) (seen D.told D.faults D.lost D.sure desk.old) (seen D.told D.faults D.lost D.sure desk.new) }
{
    let a = words_of_file(alloc, desk, 1, first)?;
    let b = words_of_file(alloc, desk, 2, second)?;
    let text = users_text(alloc, &a, &b, slices)?;
    put(desk, &text)
}
