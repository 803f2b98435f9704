//! The command `fmt`.

ghost use Rattle.sap_commands.specs.Commands.{asks_fmt};
ghost use Rattle.sap_files.specs.Steps.{Ends, ending_of, seen};

use sap_desk::Desk;
use sap_files::failure::Failure;
use sap_files::{put, text_of_file};
use sap_show::show;
use std::alloc::Global;

/// Writes a design file's design as its canonical text.
pub fn fmt<'a, D: Desk>(alloc: Global, desk: &mut D, design: &'a str) -> Result<(), Failure<'a>>
    ensures { Ends (asks_fmt design.now) (ending_of result) (seen D.told D.faults D.lost D.sure desk.old) (seen D.told D.faults D.lost D.sure desk.new) }
{
    let tree = text_of_file(alloc, desk, design)?;
    let text = show(alloc, &tree)?;
    put(desk, &text)
}
