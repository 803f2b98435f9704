//! The command `report`.

ghost use Rattle.std.specs.Prelude.{◌≡◌, IfOk};
ghost use Rattle.sap_check.specs.Checked.{levels_in, tree_in};
ghost use Rattle.sap_report.specs.Report.{report_text};
ghost use Rattle.sap_commands.specs.Commands.{asks_report};
ghost use Rattle.sap_files.specs.Steps.{Ends, ending_of, seen};

use sap_check::Checked;
use sap_desk::{Bytes, Desk};
use sap_files::failure::Failure;
use sap_files::{checked_of_file, lattice_of_file, put};
use sap_hang::hang::hang;
use sap_report::report::report as text_of;
use std::alloc::{AllocError, Global};

/// Writes the report of a design file over a lattice file.
pub fn report<'a, D: Desk>(
    alloc: Global,
    desk: &mut D,
    lattice: &'a str,
    design: &'a str,
) -> Result<(), Failure<'a>>
    ensures { Ends (asks_report lattice.now design.now) (ending_of result) (seen D.told D.faults D.lost D.sure desk.old) (seen D.told D.faults D.lost D.sure desk.new) }
{
    let levels = lattice_of_file(alloc, desk, lattice)?;
    let checked = checked_of_file(alloc, desk, &levels, design)?;
    let made = report_text(alloc, &checked);
    // The design gives its memory back before its report is written.
    drop(checked);
    drop(levels);
    let text = made?;
    put(desk, &text)
}

fn report_text(alloc: Global, checked: &Checked) -> Result<Bytes, AllocError>
    ensures { IfOk result (λ text. text ≡ report_text (levels_in checked.now) (tree_in checked.now)) }
{
    let table = hang(alloc, checked.design(), checked.names())?;
    text_of(alloc, checked, &table)
}
