//! The command `compile`.

ghost use Rattle.std.specs.Prelude.{IfOk};
ghost use Rattle.sap_check.specs.Checked.{levels_in, tree_in};
ghost use Rattle.sap_commands.specs.Commands.{IsModuleText, asks_compile};
ghost use Rattle.sap_files.specs.Steps.{Ends, ending_of, seen};

use sap_check::Checked;
use sap_compile::module_text;
use sap_desk::{Bytes, Desk};
use sap_explain::explained;
use sap_files::failure::Failure;
use sap_files::{checked_of_file, lattice_of_file, write};
use std::alloc::{AllocError, Global};

/// Compiles a design file over a lattice file, and writes the module's text.
pub fn compile<'a, D: Desk>(
    alloc: Global,
    desk: &mut D,
    lattice: &'a str,
    design: &'a str,
    out: &'a str,
) -> Result<(), Failure<'a>>
    ensures { Ends (asks_compile lattice.now design.now out.now) (ending_of result) (seen D.told D.faults D.lost D.sure desk.old) (seen D.told D.faults D.lost D.sure desk.new) }
{
    let levels = lattice_of_file(alloc, desk, lattice)?;
    let checked = checked_of_file(alloc, desk, &levels, design)?;
    let text = explained_text(alloc, &checked)?;
    write(desk, out, &text)
}

// The text of the module of a checked design, behind the lines that explain it.
fn explained_text(alloc: Global, checked: &Checked) -> Result<Bytes, AllocError>
    ensures { IfOk result (λ text. IsModuleText (levels_in checked.now) (tree_in checked.now) text) }
{
    let plain = module_text(alloc, checked)?;
    explained(alloc, checked, &plain)
}
