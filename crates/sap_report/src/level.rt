//! The lines of levels.

ghost use Rattle.std.specs.Prelude.{◌≡◌, ◌<◌, ◌++◌, OnOk, length};
ghost use Rattle.sap_lattice.specs.Closure.{name_at};
ghost use Rattle.sap_lattice.specs.Codes.{code_of};
ghost use Rattle.sap_lattice.specs.Levels.{order_of};
ghost use Rattle.sap_report.specs.Report.{level_line, level_lines};

use sap_lattice::lattice::Lattice;
use sap_text::digits::push_number;
use std::alloc::AllocError;

/// Appends the line of the level at a place of the lattice's file.
#[tactic(auto, using(crate::proofs::LevelLines::levels))]
pub fn push_level(out: &mut Vec<u8>, lattice: &Lattice, place: u32) -> Result<(), AllocError>
    requires { place < length lattice.now.names }
    ensures { OnOk result (out.new.items ≡ out.old.items ++ level_line (name_at lattice.now.names place) (code_of (order_of lattice.now) place)) }
{
    let level = lattice.level_at(u64::from(place));
    out.extend_from_slice(b"level ")?;
    out.extend_from_slice(lattice.name(level).as_bytes())?;
    out.extend_from_slice(b" ")?;
    push_number(out, lattice.code(level))?;
    out.extend_from_slice(b"\n")
}

/// Appends the lines of the levels.
pub(crate) fn push_levels(out: &mut Vec<u8>, lattice: &Lattice) -> Result<(), AllocError>
    ensures { OnOk result (out.new.items ≡ out.old.items ++ level_lines lattice.now 0 lattice.now.names) }
{
    for place in 0..lattice.count() {
        push_level(out, lattice, place)?;
    }
    Ok(())
}
