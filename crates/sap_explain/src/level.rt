//! The lines of levels.

ghost use Rattle.std.specs.Prelude.{◌≡◌, ◌<◌, ◌++◌, OnOk, codes, length};
ghost use Rattle.sap_lattice.specs.Closure.{name_at};
ghost use Rattle.sap_lattice.specs.Codes.{code_of};
ghost use Rattle.sap_lattice.specs.Levels.{order_of};
ghost use Rattle.sap_report.specs.Report.{level_line};
ghost use Rattle.sap_explain.specs.Explanation.{level_comments};

use sap_lattice::lattice::Lattice;
use sap_report::level::push_level;
use std::alloc::AllocError;

fn push_comment(out: &mut Vec<u8>, lattice: &Lattice, place: u32) -> Result<(), AllocError>
    requires { place < length lattice.now.names }
    ensures { OnOk result (out.new.items ≡ out.old.items ++ (codes "// " ++ level_line (name_at lattice.now.names place) (code_of (order_of lattice.now) place))) }
{
    out.extend_from_slice(b"// ")?;
    push_level(out, lattice, place)
}

/// Appends the lines of the levels.
pub(crate) fn push_levels(out: &mut Vec<u8>, lattice: &Lattice) -> Result<(), AllocError>
    ensures { OnOk result (out.new.items ≡ out.old.items ++ level_comments lattice.now 0 lattice.now.names) }
{
    for place in 0..lattice.count() {
        push_comment(out, lattice, place)?;
    }
    Ok(())
}
