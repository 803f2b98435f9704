//! The text of a report.

ghost use Rattle.std.specs.Prelude.{◌≡◌, IfOk};
ghost use Rattle.sap_check.specs.Checked.{levels_in, tree_in};
ghost use Rattle.sap_hang.specs.Hang.{IsHangTable};
ghost use Rattle.sap_report.specs.Report.{report_text};

use crate::level::push_levels;
use crate::point::push_points;
use crate::site::push_sites;
use sap_check::Checked;
use sap_desk::Bytes;
use sap_hang::HangTable;
use std::alloc::{AllocError, Global};

/// The report of a design. The table is that design's.
pub fn report(alloc: Global, checked: &Checked, table: &HangTable) -> Result<Bytes, AllocError>
    requires { IsHangTable (tree_in checked.now) table.now }
    ensures { IfOk result (λ text. text ≡ report_text (levels_in checked.now) (tree_in checked.now)) }
{
    let mut out = Vec::new(alloc);
    push_levels(&mut out, checked.lattice())?;
    push_points(&mut out, checked, table)?;
    push_sites(&mut out, checked)?;
    Ok(Bytes::new(out))
}
