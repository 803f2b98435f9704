//! The lines of points.

ghost use Rattle.std.specs.Prelude.{◌≡◌, ◌<◌, ◌++◌, ◌==◌, IfOk, OnOk, length};
ghost use Rattle.sap_check.specs.Checked.{tree_in};
ghost use Rattle.sap_check.specs.Points.{points_of};
ghost use Rattle.sap_hang.specs.Hang.{IsHangTable, hangs};
ghost use Rattle.sap_names.specs.Entities.{entities_of};
ghost use Rattle.sap_report.specs.Report.{each_name, hanging, names_text, point_line, point_lines, point_word, where_hung};

use crate::text::place;
use sap_check::Checked;
use sap_check::point::{Point, PointKind};
use sap_check::site_text::push_entity;
use sap_hang::HangTable;
use std::alloc::AllocError;

fn word(kind: PointKind) -> &'static [u8]
    ensures { result.now ≡ point_word kind }
{
    match kind {
        PointKind::If => b"if",
        PointKind::Otherwise => b"otherwise",
        PointKind::Fall => b"fall",
        PointKind::Then => b"then",
        PointKind::Case => b"case",
    }
}

// Appends the name of an entity after a blank, where it hangs on the point; whether it does.
fn push_name(
    out: &mut Vec<u8>,
    checked: &Checked,
    table: &HangTable,
    point: u32,
    entity: u32,
) -> Result<bool, AllocError>
    requires table { IsHangTable (tree_in checked.now) table.now }
    requires within { entity < length (entities_of (tree_in checked.now)) }
    ensures hangs { IfOk result (λ b. b ≡ hangs (tree_in checked.now) point entity) }
    ensures name { OnOk result (out.new.items ≡ out.old.items ++ each_name (where_hung (tree_in checked.now) point entity)) }
{
    let hung = table.hangs(point, entity);
    if hung {
        out.extend_from_slice(b" ")?;
        push_entity(out, checked, entity)?;
    }
    Ok(hung)
}

// Appends each name that hangs on a point after a blank; whether there is none.
fn push_each(
    out: &mut Vec<u8>,
    checked: &Checked,
    table: &HangTable,
    point: u32,
) -> Result<bool, AllocError>
    requires { IsHangTable (tree_in checked.now) table.now }
    ensures none { IfOk result (λ b. b ≡ (length (hanging (tree_in checked.now) point 0 (entities_of (tree_in checked.now))) == 0)) }
    ensures names { OnOk result (out.new.items ≡ out.old.items ++ each_name (hanging (tree_in checked.now) point 0 (entities_of (tree_in checked.now)))) }
{
    let mut none = true;
    for entity in 0..checked.entity_count() {
        let hung = push_name(out, checked, table, point, entity)?;
        none &= !hung;
    }
    Ok(none)
}

#[tactic(auto, using(crate::proofs::PointLines::named))]
fn push_names(
    out: &mut Vec<u8>,
    checked: &Checked,
    table: &HangTable,
    point: u32,
) -> Result<(), AllocError>
    requires { IsHangTable (tree_in checked.now) table.now }
    ensures { OnOk result (out.new.items ≡ out.old.items ++ names_text (hanging (tree_in checked.now) point 0 (entities_of (tree_in checked.now)))) }
{
    let none = push_each(out, checked, table, point)?;
    if none {
        out.extend_from_slice(b" -")?;
    }
    Ok(())
}

fn push_point(
    out: &mut Vec<u8>,
    checked: &Checked,
    table: &HangTable,
    p: u32,
    point: &Point,
) -> Result<(), AllocError>
    requires { IsHangTable (tree_in checked.now) table.now }
    ensures { OnOk result (out.new.items ≡ out.old.items ++ point_line point.now (hanging (tree_in checked.now) p 0 (entities_of (tree_in checked.now)))) }
{
    out.extend_from_slice(word(point.kind))?;
    out.extend_from_slice(b" ")?;
    place(out, point.place)?;
    out.extend_from_slice(b" hangs")?;
    push_names(out, checked, table, p)?;
    out.extend_from_slice(b"\n")
}

/// Appends the lines of the points.
pub(crate) fn push_points(
    out: &mut Vec<u8>,
    checked: &Checked,
    table: &HangTable,
) -> Result<(), AllocError>
    requires { IsHangTable (tree_in checked.now) table.now }
    ensures { OnOk result (out.new.items ≡ out.old.items ++ point_lines (tree_in checked.now) 1 (points_of (tree_in checked.now))) }
{
    for place in 0..checked.point_count() {
        let p = place + 1;
        push_point(out, checked, table, p, checked.point(p))?;
    }
    Ok(())
}
