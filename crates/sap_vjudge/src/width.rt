//! Widths of what stands in an item, each only where what has it has no fault of its own.

ghost use Rattle.std.specs.Prelude.{◌≡◌, ◌+◌, ◌≤◌, ◌^◌, IfSome, option_map};
ghost use Rattle.sap_vtext.specs.Names as names;
ghost use Rattle.sap_vtext.specs.Widths as widths;
ghost use Rattle.sap_vjudge.specs.Shapes.{shape_of};
ghost use Rattle.sap_vjudge.specs.Tables.{known_of};
ghost use Rattle.sap_vparse.specs.Views.{constant_of, operand_of, operands_of};

use crate::constants::constant_fits;
use crate::shape::{Setting, Shape};
use crate::table::Table;
use sap_vparse::items::{Constant, Mention, Operand};

// One more than the number of a range.
fn width(range: u64) -> u128
    ensures { result ≡ range + 1 }
{
    u128::from(range) + 1
}

pub fn shape_width(shape: Shape) -> u128
    ensures { result ≡ widths.shape_width (shape_of shape) }
{
    match shape {
        Shape::Input(range) => width(range),
        Shape::Wire(range) => width(range),
        Shape::Register(range) => width(range),
        Shape::Memory(range, _) => width(range),
    }
}

pub fn wire_width(shape: Option<Shape>) -> Option<u128>
    ensures { result ≡ widths.wire_width (option_map shape_of shape) }
{
    match shape {
        Some(Shape::Wire(range)) => Some(width(range)),
        Some(Shape::Input(_)) => None,
        Some(Shape::Register(_)) => None,
        Some(Shape::Memory(_, _)) => None,
        None => None,
    }
}

pub fn register_width(shape: Option<Shape>) -> Option<u128>
    ensures { result ≡ widths.register_width (option_map shape_of shape) }
{
    match shape {
        Some(Shape::Register(range)) => Some(width(range)),
        Some(Shape::Input(_)) => None,
        Some(Shape::Wire(_)) => None,
        Some(Shape::Memory(_, _)) => None,
        None => None,
    }
}

pub fn memory_width(shape: Option<Shape>) -> Option<u128>
    ensures { result ≡ widths.memory_width (option_map shape_of shape) }
{
    match shape {
        Some(Shape::Memory(range, _)) => Some(width(range)),
        Some(Shape::Input(_)) => None,
        Some(Shape::Wire(_)) => None,
        Some(Shape::Register(_)) => None,
        None => None,
    }
}

fn value_width(shape: Option<Shape>, assigned: bool) -> Option<u128>
    ensures width { result ≡ widths.value_width (option_map shape_of shape) assigned }
    ensures bounded { IfSome result (λ w. w ≤ 2 ^ 64) }
{
    match shape {
        Some(Shape::Input(range)) => Some(width(range)),
        Some(Shape::Register(range)) => Some(width(range)),
        Some(Shape::Wire(range)) => { if assigned { Some(width(range)) } else { None } }
        Some(Shape::Memory(_, _)) => None,
        None => None,
    }
}

pub fn constant_width(constant: &Constant) -> Option<u128>
    ensures width { result ≡ widths.constant_width (constant_of constant.now) }
    ensures bounded { IfSome result (λ w. w ≤ 2 ^ 64) }
{
    if constant_fits(constant) {
        Some(u128::from(constant.width))
    } else {
        None
    }
}

/// The width of a name as an operand.
pub fn named_width(table: &Table, x: &Mention) -> Option<u128>
    ensures width { result ≡ widths.value_width ((known_of table.now).shape x.now.name) ((known_of table.now).set names.assign x.now.name) }
    ensures bounded { IfSome result (λ w. w ≤ 2 ^ 64) }
{
    let shape = table.shape(&x.name);
    let assigned = table.is_set(Setting::Assign, &x.name);
    value_width(shape, assigned)
}

pub fn operand_width(table: &Table, operand: &Operand) -> Option<u128>
    ensures width { result ≡ widths.operand_width (known_of table.now) (operand_of operand.now) }
    ensures bounded { IfSome result (λ w. w ≤ 2 ^ 64) }
{
    match operand {
        Operand::Named(x) => named_width(table, x),
        Operand::Constant(constant) => constant_width(constant),
    }
}

/// The sum of the parts of a `{}`.
#[tactic(auto, using(crate::proofs::Parts::parts))]
pub fn parts_width(table: &Table, parts: &[Operand]) -> Option<u128>
    ensures { result ≡ widths.parts_width (known_of table.now) (operands_of parts.now) }
{
    let mut sum: u128 = 0;
    for part in parts {
        match operand_width(table, part) {
            Some(width) => sum += width,
            None => return None,
        }
    }
    Some(sum)
}

pub fn slice_width(width: Option<u128>, high: u64, low: u64) -> Option<u128>
    ensures { result ≡ widths.slice_width width high low }
{
    match width {
        Some(whole) => {
            if low <= high && u128::from(high) < whole {
                Some(u128::from(high) + 1 - u128::from(low))
            } else {
                None
            }
        }
        None => None,
    }
}
