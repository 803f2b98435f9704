//! V5 where widths differ that have to be equal, where a `{}` is too wide, and where a slice is out of range.

ghost use Rattle.std.specs.Prelude.{◌≡◌, ◌||◌, option_map};
ghost use Rattle.std.specs.List.{list_any};
ghost use Rattle.sap_vtext.specs.Widths as widths;
ghost use Rattle.sap_vtext.specs.Widths.{all_equal, binary_pairs, binary_rule, compared, unary_pairs, unary_rule, arm_pairs};
ghost use Rattle.sap_vjudge.specs.Best.{best_of};
ghost use Rattle.sap_vjudge.specs.Listed as spec;
ghost use Rattle.sap_vjudge.specs.Shapes.{shape_of};
ghost use Rattle.sap_vjudge.specs.Tables.{known_of};
ghost use Rattle.sap_vparse.specs.Views.{item_of, operand_of, right_of};

use crate::code::Code;
use crate::fault::{Fault, note};
use crate::shape::Shape;
use crate::table::Table;
use crate::width::{
    constant_width, memory_width, named_width, operand_width, parts_width, register_width,
    shape_width, slice_width, wire_width,
};
use sap_bits::{Op1, Op2};
use sap_vparse::items::{Item, Operand, Right};

// Both are there, and they differ.
fn differ(one: Option<u128>, other: Option<u128>) -> bool
    ensures { result ≡ spec.differ (one, other) }
{
    match one {
        Some(u) => match other {
            Some(w) => u != w,
            None => false,
        },
        None => false,
    }
}

fn too_wide(width: Option<u128>) -> bool
    ensures { result ≡ spec.too_wide width }
{
    match width {
        Some(w) => 64 < w,
        None => false,
    }
}

fn one_differs(operator: Op1, target: Option<u128>, x: Option<u128>) -> bool
    ensures { result ≡ list_any spec.differ (unary_pairs (unary_rule operator) target x) }
{
    match operator {
        Op1::Not => differ(target, x),
        Op1::Neg => differ(target, x),
        Op1::AllOnes => differ(target, Some(1)),
        Op1::AnyOne => differ(target, Some(1)),
        Op1::Odd => differ(target, Some(1)),
    }
}

// Operands and target of one width.
fn three_differ(target: Option<u128>, x: Option<u128>, y: Option<u128>) -> bool
    ensures { result ≡ list_any spec.differ (binary_pairs all_equal target x y) }
{
    differ(target, x) || differ(target, y) || differ(x, y)
}

// Operands of one width, and a target of 1.
fn compared_differ(target: Option<u128>, x: Option<u128>, y: Option<u128>) -> bool
    ensures { result ≡ list_any spec.differ (binary_pairs compared target x y) }
{
    differ(target, Some(1)) || differ(x, y)
}

fn two_differ(operator: Op2, target: Option<u128>, x: Option<u128>, y: Option<u128>) -> bool
    ensures { result ≡ list_any spec.differ (binary_pairs (binary_rule operator) target x y) }
{
    match operator {
        Op2::Add => three_differ(target, x, y),
        Op2::Sub => three_differ(target, x, y),
        Op2::Mul => three_differ(target, x, y),
        Op2::And => three_differ(target, x, y),
        Op2::Or => three_differ(target, x, y),
        Op2::Xor => three_differ(target, x, y),
        Op2::Eq => compared_differ(target, x, y),
        Op2::Ne => compared_differ(target, x, y),
        Op2::Lt => compared_differ(target, x, y),
        Op2::Le => compared_differ(target, x, y),
        Op2::Shl => differ(target, x),
        Op2::Shr => differ(target, x),
    }
}

// A condition of 1, and arms and target of one width.
fn arms_differ(
    condition: Option<u128>,
    target: Option<u128>,
    x: Option<u128>,
    y: Option<u128>,
) -> bool
    ensures { result ≡ list_any spec.differ (arm_pairs condition target x y) }
{
    differ(condition, Some(1)) || three_differ(target, x, y)
}

fn choice_differs(
    table: &Table,
    target: Option<u128>,
    condition: &Operand,
    x: &Operand,
    y: &Operand,
) -> bool
    ensures { result ≡ list_any spec.differ (arm_pairs (widths.operand_width (known_of table.now) (operand_of condition.now)) target (widths.operand_width (known_of table.now) (operand_of x.now)) (widths.operand_width (known_of table.now) (operand_of y.now))) }
{
    let asked = operand_width(table, condition);
    let one = operand_width(table, x);
    let other = operand_width(table, y);
    arms_differ(asked, target, one, other)
}

fn right_differs(table: &Table, target: Option<u128>, right: &Right) -> bool
    ensures { result ≡ (list_any spec.differ (widths.right_pairs (known_of table.now) target (right_of right.now)) || spec.right_too_wide (known_of table.now) (right_of right.now)) }
{
    match right {
        Right::Copy(x) => differ(target, operand_width(table, x)),
        Right::One(operator, x) => one_differs(*operator, target, operand_width(table, x)),
        Right::Two(operator, x, y) => {
            let one = operand_width(table, x);
            let other = operand_width(table, y);
            two_differ(*operator, target, one, other)
        }
        Right::Choose(condition, x, y) => choice_differs(table, target, condition, x, y),
        Right::Concat(parts) => {
            let sum = parts_width(table, parts.as_slice());
            differ(target, sum) || too_wide(sum)
        }
        Right::Slice(x, high, low) => {
            let whole = named_width(table, x);
            differ(target, slice_width(whole, *high, *low))
        }
        Right::Cell(memory, _) => differ(target, memory_width(table.shape(&memory.name))),
    }
}

// Whether a width rule is broken between what has no fault of its own.
fn item_differs(table: &Table, item: &Item) -> bool
    ensures { result ≡ spec.item_differs (known_of table.now) (item_of item.now) }
{
    match item {
        Item::Assign(x, right) => right_differs(table, wire_width(table.shape(&x.name)), right),
        Item::Initial(x, value) => {
            let target = register_width(table.shape(&x.name));
            differ(target, constant_width(value))
        }
        Item::InitialCells(_, _, x, value) => {
            let target = memory_width(table.shape(&x.name));
            differ(target, constant_width(value))
        }
        Item::Always(x, next) => {
            let target = register_width(table.shape(&x.name));
            differ(target, operand_width(table, next))
        }
        Item::AlwaysCell(condition, x, _, value) => {
            let asked = operand_width(table, condition);
            let target = memory_width(table.shape(&x.name));
            let given = operand_width(table, value);
            differ(asked, Some(1)) || differ(target, given)
        }
        Item::Wire(_, _) => false,
        Item::Register(_, _) => false,
        Item::Memory(_, _, _) => false,
        Item::Integer(_) => false,
    }
}

#[tactic(auto, using(crate::proofs::Noting::noting))]
fn note_past(shape: Option<Shape>, high: u64, low: u64, place: u64, best: &mut Option<Fault>)
    ensures { best.new ≡ best_of best.old (spec.past_shape (option_map shape_of shape) high low place) }
{
    match shape {
        Some(known) => {
            let within = low <= high && u128::from(high) < shape_width(known);
            note(best, !within, Code::V5, place);
        }
        None => (),
    }
}

#[tactic(auto, using(crate::proofs::Noting::noting))]
fn note_slice(table: &Table, right: &Right, best: &mut Option<Fault>)
    ensures { best.new ≡ best_of best.old (spec.right_slice_faults (known_of table.now) (right_of right.now)) }
{
    match right {
        Right::Slice(x, high, low) => note_past(table.shape(&x.name), *high, *low, x.place, best),
        Right::Copy(_) => (),
        Right::One(_, _) => (),
        Right::Two(_, _, _) => (),
        Right::Choose(_, _, _) => (),
        Right::Concat(_) => (),
        Right::Cell(_, _) => (),
    }
}

/// V5 at an item's target and at the name of its slice.
#[tactic(auto, using(crate::proofs::Noting::noting))]
pub fn note_widths(table: &Table, item: &Item, best: &mut Option<Fault>)
    ensures { best.new ≡ best_of best.old (spec.widths_faults (known_of table.now) (item_of item.now)) }
{
    let differs = item_differs(table, item);
    match item {
        Item::Assign(x, right) => {
            note(best, differs, Code::V5, x.place);
            note_slice(table, right, best);
        }
        Item::Initial(x, _) => note(best, differs, Code::V5, x.place),
        Item::InitialCells(_, _, x, _) => note(best, differs, Code::V5, x.place),
        Item::Always(x, _) => note(best, differs, Code::V5, x.place),
        Item::AlwaysCell(_, x, _, _) => note(best, differs, Code::V5, x.place),
        Item::Wire(_, _) => (),
        Item::Register(_, _) => (),
        Item::Memory(_, _, _) => (),
        Item::Integer(_) => (),
    }
}
