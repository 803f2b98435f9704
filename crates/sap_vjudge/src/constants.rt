//! V5 at ranges and constants.

ghost use Rattle.std.specs.Prelude.{◌≡◌, [], ◌∷◌, ◌++◌, flat_map};
ghost use Rattle.sap_vtext.specs.Widths as widths;
ghost use Rattle.sap_vtext.specs.Faults.{constants, operand_constants, ranges, right_constants};
ghost use Rattle.sap_vjudge.specs.Best.{best_of};
ghost use Rattle.sap_vjudge.specs.Listed.{constants_faults, range_faults, ranges_faults};
ghost use Rattle.sap_vparse.specs.Views.{constant_of, item_of, number_of, operand_of, operands_of, right_of};

use crate::code::Code;
use crate::fault::{Fault, note};
use sap_bits::mask;
use sap_vparse::items::{Constant, Item, Number, Operand, Right};

/// Whether a constant's width is from 1 to 64 and its number fits.
pub fn constant_fits(constant: &Constant) -> bool
    ensures { result ≡ widths.constant_fits (constant_of constant.now) }
{
    1 <= constant.width && constant.width <= 64 && constant.value <= mask(constant.width as u32)
}

/// V5 at a range's number over 63.
pub fn note_range(range: &Number, best: &mut Option<Fault>)
    ensures { best.new ≡ best_of best.old (range_faults (number_of range.now)) }
{
    note(best, 63 < range.value, Code::V5, range.place);
}

#[tactic(auto, using(crate::proofs::Noting::noting, crate::proofs::Noting::constants))]
fn note_constant(constant: &Constant, best: &mut Option<Fault>)
    ensures { best.new ≡ best_of best.old (constants_faults (constant_of constant.now ∷ [])) }
{
    note(best, !constant_fits(constant), Code::V5, constant.place);
}

#[tactic(auto, using(crate::proofs::Noting::noting, crate::proofs::Noting::constants))]
fn note_operand(operand: &Operand, best: &mut Option<Fault>)
    ensures { best.new ≡ best_of best.old (constants_faults (operand_constants (operand_of operand.now))) }
{
    match operand {
        Operand::Named(_) => (),
        Operand::Constant(constant) => note_constant(constant, best),
    }
}

#[tactic(auto, using(crate::proofs::Noting::noting, crate::proofs::Noting::constants))]
fn note_operands(operands: &[Operand], best: &mut Option<Fault>)
    ensures { best.new ≡ best_of best.old (constants_faults (flat_map operand_constants (operands_of operands.now))) }
{
    for operand in operands {
        note_operand(operand, best);
    }
}

#[tactic(auto, using(crate::proofs::Noting::noting, crate::proofs::Noting::constants))]
fn note_right(right: &Right, best: &mut Option<Fault>)
    ensures { best.new ≡ best_of best.old (constants_faults (right_constants (right_of right.now))) }
{
    match right {
        Right::Copy(x) => note_operand(x, best),
        Right::One(_, x) => note_operand(x, best),
        Right::Two(_, x, y) => {
            note_operand(x, best);
            note_operand(y, best);
        }
        Right::Choose(condition, x, y) => {
            note_operand(condition, best);
            note_operand(x, best);
            note_operand(y, best);
        }
        Right::Concat(parts) => note_operands(parts.as_slice(), best),
        Right::Slice(_, _, _) => (),
        Right::Cell(_, index) => note_operand(index, best),
    }
}

/// V5 at the range of a declaration, and at the constants of an item.
#[tactic(auto, using(crate::proofs::Noting::noting, crate::proofs::Noting::ranges, crate::proofs::Noting::constants))]
pub fn note_numbers(item: &Item, best: &mut Option<Fault>)
    ensures { best.new ≡ best_of best.old (ranges_faults (ranges (item_of item.now)) ++ constants_faults (constants (item_of item.now))) }
{
    match item {
        Item::Wire(range, _) => note_range(range, best),
        Item::Register(range, _) => note_range(range, best),
        Item::Memory(range, _, _) => note_range(range, best),
        Item::Integer(_) => (),
        Item::Assign(_, right) => note_right(right, best),
        Item::Initial(_, value) => note_constant(value, best),
        Item::InitialCells(_, _, _, value) => note_constant(value, best),
        Item::Always(_, next) => note_operand(next, best),
        Item::AlwaysCell(condition, _, index, value) => {
            note_operand(condition, best);
            note_operand(index, best);
            note_operand(value, best);
        }
    }
}
