//! V7 at the numbers and indexes of memories.

ghost use Rattle.std.specs.Prelude.{◌≡◌, ◌+◌, ◌≤◌, ◌^◌, ◌==◌, option_map};
ghost use Rattle.sap_vtext.specs.Faults as faults;
ghost use Rattle.sap_vjudge.specs.Best.{best_of};
ghost use Rattle.sap_vjudge.specs.Listed as spec;
ghost use Rattle.sap_vjudge.specs.Shapes.{shape_of};
ghost use Rattle.sap_vjudge.specs.Tables.{known_of};
ghost use Rattle.sap_vparse.specs.Views.{item_of, mention_of, number_of, operand_of, right_of};

use crate::code::Code;
use crate::fault::{Fault, note};
use crate::shape::Shape;
use crate::table::Table;
use crate::width::operand_width;
use sap_vparse::items::{Item, Mention, Number, Operand, Right};

// One more than the number of the last cell.
fn depth(last: u64) -> u128
    ensures value { result ≡ last + 1 }
    ensures bounded { result ≤ 2 ^ 64 }
{
    u128::from(last) + 1
}

fn is_depth(depth: u128) -> bool
    ensures { result ≡ spec.is_depth depth }
{
    depth.is_power_of_two() && 2 <= depth && depth <= 4096
}

#[tactic(auto, using(crate::proofs::Noting::noting, crate::proofs::Noting::indexes))]
fn note_other_bound(shape: Option<Shape>, bound: &Number, best: &mut Option<Fault>)
    ensures { best.new ≡ best_of best.old (spec.other_bound (option_map shape_of shape) (number_of bound.now)) }
{
    match shape {
        Some(Shape::Memory(_, last)) => {
            let same = u128::from(bound.value) == depth(last);
            note(best, !same, Code::V7, bound.place);
        }
        Some(Shape::Input(_)) => (),
        Some(Shape::Wire(_)) => (),
        Some(Shape::Register(_)) => (),
        None => (),
    }
}

// Whether a memory of this depth has indexes of this width.
fn is_index(depth: u128, width: u128) -> bool
    requires { depth ≤ 2 ^ 64 }
    ensures { result ≡ (depth == 2 ^ width) }
{
    width <= 64 && depth == 1u128 << width
}

fn place_of(operand: &Operand) -> u64
    ensures { result ≡ faults.operand_place (operand_of operand.now) }
{
    match operand {
        Operand::Named(x) => x.place,
        Operand::Constant(constant) => constant.place,
    }
}

#[tactic(auto, using(crate::proofs::Noting::noting, crate::proofs::Noting::indexes))]
fn note_other_index(last: u64, width: Option<u128>, place: u64, best: &mut Option<Fault>)
    ensures { best.new ≡ best_of best.old (spec.depth_index (last + 1) width place) }
{
    match width {
        Some(given) => {
            let cells = depth(last);
            let other = cells.is_power_of_two() && !is_index(cells, given);
            note(best, other, Code::V7, place);
        }
        None => (),
    }
}

#[tactic(auto, using(crate::proofs::Noting::noting, crate::proofs::Noting::indexes))]
fn note_index(table: &Table, memory: &Mention, index: &Operand, best: &mut Option<Fault>)
    ensures { best.new ≡ best_of best.old (spec.index_faults (known_of table.now) (mention_of memory.now, operand_of index.now)) }
{
    match table.shape(&memory.name) {
        Some(Shape::Memory(_, last)) => {
            let width = operand_width(table, index);
            note_other_index(last, width, place_of(index), best);
        }
        Some(Shape::Input(_)) => (),
        Some(Shape::Wire(_)) => (),
        Some(Shape::Register(_)) => (),
        None => (),
    }
}

#[tactic(auto, using(crate::proofs::Noting::noting, crate::proofs::Noting::indexes))]
fn note_right(table: &Table, right: &Right, best: &mut Option<Fault>)
    ensures { best.new ≡ best_of best.old (spec.indexes_faults (known_of table.now) (faults.right_indexes (right_of right.now))) }
{
    match right {
        Right::Cell(memory, index) => note_index(table, memory, index, best),
        Right::Copy(_) => (),
        Right::One(_, _) => (),
        Right::Two(_, _, _) => (),
        Right::Choose(_, _, _) => (),
        Right::Concat(_) => (),
        Right::Slice(_, _, _) => (),
    }
}

/// V7 at a memory's number, at the bound of a `for`, and at an index.
#[tactic(auto, using(crate::proofs::Noting::noting, crate::proofs::Noting::indexes))]
pub fn note_memories(table: &Table, item: &Item, best: &mut Option<Fault>)
    ensures { best.new ≡ best_of best.old (spec.memory_faults (known_of table.now) (item_of item.now)) }
{
    match item {
        Item::Memory(_, _, last) => note(best, !is_depth(depth(last.value)), Code::V7, last.place),
        Item::InitialCells(_, bound, x, _) => note_other_bound(table.shape(&x.name), bound, best),
        Item::Assign(_, right) => note_right(table, right, best),
        Item::AlwaysCell(_, x, index, _) => note_index(table, x, index, best),
        Item::Wire(_, _) => (),
        Item::Register(_, _) => (),
        Item::Integer(_) => (),
        Item::Initial(_, _) => (),
        Item::Always(_, _) => (),
    }
}
