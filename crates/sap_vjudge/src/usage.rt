//! What names are used as.

ghost use Rattle.std.specs.Prelude.{◌≡◌, flat_map, option_map};
ghost use Rattle.sap_vtext.specs.Faults as faults;
ghost use Rattle.sap_vtext.specs.Faults.{operand_uses, right_uses, uses};
ghost use Rattle.sap_vjudge.specs.Best.{best_of};
ghost use Rattle.sap_vjudge.specs.Listed as spec;
ghost use Rattle.sap_vjudge.specs.Listed.{shape_faults, uses_faults, used};
ghost use Rattle.sap_vjudge.specs.Shapes.{manner_of, shape_of};
ghost use Rattle.sap_vjudge.specs.Tables.{known_of};
ghost use Rattle.sap_vparse.specs.Views.{item_of, mention_of, operand_of, operands_of, right_of};

use crate::code::Code;
use crate::fault::{Fault, note};
use crate::shape::{Manner, Setting, Shape};
use crate::table::Table;
use sap_vparse::items::{Item, Mention, Operand, Right};

fn is_unassigned(manner: Manner, shape: Shape, assigned: bool) -> bool
    ensures { result ≡ spec.is_unassigned (manner_of manner) (shape_of shape) assigned }
{
    match (manner, shape) {
        (Manner::Value, Shape::Wire(_)) => !assigned,
        _ => false,
    }
}

fn suits(manner: Manner, shape: Shape) -> bool
    ensures { result ≡ faults.suits (manner_of manner) (shape_of shape) }
{
    match (manner, shape) {
        (Manner::Value, Shape::Input(_)) => true,
        (Manner::Value, Shape::Wire(_)) => true,
        (Manner::Value, Shape::Register(_)) => true,
        (Manner::Cell, Shape::Memory(_, _)) => true,
        (Manner::Wire, Shape::Wire(_)) => true,
        (Manner::Register, Shape::Register(_)) => true,
        (Manner::Memory, Shape::Memory(_, _)) => true,
        _ => false,
    }
}

#[tactic(auto, using(crate::proofs::Noting::noting, crate::proofs::Noting::used))]
fn note_shape(
    manner: Manner,
    shape: Option<Shape>,
    assigned: bool,
    place: u64,
    best: &mut Option<Fault>,
)
    ensures { best.new ≡ best_of best.old (shape_faults (manner_of manner) (option_map shape_of shape) assigned place) }
{
    match shape {
        None => note(best, true, Code::V4, place),
        Some(known) => {
            note(
                best,
                is_unassigned(manner, known, assigned),
                Code::V4,
                place,
            );
            note(best, !suits(manner, known), Code::V7, place);
        }
    }
}

// V4 where a used name isn't declared before, or is a wire that isn't assigned before; V7 where it is of another kind.
#[tactic(auto, using(crate::proofs::Noting::noting, crate::proofs::Noting::used))]
fn note_use(table: &Table, manner: Manner, x: &Mention, best: &mut Option<Fault>)
    ensures { best.new ≡ best_of best.old (spec.use_faults (known_of table.now) (used (manner_of manner) (mention_of x.now))) }
{
    let shape = table.shape(&x.name);
    let assigned = table.is_set(Setting::Assign, &x.name);
    note_shape(manner, shape, assigned, x.place, best);
}

#[tactic(auto, using(crate::proofs::Noting::noting, crate::proofs::Noting::used))]
fn note_operand(table: &Table, operand: &Operand, best: &mut Option<Fault>)
    ensures { best.new ≡ best_of best.old (uses_faults (known_of table.now) (operand_uses (operand_of operand.now))) }
{
    match operand {
        Operand::Named(x) => note_use(table, Manner::Value, x, best),
        Operand::Constant(_) => (),
    }
}

#[tactic(auto, using(crate::proofs::Noting::noting, crate::proofs::Noting::used))]
fn note_operands(table: &Table, operands: &[Operand], best: &mut Option<Fault>)
    ensures { best.new ≡ best_of best.old (uses_faults (known_of table.now) (flat_map operand_uses (operands_of operands.now))) }
{
    for operand in operands {
        note_operand(table, operand, best);
    }
}

#[tactic(auto, using(crate::proofs::Noting::noting, crate::proofs::Noting::used))]
fn note_right(table: &Table, right: &Right, best: &mut Option<Fault>)
    ensures { best.new ≡ best_of best.old (uses_faults (known_of table.now) (right_uses (right_of right.now))) }
{
    match right {
        Right::Copy(x) => note_operand(table, x, best),
        Right::One(_, x) => note_operand(table, x, best),
        Right::Two(_, x, y) => {
            note_operand(table, x, best);
            note_operand(table, y, best);
        }
        Right::Choose(condition, x, y) => {
            note_operand(table, condition, best);
            note_operand(table, x, best);
            note_operand(table, y, best);
        }
        Right::Concat(parts) => note_operands(table, parts.as_slice(), best),
        Right::Slice(x, _, _) => note_use(table, Manner::Value, x, best),
        Right::Cell(memory, index) => {
            note_use(table, Manner::Cell, memory, best);
            note_operand(table, index, best);
        }
    }
}

/// V4 and V7 at the names that an item uses.
#[tactic(auto, using(crate::proofs::Noting::noting, crate::proofs::Noting::used))]
pub fn note_uses(table: &Table, item: &Item, best: &mut Option<Fault>)
    ensures { best.new ≡ best_of best.old (uses_faults (known_of table.now) (uses (item_of item.now))) }
{
    match item {
        Item::Assign(x, right) => {
            note_use(table, Manner::Wire, x, best);
            note_right(table, right, best);
        }
        Item::Initial(x, _) => note_use(table, Manner::Register, x, best),
        Item::InitialCells(_, _, x, _) => note_use(table, Manner::Memory, x, best),
        Item::Always(x, next) => {
            note_use(table, Manner::Register, x, best);
            note_operand(table, next, best);
        }
        Item::AlwaysCell(condition, x, index, value) => {
            note_operand(table, condition, best);
            note_use(table, Manner::Memory, x, best);
            note_operand(table, index, best);
            note_operand(table, value, best);
        }
        Item::Wire(_, _) => (),
        Item::Register(_, _) => (),
        Item::Memory(_, _, _) => (),
        Item::Integer(_) => (),
    }
}
