//! Steps in few bytes, by operator, those over places alone without a look at what their operands are.

ghost use Rattle.std.specs.Prelude.{◌≡◌, ◌++◌, List, length, map, IfOk, IfSome, OnOk};
ghost use Rattle.sap_cycle.specs.declared.steps.Step.{Step as Whole};
ghost use Rattle.sap_cycle.specs.declared.steps.Step.TheVariants.{Two};
ghost use Rattle.sap_cycle.specs.declared.steps.Slot.TheVariants.{At, Number};
ghost use Rattle.sap_cycle.specs.Steps.{step_value, IsReady, settled, AreReady};
ghost use Rattle.sap_cycle.specs.Instructions.{step_of_instruction, placed_step, step_at, IsWithin, StandsFor};

use crate::steps::{Part, Slot, Step, evaluate, join};
use sap_bits::{Op1, Op2, apply1, apply2, concat, slice};
use std::alloc::AllocError;

/// A step in sixteen bytes. Each operator that is common over places has a variant of its own, so that one branch finds
/// what to do.
#[derive(Clone, Copy)]
pub enum Instruction {
    Number(u64),
    Copy(u32),
    Not(u32, u32),
    Add(u32, u32, u32),
    Sub(u32, u32, u32),
    And(u32, u32, u32),
    Or(u32, u32, u32),
    Xor(u32, u32, u32),
    Eq(u32, u32, u32),
    Ne(u32, u32, u32),
    Lt(u32, u32, u32),
    EqNumber(u8, u32, u64),
    Choose(u32, u32, u32),
    Concat(u32, u32),
    Pair(u32, u32, u32),
    Slice(u32, u32, u32),
    /// The step at a place in a list of its own.
    Other(usize),
}

/// An instruction, and the place of its number.
#[derive(Clone, Copy)]
pub struct Placed {
    pub target: usize,
    pub instruction: Instruction,
}

// A place in 32 bits.
fn short(place: usize) -> Option<u32>
    ensures { IfSome result (λ k. k ≡ place) }
{
    if place <= u32::MAX as usize {
        Some(place as u32)
    } else {
        None
    }
}

// A width in 8 bits.
fn narrow(width: u32) -> Option<u8>
    ensures { IfSome result (λ w. w ≡ width) }
{
    if width <= u8::MAX as u32 {
        Some(width as u8)
    } else {
        None
    }
}

/// An operator on the numbers at two places.
fn on_places(op: Op2, width: u32, a: usize, b: usize) -> Option<Instruction>
    ensures { IfSome result (StandsFor (Two op width (At a) (At b))) }
{
    let a = short(a)?;
    let b = short(b)?;
    match op {
        Op2::Add => Some(Instruction::Add(width, a, b)),
        Op2::Sub => Some(Instruction::Sub(width, a, b)),
        Op2::And => Some(Instruction::And(width, a, b)),
        Op2::Or => Some(Instruction::Or(width, a, b)),
        Op2::Xor => Some(Instruction::Xor(width, a, b)),
        Op2::Eq => Some(Instruction::Eq(width, a, b)),
        Op2::Ne => Some(Instruction::Ne(width, a, b)),
        Op2::Lt => Some(Instruction::Lt(width, a, b)),
        Op2::Mul | Op2::Le | Op2::Shl | Op2::Shr => None,
    }
}

// The instruction of a step, without the list.
fn short_of(step: Step) -> Option<Instruction>
    ensures { IfSome result (StandsFor step) }
{
    match step {
        Step::Copy(Slot::Number(x)) => Some(Instruction::Number(x)),
        Step::Copy(Slot::At(a)) => Some(Instruction::Copy(short(a)?)),
        Step::One(Op1::Not, width, Slot::At(a)) => Some(Instruction::Not(width, short(a)?)),
        Step::Two(op, width, Slot::At(a), Slot::At(b)) => on_places(op, width, a, b),
        Step::Two(Op2::Eq, width, Slot::At(a), Slot::Number(x)) => {
            Some(Instruction::EqNumber(narrow(width)?, short(a)?, x))
        }
        Step::Choose(Slot::At(c), Slot::At(a), Slot::At(b)) => {
            Some(Instruction::Choose(short(c)?, short(a)?, short(b)?))
        }
        Step::Concat(from, to) => Some(Instruction::Concat(short(from)?, short(to)?)),
        Step::Pair(width, Slot::At(a), Slot::At(b)) => {
            Some(Instruction::Pair(width, short(a)?, short(b)?))
        }
        Step::Slice(Slot::At(a), hi, lo) => Some(Instruction::Slice(short(a)?, hi, lo)),
        _ => None,
    }
}

/// The instruction of a step. Behind the list stands what has none of its own.
pub fn instruction_of(others: &mut Vec<Step>, step: Step) -> Result<Instruction, AllocError>
    ensures step { IfOk result (λ i. step_of_instruction others.new.items i ≡ step) }
    ensures within { IfOk result (IsWithin (length others.new.items)) }
    ensures more { OnOk result ((more : List Whole) × (others.new.items ≡ others.old.items ++ more)) }
{
    match short_of(step) {
        Some(instruction) => Ok(instruction),
        None => {
            let place = others.len();
            others.push(step)?;
            Ok(Instruction::Other(place))
        }
    }
}

fn at(place: u32) -> Slot
    ensures { result ≡ At place }
{
    Slot::At(place as usize)
}

/// The step of an instruction.
pub fn step_of(others: &[Step], instruction: &Instruction) -> Step
    ensures { result ≡ step_of_instruction others.now instruction.now }
{
    match instruction {
        Instruction::Number(x) => Step::Copy(Slot::Number(*x)),
        Instruction::Copy(a) => Step::Copy(at(*a)),
        Instruction::Not(w, a) => Step::One(Op1::Not, *w, at(*a)),
        Instruction::Add(w, a, b) => Step::Two(Op2::Add, *w, at(*a), at(*b)),
        Instruction::Sub(w, a, b) => Step::Two(Op2::Sub, *w, at(*a), at(*b)),
        Instruction::And(w, a, b) => Step::Two(Op2::And, *w, at(*a), at(*b)),
        Instruction::Or(w, a, b) => Step::Two(Op2::Or, *w, at(*a), at(*b)),
        Instruction::Xor(w, a, b) => Step::Two(Op2::Xor, *w, at(*a), at(*b)),
        Instruction::Eq(w, a, b) => Step::Two(Op2::Eq, *w, at(*a), at(*b)),
        Instruction::Ne(w, a, b) => Step::Two(Op2::Ne, *w, at(*a), at(*b)),
        Instruction::Lt(w, a, b) => Step::Two(Op2::Lt, *w, at(*a), at(*b)),
        Instruction::EqNumber(w, a, x) => {
            Step::Two(Op2::Eq, u32::from(*w), at(*a), Slot::Number(*x))
        }
        Instruction::Choose(c, a, b) => Step::Choose(at(*c), at(*a), at(*b)),
        Instruction::Concat(from, to) => Step::Concat(*from as usize, *to as usize),
        Instruction::Pair(w, a, b) => Step::Pair(*w, at(*a), at(*b)),
        Instruction::Slice(a, hi, lo) => Step::Slice(at(*a), *hi, *lo),
        Instruction::Other(place) => match others.get(*place) {
            Some(step) => *step,
            None => Step::Copy(Slot::Number(0)),
        },
    }
}

// The number of the step at a place of the list.
fn perform_other(
    values: &[u64],
    cells: &[u64],
    parts: &[Part],
    others: &[Step],
    place: usize,
) -> u64
    requires { IsReady values.now cells.now parts.now (step_at others.now place) }
    ensures { result ≡ step_value values.now cells.now parts.now (step_at others.now place) }
{
    match others.get(place) {
        Some(step) => evaluate(values, cells, parts, *step),
        None => 0,
    }
}

/// The number of an instruction.
#[inline(always)]
pub fn perform(
    values: &[u64],
    cells: &[u64],
    parts: &[Part],
    others: &[Step],
    instruction: &Instruction,
) -> u64
    requires { IsReady values.now cells.now parts.now (step_of_instruction others.now instruction.now) }
    ensures { result ≡ step_value values.now cells.now parts.now (step_of_instruction others.now instruction.now) }
{
    match instruction {
        Instruction::Number(x) => *x,
        Instruction::Copy(a) => values[*a as usize],
        Instruction::Not(w, a) => apply1(Op1::Not, *w, values[*a as usize]),
        Instruction::Add(w, a, b) => {
            apply2(Op2::Add, *w, values[*a as usize], values[*b as usize])
        }
        Instruction::Sub(w, a, b) => {
            apply2(Op2::Sub, *w, values[*a as usize], values[*b as usize])
        }
        Instruction::And(w, a, b) => {
            apply2(Op2::And, *w, values[*a as usize], values[*b as usize])
        }
        Instruction::Or(w, a, b) => {
            apply2(Op2::Or, *w, values[*a as usize], values[*b as usize])
        }
        Instruction::Xor(w, a, b) => {
            apply2(Op2::Xor, *w, values[*a as usize], values[*b as usize])
        }
        Instruction::Eq(w, a, b) => {
            apply2(Op2::Eq, *w, values[*a as usize], values[*b as usize])
        }
        Instruction::Ne(w, a, b) => {
            apply2(Op2::Ne, *w, values[*a as usize], values[*b as usize])
        }
        Instruction::Lt(w, a, b) => {
            apply2(Op2::Lt, *w, values[*a as usize], values[*b as usize])
        }
        Instruction::EqNumber(w, a, x) => {
            apply2(Op2::Eq, u32::from(*w), values[*a as usize], *x)
        }
        Instruction::Choose(c, a, b) => {
            // both are read, so that no branch depends on the number
            let (chosen, other) = (values[*a as usize], values[*b as usize]);
            if values[*c as usize] == 0 {
                other
            } else {
                chosen
            }
        }
        Instruction::Concat(from, to) => join(values, &parts[*from as usize..*to as usize]),
        Instruction::Pair(w, a, b) => concat(values[*a as usize], *w, values[*b as usize]),
        Instruction::Slice(a, hi, lo) => slice(values[*a as usize], *hi, *lo),
        Instruction::Other(place) => perform_other(values, cells, parts, others, *place),
    }
}

/// All instructions, one after another.
pub fn settle(values: &mut [u64], cells: &[u64], parts: &[Part], others: &[Step], steps: &[Placed])
    requires { AreReady cells.now parts.now (map (placed_step others.now) steps.now) values.old }
    ensures { values.new ≡ settled cells.now parts.now (map (placed_step others.now) steps.now) values.old }
{
    for step in steps {
        values[step.target] = perform(values, cells, parts, others, &step.instruction);
    }
}
