//! Steps in four places of 32 bits, for runs of one operator.

ghost use Rattle.std.specs.Prelude.{◌≡◌, List, IfSome};
ghost use Rattle.sap_cycle.specs.declared.steps.Step.{Step as Whole};
ghost use Rattle.sap_cycle.specs.Instructions.{placed_step};
ghost use Rattle.sap_cycle.specs.Runs.{operands_step};

use crate::instructions::{Instruction, Placed};

/// What the steps of a run do.
#[derive(Clone, Copy, PartialEq, Eq)]
pub enum Operator {
    Number,
    Add,
    Sub,
    And,
    Or,
    Xor,
    Eq,
    Ne,
    Lt,
    EqNumber,
    Choose,
    Pair,
    Slice,
}

/// The place of a step's number, and what the step reads.
#[derive(Clone, Copy)]
pub struct Operands {
    pub target: u32,
    pub a: u32,
    pub b: u32,
    pub c: u32,
}

/// A step in sixteen bytes, and what it does.
#[derive(Clone, Copy)]
pub struct Short {
    pub operator: Operator,
    pub operands: Operands,
}

// A number in 32 bits.
fn narrow(number: u64) -> Option<u32>
    ensures { IfSome result (λ k. k ≡ number) }
{
    if number <= u32::MAX as u64 {
        Some(number as u32)
    } else {
        None
    }
}

/// The short form of a step, where it has one.
pub fn short_of(placed: &Placed) -> Option<Short>
    ensures { IfSome result (λ s. (others : List Whole) → operands_step s.operator s.operands ≡ placed_step others placed.now) }
{
    let target = narrow(placed.target as u64)?;
    let (operator, a, b, c) = match placed.instruction {
        Instruction::Number(x) => (Operator::Number, narrow(x)?, 0, 0),
        Instruction::Add(w, a, b) => (Operator::Add, a, b, w),
        Instruction::Sub(w, a, b) => (Operator::Sub, a, b, w),
        Instruction::And(w, a, b) => (Operator::And, a, b, w),
        Instruction::Or(w, a, b) => (Operator::Or, a, b, w),
        Instruction::Xor(w, a, b) => (Operator::Xor, a, b, w),
        Instruction::Eq(w, a, b) => (Operator::Eq, a, b, w),
        Instruction::Ne(w, a, b) => (Operator::Ne, a, b, w),
        Instruction::Lt(w, a, b) => (Operator::Lt, a, b, w),
        Instruction::EqNumber(w, a, x) => (Operator::EqNumber, a, narrow(x)?, u32::from(w)),
        Instruction::Choose(c, a, b) => (Operator::Choose, a, b, c),
        Instruction::Pair(w, a, b) => (Operator::Pair, a, b, w),
        Instruction::Slice(a, hi, lo) => (Operator::Slice, a, hi, lo),
        _ => return None,
    };
    Some(Short {
        operator,
        operands: Operands { target, a, b, c },
    })
}
