//! The rules by which right sides fold.

ghost use Rattle.std.specs.Prelude.{◌≡◌};
ghost use Rattle.sap_fold.specs.Folding as spec;

use sap_bits::{Op1, Op2, apply1, apply2, mask};
use sap_net::parts::Operand;

/// What a right side folds to: itself, one of its operands or the negation of one, a number, or the condition with an arm.
#[derive(Clone, Copy)]
pub enum Outcome {
    Keep,
    Condition,
    First,
    Second,
    Number(u64),
    NotCondition,
    NotFirst,
    NotSecond,
    ConditionAndFirst,
    ConditionOrSecond,
}

impl Outcome {
    /// The outcome of the first rule that has one.
    fn or(self, other: Outcome) -> Outcome
        ensures { result ≡ spec.or_else self other }
    {
        match self {
            Outcome::Keep => other,
            _ => self,
        }
    }
}

/// Whether an operand is a number of this value.
pub fn is(operand: &Operand, number: u64) -> bool
    ensures { result ≡ spec.is_number operand.now number }
{
    match operand {
        Operand::Named(_) => false,
        Operand::Constant { value, .. } => *value == number,
    }
}

/// Whether an operand is a number of one bit, of this value.
fn is_bit(operand: &Operand, number: u64) -> bool
    ensures { result ≡ spec.is_bit operand.now number }
{
    match operand {
        Operand::Named(_) => false,
        Operand::Constant { width, value } => *width == 1 && *value == number,
    }
}

/// Whether a number has a width and is within it.
pub fn fits(width: u32, value: u64) -> bool
    ensures { result ≡ spec.fits width value }
{
    1 <= width && width <= 64 && value <= mask(width)
}

/// Whether an operand is a number with all bits 1.
fn is_full(operand: &Operand) -> bool
    ensures { result ≡ spec.is_full operand.now }
{
    match operand {
        Operand::Named(_) => false,
        Operand::Constant { width, value } => fits(*width, *value) && *value == mask(*width),
    }
}

/// Whether two operands are the same name, or the same number at the same width.
pub fn same(a: &Operand, b: &Operand) -> bool
    ensures { result ≡ spec.same_operand a.now b.now }
{
    match (a, b) {
        (Operand::Named(x), Operand::Named(y)) => x.same(y),
        (
            Operand::Constant { width, value },
            Operand::Constant {
                width: other_width,
                value: other_value,
            },
        ) => *width == *other_width && *value == *other_value,
        _ => false,
    }
}

/// An operator on a constant.
pub fn one(op: Op1, a: &Operand) -> Outcome
    ensures { result ≡ spec.fold_one op a.now }
{
    match a {
        Operand::Constant { width, value } => {
            if fits(*width, *value) {
                Outcome::Number(apply1(op, *width, *value))
            } else {
                Outcome::Keep
            }
        }
        Operand::Named(_) => Outcome::Keep,
    }
}

/// Whether a number can be the second of an operator at a width.
fn is_second(op: Op2, width: u32, value: u64) -> bool
    ensures { result ≡ spec.is_second op width value }
{
    match op {
        Op2::Shl | Op2::Shr => true,
        _ => fits(width, value),
    }
}

/// An operator on constants.
fn constants(op: Op2, a: &Operand, b: &Operand) -> Outcome
    ensures { result ≡ spec.fold_constants op a.now b.now }
{
    match (a, b) {
        (Operand::Constant { width, value }, Operand::Constant { value: second, .. }) => {
            if fits(*width, *value) && is_second(op, *width, *second) {
                Outcome::Number(apply2(op, *width, *value, *second))
            } else {
                Outcome::Keep
            }
        }
        _ => Outcome::Keep,
    }
}

fn and(a: &Operand, b: &Operand) -> Outcome
    ensures { result ≡ spec.fold_and a.now b.now }
{
    if is(b, 0) || is_full(a) {
        Outcome::Second
    } else if is(a, 0) || is_full(b) || same(a, b) {
        Outcome::First
    } else {
        Outcome::Keep
    }
}

fn or(a: &Operand, b: &Operand) -> Outcome
    ensures { result ≡ spec.fold_or a.now b.now }
{
    if is(b, 0) || is_full(a) || same(a, b) {
        Outcome::First
    } else if is(a, 0) || is_full(b) {
        Outcome::Second
    } else {
        Outcome::Keep
    }
}

fn xor(a: &Operand, b: &Operand) -> Outcome
    ensures { result ≡ spec.fold_xor a.now b.now }
{
    if is(b, 0) {
        Outcome::First
    } else if is(a, 0) {
        Outcome::Second
    } else if same(a, b) {
        Outcome::Number(0)
    } else {
        Outcome::Keep
    }
}

fn add(a: &Operand, b: &Operand) -> Outcome
    ensures { result ≡ spec.fold_add a.now b.now }
{
    if is(b, 0) {
        Outcome::First
    } else if is(a, 0) {
        Outcome::Second
    } else {
        Outcome::Keep
    }
}

fn sub(a: &Operand, b: &Operand) -> Outcome
    ensures { result ≡ spec.fold_sub a.now b.now }
{
    if is(b, 0) {
        Outcome::First
    } else if same(a, b) {
        Outcome::Number(0)
    } else {
        Outcome::Keep
    }
}

fn mul(a: &Operand, b: &Operand) -> Outcome
    ensures { result ≡ spec.fold_mul a.now b.now }
{
    if is(b, 0) || is(a, 1) {
        Outcome::Second
    } else if is(a, 0) || is(b, 1) {
        Outcome::First
    } else {
        Outcome::Keep
    }
}

/// Operands that are the same, or a bit and a number.
fn equal(a: &Operand, b: &Operand) -> Outcome
    ensures { result ≡ spec.fold_equal a.now b.now }
{
    if same(a, b) {
        Outcome::Number(1)
    } else if is_bit(b, 1) {
        Outcome::First
    } else if is_bit(a, 1) {
        Outcome::Second
    } else if is_bit(b, 0) {
        Outcome::NotFirst
    } else if is_bit(a, 0) {
        Outcome::NotSecond
    } else {
        Outcome::Keep
    }
}

/// Operands that are the same, or a bit and a number.
fn unequal(a: &Operand, b: &Operand) -> Outcome
    ensures { result ≡ spec.fold_unequal a.now b.now }
{
    if same(a, b) {
        Outcome::Number(0)
    } else if is_bit(b, 0) {
        Outcome::First
    } else if is_bit(a, 0) {
        Outcome::Second
    } else if is_bit(b, 1) {
        Outcome::NotFirst
    } else if is_bit(a, 1) {
        Outcome::NotSecond
    } else {
        Outcome::Keep
    }
}

fn less(a: &Operand, b: &Operand) -> Outcome
    ensures { result ≡ spec.fold_less a.now b.now }
{
    if is(b, 0) || is_full(a) || same(a, b) {
        Outcome::Number(0)
    } else {
        Outcome::Keep
    }
}

fn at_most(a: &Operand, b: &Operand) -> Outcome
    ensures { result ≡ spec.fold_at_most a.now b.now }
{
    if is(a, 0) || is_full(b) || same(a, b) {
        Outcome::Number(1)
    } else {
        Outcome::Keep
    }
}

/// A shift at a width, by a constant: by 0, or by the width or more.
fn shift(width: u32, a: &Operand, b: &Operand) -> Outcome
    ensures { result ≡ spec.fold_shift width a.now b.now }
{
    match b {
        Operand::Named(_) => {
            if is(a, 0) {
                Outcome::First
            } else {
                Outcome::Keep
            }
        }
        Operand::Constant { value, .. } => {
            if *value == 0 || is(a, 0) {
                Outcome::First
            } else if u64::from(width) <= *value {
                Outcome::Number(0)
            } else {
                Outcome::Keep
            }
        }
    }
}

/// An operator on two operands, that gives a number of this width.
pub fn two(width: u32, op: Op2, a: &Operand, b: &Operand) -> Outcome
    ensures { result ≡ spec.fold_two width op a.now b.now }
{
    let rest = match op {
        Op2::Add => add(a, b),
        Op2::Sub => sub(a, b),
        Op2::Mul => mul(a, b),
        Op2::And => and(a, b),
        Op2::Or => or(a, b),
        Op2::Xor => xor(a, b),
        Op2::Eq => equal(a, b),
        Op2::Ne => unequal(a, b),
        Op2::Lt => less(a, b),
        Op2::Le => at_most(a, b),
        Op2::Shl | Op2::Shr => shift(width, a, b),
    };
    constants(op, a, b).or(rest)
}

/// A choice between bits of which one is a number.
fn choose_bit(a: &Operand, b: &Operand) -> Outcome
    ensures { result ≡ spec.fold_choose_bit a.now b.now }
{
    if is(a, 1) && is(b, 0) {
        Outcome::Condition
    } else if is(a, 0) && is(b, 1) {
        Outcome::NotCondition
    } else if is(b, 0) {
        Outcome::ConditionAndFirst
    } else if is(a, 1) {
        Outcome::ConditionOrSecond
    } else {
        Outcome::Keep
    }
}

/// A choice by a constant, between equal arms, or between bits.
pub fn choose(width: u32, condition: &Operand, a: &Operand, b: &Operand) -> Outcome
    ensures { result ≡ spec.fold_choose width condition.now a.now b.now }
{
    if is(condition, 0) {
        Outcome::Second
    } else if is(condition, 1) || same(a, b) {
        Outcome::First
    } else if width == 1 {
        choose_bit(a, b)
    } else {
        Outcome::Keep
    }
}
