//! `&` and `|` of an operand with a wire that reads it.

ghost use Rattle.std.specs.Prelude.{◌≡◌, ℕ};
ghost use Rattle.sap_net.specs.declared.parts.Right.TheVariants as right;
ghost use Rattle.sap_fold.specs.Absorbed as spec;
ghost use Rattle.sap_fold.specs.Equals.{Equals};
ghost use Rattle.sap_fold.specs.Under.{IsBitwise};

use crate::rules::{Outcome, is, same};
use crate::under::definition;
use crate::wires::Wires;
use sap_bits::Op2;
use sap_net::parts::{Operand, Right};

/// Whether an operand is one of two.
fn is_one_of(operand: &Operand, a: &Operand, b: &Operand) -> bool
    ensures { result ≡ spec.is_one_of operand.now a.now b.now }
{
    same(a, operand) || same(b, operand)
}

/// Whether an operand is one of two, and the other is 0.
fn is_or_zero(operand: &Operand, a: &Operand, b: &Operand) -> bool
    ensures { result ≡ spec.is_or_zero operand.now a.now b.now }
{
    (same(a, operand) && is(b, 0)) || (same(b, operand) && is(a, 0))
}

/// What `&` of a wire of this right side, first, and another operand is.
fn absorbed_and(right: &Right, other: &Operand) -> Outcome
    ensures { result ≡ spec.absorbed_and right.now other.now }
{
    match right {
        Right::Two(Op2::And, a, b) if is_one_of(other, a, b) => Outcome::First,
        Right::Two(Op2::Or, a, b) if is_one_of(other, a, b) => Outcome::Second,
        _ => Outcome::Keep,
    }
}

/// What `|` of a wire of this right side, first, and another operand is.
fn absorbed_or(right: &Right, other: &Operand) -> Outcome
    ensures { result ≡ spec.absorbed_or right.now other.now }
{
    match right {
        Right::Two(Op2::Or, a, b) if is_one_of(other, a, b) => Outcome::First,
        Right::Two(Op2::And, a, b) if is_one_of(other, a, b) => Outcome::Second,
        Right::Choose(_, a, b) if is_or_zero(other, a, b) => Outcome::Second,
        _ => Outcome::Keep,
    }
}

/// What `&` or `|` of two operands is, by the right side of the first.
fn absorbed(wires: &Wires, op: Op2, a: &Operand, b: &Operand) -> Outcome
    requires { IsBitwise op }
    ensures { spec.Absorbs wires.now.list.items op a.now b.now result }
{
    match definition(wires, a) {
        Some(right) => match op {
            Op2::And => absorbed_and(right, b),
            Op2::Or => absorbed_or(right, b),
            _ => Outcome::Keep,
        },
        None => Outcome::Keep,
    }
}

/// `&` or `|` of two operands, or one of them, where the wires tell that it is no other.
pub fn absorb(wires: &Wires, op: Op2, a: Operand, b: Operand) -> Right
    requires { IsBitwise op }
    ensures { (u : ℕ) → Equals wires.now.list.items u (right.Two op a b) result }
{
    match absorbed(wires, op, &a, &b) {
        Outcome::First => return Right::Copy(a),
        Outcome::Second => return Right::Copy(b),
        _ => {}
    }
    match absorbed(wires, op, &b, &a) {
        Outcome::First => Right::Copy(b),
        Outcome::Second => Right::Copy(a),
        _ => Right::Two(op, a, b),
    }
}
