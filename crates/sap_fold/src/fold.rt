//! Right sides folded by the arithmetic of their operators.

ghost use Rattle.std.specs.Prelude.{◌≡◌};
ghost use Rattle.sap_fold.specs.Folding as spec;

use crate::rules::{self, Outcome};
use sap_bits::{Op1, Op2};
use sap_net::parts::{Operand, Right};

fn of_one(width: u32, op: Op1, a: Operand, outcome: Outcome) -> Right
    ensures { result ≡ spec.of_one width op a outcome }
{
    match outcome {
        Outcome::Number(value) => Right::Copy(Operand::Constant { width, value }),
        _ => Right::One(op, a),
    }
}

fn of_two(width: u32, op: Op2, a: Operand, b: Operand, outcome: Outcome) -> Right
    ensures { result ≡ spec.of_two width op a b outcome }
{
    match outcome {
        Outcome::First => Right::Copy(a),
        Outcome::Second => Right::Copy(b),
        Outcome::Number(value) => Right::Copy(Operand::Constant { width, value }),
        Outcome::NotFirst => Right::One(Op1::Not, a),
        Outcome::NotSecond => Right::One(Op1::Not, b),
        _ => Right::Two(op, a, b),
    }
}

fn of_choose(condition: Operand, a: Operand, b: Operand, outcome: Outcome) -> Right
    ensures { result ≡ spec.of_choose condition a b outcome }
{
    match outcome {
        Outcome::Condition => Right::Copy(condition),
        Outcome::First => Right::Copy(a),
        Outcome::Second => Right::Copy(b),
        Outcome::NotCondition => Right::One(Op1::Not, condition),
        Outcome::ConditionAndFirst => Right::Two(Op2::And, condition, a),
        Outcome::ConditionOrSecond => Right::Two(Op2::Or, condition, b),
        _ => Right::Choose(condition, a, b),
    }
}

/// A right side of equal value, simpler where a rule says so.
pub fn fold(width: u32, right: Right) -> Right
    ensures { result ≡ spec.folded width right }
{
    match right {
        Right::One(op, a) => {
            let outcome = rules::one(op, &a);
            of_one(width, op, a, outcome)
        }
        Right::Two(op, a, b) => {
            let outcome = rules::two(width, op, &a, &b);
            of_two(width, op, a, b, outcome)
        }
        Right::Choose(condition, a, b) => {
            let outcome = rules::choose(width, &condition, &a, &b);
            of_choose(condition, a, b, outcome)
        }
        right => right,
    }
}

/// A right side of equal value that no rule makes simpler.
pub fn settle(width: u32, right: Right) -> Right
    ensures { result ≡ spec.settled width right }
{
    match fold(width, right) {
        Right::Copy(operand) => Right::Copy(operand),
        once => fold(width, fold(width, once)),
    }
}
