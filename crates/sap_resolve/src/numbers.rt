//! Expressions with numbers for names and a width for each number.

ghost use Rattle.std.specs.Prelude.{◌≡◌, IfOk};
ghost use Rattle.sap_resolved.specs.Terms as terms;
ghost use Rattle.sap_program.specs.Views.{term_of};
ghost use Rattle.sap_tree.specs.Trees.{expression_of, expressions_of};

use crate::names::entity_number;
use sap_bits::{Op1, Op2};
use sap_names::table::Names;
use sap_names::width::{asked_left, asked_one, asked_right, else_of, family, index_width};
use sap_program::program::Number;
use sap_tree::syntax::{BinaryOperator, Expr, UnaryOperator};
use std::alloc::{AllocError, Global};

fn known(width: Option<u64>) -> u64
    ensures { result ≡ terms.known width }
{
    match width {
        Some(w) => w,
        None => 0,
    }
}

fn one_of(operator: UnaryOperator) -> Op1
    ensures { result ≡ terms.one_of operator }
{
    match operator {
        UnaryOperator::Not => Op1::Not,
        UnaryOperator::Neg => Op1::Neg,
        UnaryOperator::AllOnes => Op1::AllOnes,
        UnaryOperator::AnyOne => Op1::AnyOne,
        UnaryOperator::Odd => Op1::Odd,
    }
}

fn two_of(operator: BinaryOperator) -> Op2
    ensures { result ≡ terms.two_of operator }
{
    match operator {
        BinaryOperator::Or => Op2::Or,
        BinaryOperator::Xor => Op2::Xor,
        BinaryOperator::And => Op2::And,
        BinaryOperator::Eq => Op2::Eq,
        BinaryOperator::Ne => Op2::Ne,
        BinaryOperator::Lt => Op2::Lt,
        BinaryOperator::Le => Op2::Le,
        BinaryOperator::Shl => Op2::Shl,
        BinaryOperator::Shr => Op2::Shr,
        BinaryOperator::Add => Op2::Add,
        BinaryOperator::Sub => Op2::Sub,
        BinaryOperator::Mul => Op2::Mul,
    }
}

/// Filled with zeros in front, from one width to another.
fn widened(alloc: Global, from: u64, width: u64, inner: Number) -> Result<Number, AllocError>
    ensures { IfOk result (λ n. term_of n ≡ terms.widened from width (term_of inner)) }
{
    if from == width {
        return Ok(inner);
    }
    let zeros = Number::Constant {
        width: width.saturating_sub(from),
        value: 0,
    };
    Number::join(alloc, zeros, inner)
}

/// An expression where its place asks for a width, or for none. The names are those of its design.
#[cycle(number)]
#[tactic(auto, using(sap_tree::proofs::Views::views))]
pub fn number(
    alloc: Global,
    names: &Names,
    e: &Expr,
    asked: Option<u64>,
) -> Result<Number, AllocError>
    ensures { IfOk result (λ n. term_of n ≡ terms.term_of names.now (expression_of e.now) asked) }
{
    match e {
        Expr::Number(_, value) => Ok(Number::Constant {
            width: known(asked),
            value: *value,
        }),
        Expr::Sized(_, width, value) => Ok(Number::Constant {
            width: *width,
            value: *value,
        }),
        Expr::Read(_, name) => Ok(Number::Read(entity_number(names, name))),
        Expr::Cell(_, name, index) => {
            let at = number(alloc, names, index, index_width(names.look(name)))?;
            Number::cell(alloc, entity_number(names, name), at)
        }
        Expr::Unary(_, operator, operand) => {
            let whole = else_of(names.own_width(e), asked);
            let a = number(alloc, names, operand, asked_one(*operator, whole))?;
            Number::one(alloc, one_of(*operator), a)
        }
        Expr::Binary(_, operator, left, right) => {
            let whole = else_of(names.own_width(e), asked);
            let one = names.own_width(left);
            let other = names.own_width(right);
            let kind = family(*operator);
            let a = number(alloc, names, left, asked_left(kind, whole, one, other))?;
            let b = number(alloc, names, right, asked_right(kind, whole, one, other))?;
            Number::two(alloc, two_of(*operator), a, b)
        }
        Expr::Choose(_, condition, one, other) => {
            let whole = else_of(names.own_width(e), asked);
            let test = number(alloc, names, condition, Some(1))?;
            let yes = number(alloc, names, one, whole)?;
            let no = number(alloc, names, other, whole)?;
            Number::choose(alloc, test, yes, no)
        }
        Expr::Slice(_, operand, high, low) => {
            let of = number(alloc, names, operand, None)?;
            Number::part(alloc, of, *high, *low)
        }
        Expr::Concat(_, parts) => joined(alloc, names, parts),
        Expr::Zext(_, operand, width) => {
            let inner = number(alloc, names, operand, None)?;
            widened(alloc, known(names.own_width(operand)), *width, inner)
        }
    }
}

/// Parts one in front of the other.
#[cycle(number)]
#[tactic(auto, using(sap_tree::proofs::Views::views))]
fn joined(alloc: Global, names: &Names, parts: &[Expr]) -> Result<Number, AllocError>
    ensures { IfOk result (λ n. term_of n ≡ terms.parts_of names.now (expressions_of parts.now)) }
{
    match parts {
        [] => Ok(Number::Constant { width: 0, value: 0 }),
        [only] => number(alloc, names, only, None),
        [first, rest @ ..] => {
            let front = number(alloc, names, first, None)?;
            let back = joined(alloc, names, rest)?;
            Number::join(alloc, front, back)
        }
    }
}
