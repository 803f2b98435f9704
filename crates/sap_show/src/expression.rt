//! Expressions and tag expressions.

ghost use Rattle.std.specs.Prelude.{◌≡◌, ◌++◌, ◌+◌, OnOk};
ghost use Rattle.sap_show.specs.Canonical.{operand_text, expression_text, parts_text, more_parts_text, tag_text, tags_text, more_tags_text};
ghost use Rattle.sap_tree.specs.Precedence as spec;
ghost use Rattle.sap_tree.specs.Trees.{expression_of, expressions_of, tag_of, tags_of};

use crate::words::{binary, bounds, name, sized, unary};
use sap_text::digits::push_number;
use sap_tree::syntax::{BinaryOperator, Expr, TagExpr};
use std::alloc::AllocError;

/// How tightly an operator binds.
fn precedence(operator: BinaryOperator) -> u64
    ensures { result ≡ spec.precedence operator }
{
    u64::from(operator.precedence())
}

/// How tightly an operator's right operand has to bind.
fn precedence_after(operator: BinaryOperator) -> u64
    ensures { result ≡ spec.precedence operator + 1 }
{
    u64::from(operator.precedence()) + 1
}

const UNARY: u64 = 9;

const SLICE: u64 = 10;

const PRIMARY: u64 = 11;

/// How tightly an expression binds.
#[tactic(auto, using(sap_tree::proofs::Views::views), unfolding(sap_tree::specs::Precedence::precedence_of))]
fn precedence_of(x: &Expr) -> u64
    ensures { result ≡ spec.precedence_of (expression_of x.now) }
{
    match x {
        Expr::Number(_, _) => PRIMARY,
        Expr::Sized(_, _, _) => PRIMARY,
        Expr::Read(_, _) => PRIMARY,
        Expr::Cell(_, _, _) => PRIMARY,
        Expr::Unary(_, _, _) => UNARY,
        Expr::Binary(_, operator, _, _) => precedence(*operator),
        Expr::Choose(_, _, _, _) => 0,
        Expr::Slice(_, _, _, _) => SLICE,
        Expr::Concat(_, _) => PRIMARY,
        Expr::Zext(_, _, _) => PRIMARY,
    }
}

/// An operand, in parentheses where it binds looser than asked for.
#[cycle(expression)]
#[tactic(auto, using(crate::proofs::Texts::operands))]
fn operand(out: &mut Vec<u8>, asked: u64, x: &Expr) -> Result<(), AllocError>
    ensures { OnOk result (out.new.items ≡ out.old.items ++ operand_text asked (expression_of x.now) (expression_text (expression_of x.now))) }
{
    if precedence_of(x) < asked {
        out.extend_from_slice(b"(")?;
        expression(out, x)?;
        out.extend_from_slice(b")")
    } else {
        expression(out, x)
    }
}

/// An expression.
#[cycle(expression)]
#[tactic(auto, using(sap_tree::proofs::Views::views, crate::proofs::Texts::expressions))]
pub fn expression(out: &mut Vec<u8>, x: &Expr) -> Result<(), AllocError>
    ensures { OnOk result (out.new.items ≡ out.old.items ++ expression_text (expression_of x.now)) }
{
    match x {
        Expr::Number(_, value) => push_number(out, *value),
        Expr::Sized(_, width, value) => sized(out, *width, *value),
        Expr::Read(_, register) => name(out, register),
        Expr::Cell(_, memory, index) => {
            name(out, memory)?;
            out.extend_from_slice(b"[")?;
            expression(out, index)?;
            out.extend_from_slice(b"]")
        }
        Expr::Unary(_, operator, inner) => {
            out.extend_from_slice(unary(*operator))?;
            operand(out, UNARY, inner)
        }
        Expr::Binary(_, operator, left, right) => {
            operand(out, precedence(*operator), left)?;
            out.extend_from_slice(binary(*operator))?;
            operand(out, precedence_after(*operator), right)
        }
        Expr::Choose(_, condition, one, other) => {
            operand(out, 1, condition)?;
            out.extend_from_slice(b" ? ")?;
            expression(out, one)?;
            out.extend_from_slice(b" : ")?;
            expression(out, other)
        }
        Expr::Slice(_, inner, high, low) => {
            operand(out, SLICE, inner)?;
            bounds(out, *high, *low)
        }
        Expr::Concat(_, inner) => {
            out.extend_from_slice(b"{")?;
            parts(out, inner.as_slice())?;
            out.extend_from_slice(b"}")
        }
        Expr::Zext(_, inner, width) => {
            out.extend_from_slice(b"zext(")?;
            expression(out, inner)?;
            out.extend_from_slice(b", ")?;
            push_number(out, *width)?;
            out.extend_from_slice(b")")
        }
    }
}

/// Parts with commas between them.
#[cycle(expression)]
#[tactic(auto, using(sap_tree::proofs::Views::views, crate::proofs::Texts::parts))]
pub fn parts(out: &mut Vec<u8>, list: &[Expr]) -> Result<(), AllocError>
    ensures { OnOk result (out.new.items ≡ out.old.items ++ parts_text (expressions_of list.now)) }
{
    match list {
        [first, rest @ ..] => {
            expression(out, first)?;
            more_parts(out, rest)
        }
        [] => Ok(()),
    }
}

/// Further parts, each behind a comma.
#[cycle(expression)]
#[tactic(auto, using(sap_tree::proofs::Views::views, crate::proofs::Texts::parts))]
fn more_parts(out: &mut Vec<u8>, list: &[Expr]) -> Result<(), AllocError>
    ensures { OnOk result (out.new.items ≡ out.old.items ++ more_parts_text (expressions_of list.now)) }
{
    match list {
        [first, rest @ ..] => {
            out.extend_from_slice(b", ")?;
            expression(out, first)?;
            more_parts(out, rest)
        }
        [] => Ok(()),
    }
}

/// An expression between two texts.
pub fn between(out: &mut Vec<u8>, front: &[u8], x: &Expr, behind: &[u8]) -> Result<(), AllocError>
    ensures { OnOk result (out.new.items ≡ out.old.items ++ (front.now ++ (expression_text (expression_of x.now) ++ behind.now))) }
{
    out.extend_from_slice(front)?;
    expression(out, x)?;
    out.extend_from_slice(behind)
}

/// A tag expression.
#[cycle(tag)]
#[tactic(auto, using(sap_tree::proofs::Views::views, crate::proofs::Texts::tags))]
pub fn tag(out: &mut Vec<u8>, x: &TagExpr) -> Result<(), AllocError>
    ensures { OnOk result (out.new.items ≡ out.old.items ++ tag_text (tag_of x.now)) }
{
    match x {
        TagExpr::Level(level) => name(out, &level.name),
        TagExpr::TagOf(_, inner) => between(out, b"tag(", inner, b")"),
        TagExpr::LevelAt(_, inner) => between(out, b"level(", inner, b")"),
        TagExpr::Join(_, inner) => {
            out.extend_from_slice(b"join(")?;
            tags(out, inner.as_slice())?;
            out.extend_from_slice(b")")
        }
    }
}

/// Tag expressions with commas between them.
#[cycle(tag)]
#[tactic(auto, using(sap_tree::proofs::Views::views, crate::proofs::Texts::tag_lists))]
fn tags(out: &mut Vec<u8>, list: &[TagExpr]) -> Result<(), AllocError>
    ensures { OnOk result (out.new.items ≡ out.old.items ++ tags_text (tags_of list.now)) }
{
    match list {
        [first, rest @ ..] => {
            tag(out, first)?;
            more_tags(out, rest)
        }
        [] => Ok(()),
    }
}

/// Further tag expressions, each behind a comma.
#[cycle(tag)]
#[tactic(auto, using(sap_tree::proofs::Views::views, crate::proofs::Texts::tag_lists))]
fn more_tags(out: &mut Vec<u8>, list: &[TagExpr]) -> Result<(), AllocError>
    ensures { OnOk result (out.new.items ≡ out.old.items ++ more_tags_text (tags_of list.now)) }
{
    match list {
        [first, rest @ ..] => {
            out.extend_from_slice(b", ")?;
            tag(out, first)?;
            more_tags(out, rest)
        }
        [] => Ok(()),
    }
}
