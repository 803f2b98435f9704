//! The reader of right sides.

ghost use Rattle.std.specs.Prelude.{◌≡◌, ◌≢◌, ◌<◌, IfOk, length};
ghost use Rattle.sap_vtext.specs.Grammar as g;
ghost use Rattle.sap_vparse.specs.Choices.{after_head, right_head};
ghost use Rattle.sap_vparse.specs.Parts.{Indexes, IsBehind, PartsEnd, RightEnds, right_with};
ghost use Rattle.sap_vparse.specs.Reading.{Goes, head, of_number};
ghost use Rattle.sap_vparse.specs.Table as s;
ghost use Rattle.sap_vparse.specs.Views.{operand_of, right_of};

use crate::choice::{AfterHead, RightHead, after_head, binary_sign, right_head, unary_sign};
use crate::cursor::{Cursor, Fault};
use crate::items::{Mention, Operand, Operands, Right};
use crate::operand::{operand, operand_then};
use crate::row::{CLOSE_BRACKET, COLON, COMMA, SEMICOLON, number_then};
use sap_bits::{Op1, Op2};
use sap_vlex::token::Sign;
use std::alloc::Global;

/// What stands behind the first operand of a right side.
#[derive(Drop)]
pub enum Behind {
    Nothing,
    Two(Op2, Operand),
    Choose(Operand, Operand),
}

fn joined(first: Operand, behind: Behind) -> Right
    ensures { right_of result ≡ right_with (operand_of first) behind }
{
    match behind {
        Behind::Nothing => Right::Copy(first),
        Behind::Two(op, second) => Right::Two(op, first, second),
        Behind::Choose(yes, no) => Right::Choose(first, yes, no),
    }
}

/// The sign of a binary operator.
fn binary(tokens: &mut Cursor<'_>, op: Op2) -> Result<(), Fault>
    ensures goes { Goes (s.sign (g.binary_sign op)) tokens.old result tokens.new }
    ensures tree { IfOk result (λ _. g.IsSign tokens.old (g.binary_sign op) tokens.new) }
    ensures shorter { IfOk result (λ _. length tokens.new < length tokens.old) }
{
    tokens.sign(binary_sign(op))
}

#[tactic(auto)]
fn two(alloc: Global, tokens: &mut Cursor<'_>, op: Op2) -> Result<Behind, Fault>
    requires { after_head (head tokens.old) ≡ AfterHead.Two op }
    ensures goes { Goes s.after_operand tokens.old result tokens.new }
    ensures tree { IfOk result (λ x. IsBehind tokens.old x tokens.new) }
    ensures shorter { IfOk result (λ _. length tokens.new < length tokens.old) }
{
    binary(tokens, op)?;
    let second = operand_then(alloc, tokens, &SEMICOLON)?;
    Ok(Behind::Two(op, Box::into_inner(second)))
}

#[tactic(auto, using(crate::proofs::Walks::choices))]
fn choose(alloc: Global, tokens: &mut Cursor<'_>) -> Result<Behind, Fault>
    requires { after_head (head tokens.old) ≡ AfterHead.Choose }
    ensures goes { Goes s.after_operand tokens.old result tokens.new }
    ensures tree { IfOk result (λ x. IsBehind tokens.old x tokens.new) }
    ensures shorter { IfOk result (λ _. length tokens.new < length tokens.old) }
{
    tokens.sign(Sign::Question)?;
    let yes = operand_then(alloc, tokens, &COLON)?;
    let no = operand_then(alloc, tokens, &SEMICOLON)?;
    Ok(Behind::Choose(Box::into_inner(yes), Box::into_inner(no)))
}

#[tactic(auto, using(crate::proofs::Walks::ends))]
fn end(tokens: &mut Cursor<'_>) -> Result<Behind, Fault>
    requires { after_head (head tokens.old) ≡ AfterHead.End }
    ensures goes { Goes s.after_operand tokens.old result tokens.new }
    ensures tree { IfOk result (λ x. IsBehind tokens.old x tokens.new) }
    ensures shorter { IfOk result (λ _. length tokens.new < length tokens.old) }
{
    tokens.sign(Sign::Semicolon)?;
    Ok(Behind::Nothing)
}

fn after_operand(alloc: Global, tokens: &mut Cursor<'_>) -> Result<Behind, Fault>
    ensures goes { Goes s.after_operand tokens.old result tokens.new }
    ensures tree { IfOk result (λ x. IsBehind tokens.old x tokens.new) }
    ensures shorter { IfOk result (λ _. length tokens.new < length tokens.old) }
{
    match after_head(tokens.peek()) {
        AfterHead::Two(op) => two(alloc, tokens, op),
        AfterHead::Choose => choose(alloc, tokens),
        AfterHead::End => end(tokens),
    }
}

/// The bounds of a slice of this name.
#[tactic(auto, using(crate::proofs::Walks::slices))]
fn slice(tokens: &mut Cursor<'_>, name: Mention) -> Result<Right, Fault>
    requires { head tokens.old ≡ of_number }
    ensures goes { Goes s.after_bracket tokens.old result tokens.new }
    ensures tree { IfOk result (λ x. Indexes name tokens.old (right_of x) tokens.new) }
    ensures shorter { IfOk result (λ _. length tokens.new < length tokens.old) }
{
    let high = number_then(tokens, &COLON)?;
    let low = number_then(tokens, &CLOSE_BRACKET)?;
    Ok(Right::Slice(name, high.value, low.value))
}

/// The index of this memory.
#[tactic(auto, using(crate::proofs::Walks::cells))]
fn cell(alloc: Global, tokens: &mut Cursor<'_>, name: Mention) -> Result<Right, Fault>
    requires { head tokens.old ≢ of_number }
    ensures goes { Goes s.after_bracket tokens.old result tokens.new }
    ensures tree { IfOk result (λ x. Indexes name tokens.old (right_of x) tokens.new) }
    ensures shorter { IfOk result (λ _. length tokens.new < length tokens.old) }
{
    let index = operand_then(alloc, tokens, &CLOSE_BRACKET)?;
    Ok(Right::Cell(name, Box::into_inner(index)))
}

fn indexed(alloc: Global, tokens: &mut Cursor<'_>, name: Mention) -> Result<Right, Fault>
    ensures goes { Goes s.after_bracket tokens.old result tokens.new }
    ensures tree { IfOk result (λ x. Indexes name tokens.old (right_of x) tokens.new) }
    ensures shorter { IfOk result (λ _. length tokens.new < length tokens.old) }
{
    if tokens.at_number() {
        slice(tokens, name)
    } else {
        cell(alloc, tokens, name)
    }
}

#[tactic(auto, using(crate::proofs::Walks::names))]
fn from_name(alloc: Global, tokens: &mut Cursor<'_>) -> Result<Right, Fault>
    requires { right_head (head tokens.old) ≡ RightHead.Name }
    ensures goes { Goes s.right tokens.old result tokens.new }
    ensures tree { IfOk result (λ x. RightEnds tokens.old (right_of x) tokens.new) }
    ensures shorter { IfOk result (λ _. length tokens.new < length tokens.old) }
{
    let name = tokens.name(alloc)?;
    if tokens.at_sign(Sign::OpenBracket) {
        tokens.sign(Sign::OpenBracket)?;
        return indexed(alloc, tokens, name);
    }
    let behind = after_operand(alloc, tokens)?;
    Ok(joined(Operand::Named(name), behind))
}

#[tactic(auto, using(crate::proofs::Walks::constants))]
fn from_constant(alloc: Global, tokens: &mut Cursor<'_>) -> Result<Right, Fault>
    requires { right_head (head tokens.old) ≡ RightHead.Constant }
    ensures goes { Goes s.right tokens.old result tokens.new }
    ensures tree { IfOk result (λ x. RightEnds tokens.old (right_of x) tokens.new) }
    ensures shorter { IfOk result (λ _. length tokens.new < length tokens.old) }
{
    let constant = tokens.constant()?;
    let behind = after_operand(alloc, tokens)?;
    Ok(joined(Operand::Constant(constant), behind))
}

/// The sign of a unary operator.
fn unary(tokens: &mut Cursor<'_>, op: Op1) -> Result<(), Fault>
    ensures goes { Goes (s.sign (g.unary_sign op)) tokens.old result tokens.new }
    ensures tree { IfOk result (λ _. g.IsSign tokens.old (g.unary_sign op) tokens.new) }
    ensures shorter { IfOk result (λ _. length tokens.new < length tokens.old) }
{
    tokens.sign(unary_sign(op))
}

#[tactic(auto)]
fn one(alloc: Global, tokens: &mut Cursor<'_>, op: Op1) -> Result<Right, Fault>
    requires { right_head (head tokens.old) ≡ RightHead.One op }
    ensures goes { Goes s.right tokens.old result tokens.new }
    ensures tree { IfOk result (λ x. RightEnds tokens.old (right_of x) tokens.new) }
    ensures shorter { IfOk result (λ _. length tokens.new < length tokens.old) }
{
    unary(tokens, op)?;
    let operand = operand_then(alloc, tokens, &SEMICOLON)?;
    Ok(Right::One(op, Box::into_inner(operand)))
}

/// Adds the operands that come next, and takes `}`.
#[tactic(auto, using(crate::proofs::Walks::part_list))]
fn parts(alloc: Global, tokens: &mut Cursor<'_>, list: &mut Vec<Operand>) -> Result<(), Fault>
    ensures goes { Goes s.parts tokens.old result tokens.new }
    ensures tree { IfOk result (λ _. PartsEnd tokens.old list.old.items list.new.items tokens.new) }
    ensures shorter { IfOk result (λ _. length tokens.new < length tokens.old) }
{
    'parts: while tokens.at_sign(Sign::Comma) {
        tokens.sign(Sign::Comma)?;
        let next = operand(alloc, tokens)?;
        list.push(Box::into_inner(next))?;
    }
    tokens.sign(Sign::CloseBrace)
}

#[tactic(auto, using(crate::proofs::Walks::braces))]
fn concat(alloc: Global, tokens: &mut Cursor<'_>) -> Result<Right, Fault>
    requires { right_head (head tokens.old) ≡ RightHead.Concat }
    ensures goes { Goes s.right tokens.old result tokens.new }
    ensures tree { IfOk result (λ x. RightEnds tokens.old (right_of x) tokens.new) }
    ensures shorter { IfOk result (λ _. length tokens.new < length tokens.old) }
{
    tokens.sign(Sign::OpenBrace)?;
    let first = operand_then(alloc, tokens, &COMMA)?;
    let second = operand(alloc, tokens)?;
    let mut list = Vec::new(alloc);
    list.push(Box::into_inner(first))?;
    list.push(Box::into_inner(second))?;
    parts(alloc, tokens, &mut list)?;
    tokens.sign(Sign::Semicolon)?;
    Ok(Right::Concat(Operands::new(list)))
}

/// A right side, and `;`.
pub fn right(alloc: Global, tokens: &mut Cursor<'_>) -> Result<Right, Fault>
    ensures goes { Goes s.right tokens.old result tokens.new }
    ensures tree { IfOk result (λ x. RightEnds tokens.old (right_of x) tokens.new) }
    ensures shorter { IfOk result (λ _. length tokens.new < length tokens.old) }
{
    match right_head(tokens.peek()) {
        RightHead::One(op) => one(alloc, tokens, op),
        RightHead::Concat => concat(alloc, tokens),
        RightHead::Name => from_name(alloc, tokens),
        RightHead::Constant => from_constant(alloc, tokens),
    }
}
