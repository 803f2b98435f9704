//! The reader of expressions.

ghost use Rattle.std.specs.Prelude.{◌≡◌, ◌≢◌, ◌≤◌, ◌<◌, IfOk, length};
ghost use Rattle.sap_parse.specs.Grammar as g;
ghost use Rattle.sap_parse.specs.Joining.{Collects, Indexes, Slices};
ghost use Rattle.sap_parse.specs.Reading.{Goes, ahead, second};
ghost use Rattle.sap_parse.specs.Rows.{Asked, Between, LastNumber, Range, RowGoes, asked_row, between_row, last_number_row, range_row};
ghost use Rattle.sap_parse.specs.Stages.{here};
ghost use Rattle.sap_parse.specs.Table as s;
ghost use Rattle.sap_tree.specs.Syntax as t;
ghost use Rattle.sap_tree.specs.Trees.{expression_of};

use crate::choice::{Primary, operator_at, primary_of, sign_of, unary_at, unary_sign_of};
use crate::cursor::{Ahead, Cursor, Fault};
use crate::role::Role;
use sap_lex::token::Sign;
use sap_tree::name::Mention;
use sap_tree::place::{Place, Spot};
use sap_tree::syntax::Expr;
use sap_tree::word::Word;
use std::alloc::Global;

pub(crate) fn spot(place: Place) -> Spot
    ensures { result ≡ record { first = place; at = place } }
{
    Spot {
        first: place,
        at: place,
    }
}

/// The bounds of a slice.
#[derive(Clone, Copy)]
struct Cut {
    place: Place,
    high: u64,
    low: u64,
}

/// A number, and the sign that closes the brackets around it.
#[tactic(auto, using(crate::proofs::Walks::enclosing))]
fn last_number(tokens: &mut Cursor<'_>, right: Sign) -> Result<u64, Fault>
    ensures goes { RowGoes (last_number_row right) tokens.old result tokens.new }
    ensures tree { IfOk result (λ n. LastNumber right tokens.old n tokens.new) }
    ensures shorter { IfOk result (λ _. length tokens.new.left < length tokens.old.left) }
{
    let n = tokens.number(Role::Inner)?;
    tokens.sign(Role::Closing, right)?;
    Ok(n.value)
}

/// The bounds of a slice, and the `]` behind them.
#[tactic(auto, using(crate::proofs::Walks::ranging))]
fn range(tokens: &mut Cursor<'_>) -> Result<(u64, u64), Fault>
    ensures goes { RowGoes range_row tokens.old result tokens.new }
    ensures tree { IfOk result (λ b. Range tokens.old b.0 b.1 tokens.new) }
    ensures shorter { IfOk result (λ _. length tokens.new.left < length tokens.old.left) }
{
    let high = tokens.number(Role::Inner)?;
    tokens.sign(Role::Inner, Sign::Colon)?;
    let low = last_number(tokens, Sign::CloseBracket)?;
    Ok((high.value, low))
}

#[tactic(auto, using(crate::proofs::Walks::bounding))]
fn bounds(tokens: &mut Cursor<'_>) -> Result<Cut, Fault>
    ensures goes { Goes s.slice tokens.old result tokens.new }
    ensures tree { IfOk result (λ b. g.Bounds tokens.old b.high b.low tokens.new) }
    ensures place { IfOk result (λ b. b.place ≡ here tokens.old) }
    ensures shorter { IfOk result (λ _. length tokens.new.left < length tokens.old.left) }
{
    let place = tokens.sign(Role::Opening, Sign::OpenBracket)?;
    let (high, low) = range(tokens)?;
    Ok(Cut { place, high, low })
}

/// The slices that follow an expression.
#[tactic(auto, using(crate::proofs::Walks::cutting))]
fn slices(alloc: Global, tokens: &mut Cursor<'_>, operand: Expr) -> Result<Expr, Fault>
    ensures goes { Goes s.slices tokens.old result tokens.new }
    ensures tree { IfOk result (λ x. g.Cuts (expression_of operand) tokens.old (expression_of x) tokens.new) }
    ensures no_longer { IfOk result (λ _. length tokens.new.left ≤ length tokens.old.left) }
{
    let mut all = Box::new(alloc, operand)?;
    'cuts: while tokens.at_sign(Sign::OpenBracket) {
        let cut = bounds(tokens)?;
        let spot = Spot {
            first: all.first(),
            at: cut.place,
        };
        let slice = Expr::slice(spot, all, cut.high, cut.low);
        all = Box::new(alloc, slice)?;
    }
    Ok(Box::into_inner(all))
}

#[tactic(auto, using(crate::proofs::Walks::binding))]
fn numeral(tokens: &mut Cursor<'_>) -> Result<Expr, Fault>
    ensures goes { Goes (s.number Role.Inner) tokens.old result tokens.new }
    ensures tree { IfOk result (λ x. g.Prim tokens.old (expression_of x) tokens.new) }
    ensures shorter { IfOk result (λ _. length tokens.new.left < length tokens.old.left) }
{
    let n = tokens.number(Role::Inner)?;
    Ok(Expr::number(spot(n.place), n.value))
}

#[tactic(auto, using(crate::proofs::Walks::binding))]
fn sized(tokens: &mut Cursor<'_>) -> Result<Expr, Fault>
    ensures goes { Goes (s.sized Role.Inner) tokens.old result tokens.new }
    ensures tree { IfOk result (λ x. g.Prim tokens.old (expression_of x) tokens.new) }
    ensures shorter { IfOk result (λ _. length tokens.new.left < length tokens.old.left) }
{
    let place = tokens.here();
    let (width, value) = tokens.sized(Role::Inner)?;
    Ok(Expr::sized(spot(place), width, value))
}

/// An expression.
#[cycle(expr)]
#[tactic(auto, using(crate::proofs::Walks::choosing))]
pub fn expr(alloc: Global, tokens: &mut Cursor<'_>) -> Result<Expr, Fault>
    ensures goes { Goes s.expr tokens.old result tokens.new }
    ensures tree { IfOk result (λ x. g.Expr tokens.old (expression_of x) tokens.new) }
    ensures shorter { IfOk result (λ _. length tokens.new.left < length tokens.old.left) }
{
    let first = bin(alloc, tokens, 1)?;
    let condition = Box::new(alloc, first)?;
    if !tokens.at_sign(Sign::Question) {
        return Ok(Box::into_inner(condition));
    }
    let (place, one) = between(
        alloc,
        tokens,
        Role::Inner,
        Sign::Question,
        Role::Inner,
        Sign::Colon,
    )?;
    let other = expr(alloc, tokens)?;
    let spot = Spot {
        first: condition.first(),
        at: place,
    };
    Ok(Expr::choose(alloc, spot, condition, one, other)?)
}

/// Operands joined by operators that bind as tightly as `level` says, or tighter.
#[cycle(expr)]
#[tactic(auto, using(crate::proofs::Walks::joining))]
fn bin(alloc: Global, tokens: &mut Cursor<'_>, level: u32) -> Result<Expr, Fault>
    requires { level ≤ 9 }
    ensures goes { Goes (s.bin level) tokens.old result tokens.new }
    ensures tree { IfOk result (λ x. g.Bin level tokens.old (expression_of x) tokens.new) }
    ensures shorter { IfOk result (λ _. length tokens.new.left < length tokens.old.left) }
{
    if level == 9 {
        return unary(alloc, tokens);
    }
    let first = bin(alloc, tokens, level + 1)?;
    let mut left = Box::new(alloc, first)?;
    'operators: while let Some(operator) = operator_at(level, tokens.peek()) {
        let place = tokens.sign(Role::Inner, sign_of(operator))?;
        let right = bin(alloc, tokens, level + 1)?;
        let spot = Spot {
            first: left.first(),
            at: place,
        };
        let all = Expr::binary(alloc, spot, operator, left, right)?;
        left = Box::new(alloc, all)?;
    }
    Ok(Box::into_inner(left))
}

#[cycle(expr)]
#[tactic(auto, using(crate::proofs::Walks::signing))]
fn unary(alloc: Global, tokens: &mut Cursor<'_>) -> Result<Expr, Fault>
    ensures goes { Goes s.unary tokens.old result tokens.new }
    ensures tree { IfOk result (λ x. g.Unary tokens.old (expression_of x) tokens.new) }
    ensures shorter { IfOk result (λ _. length tokens.new.left < length tokens.old.left) }
{
    match unary_at(tokens.peek()) {
        Some(operator) => {
            let place = tokens.sign(Role::Inner, unary_sign_of(operator))?;
            let operand = unary(alloc, tokens)?;
            Ok(Expr::unary(alloc, spot(place), operator, operand)?)
        }
        None => post(alloc, tokens),
    }
}

#[cycle(expr)]
#[tactic(auto, using(crate::proofs::Walks::posting))]
fn post(alloc: Global, tokens: &mut Cursor<'_>) -> Result<Expr, Fault>
    ensures goes { Goes s.post tokens.old result tokens.new }
    ensures tree { IfOk result (λ x. g.Post tokens.old (expression_of x) tokens.new) }
    ensures shorter { IfOk result (λ _. length tokens.new.left < length tokens.old.left) }
{
    if tokens.at_name() {
        named(alloc, tokens)
    } else {
        let first = prim(alloc, tokens)?;
        slices(alloc, tokens, first)
    }
}

/// An operand that begins with a name, and slices of it.
#[cycle(expr)]
#[tactic(auto, using(crate::proofs::Walks::naming))]
fn named(alloc: Global, tokens: &mut Cursor<'_>) -> Result<Expr, Fault>
    requires { ahead tokens.old.left ≡ Ahead.Name }
    ensures goes { Goes s.post tokens.old result tokens.new }
    ensures tree { IfOk result (λ x. g.Post tokens.old (expression_of x) tokens.new) }
    ensures shorter { IfOk result (λ _. length tokens.new.left < length tokens.old.left) }
{
    let name = tokens.name(alloc, Role::Inner)?;
    if !tokens.at_sign(Sign::OpenBracket) {
        return Ok(Expr::read(spot(name.place), name.name));
    }
    let place = tokens.sign(Role::Opening, Sign::OpenBracket)?;
    if tokens.at_slice() {
        slice(alloc, tokens, name, place)
    } else {
        cell(alloc, tokens, name)
    }
}

/// What comes behind a name and the `[` of a slice.
#[tactic(auto, using(crate::proofs::Walks::slicing))]
fn slice(alloc: Global, tokens: &mut Cursor<'_>, name: Mention, place: Place) -> Result<Expr, Fault>
    requires number { ahead tokens.old.left ≡ Ahead.Number }
    requires colon { second tokens.old.left ≡ Ahead.Sign Sign.Colon }
    ensures goes { Goes s.behind_bracket tokens.old result tokens.new }
    ensures tree { IfOk result (λ x. Slices (record { first = name.place; at = place }) (t.variable (record { first = name.place; at = name.place }) name.name) tokens.old (expression_of x) tokens.new) }
    ensures shorter { IfOk result (λ _. length tokens.new.left < length tokens.old.left) }
{
    let (high, low) = range(tokens)?;
    let at = Spot {
        first: name.place,
        at: place,
    };
    let operand = Box::new(alloc, Expr::read(spot(name.place), name.name))?;
    slices(alloc, tokens, Expr::slice(at, operand, high, low))
}

/// What comes behind a name and the `[` of an index.
#[cycle(expr)]
#[tactic(auto, using(crate::proofs::Walks::indexing))]
fn cell(alloc: Global, tokens: &mut Cursor<'_>, name: Mention) -> Result<Expr, Fault>
    requires { ahead tokens.old.left ≡ Ahead.Number → second tokens.old.left ≢ Ahead.Sign Sign.Colon }
    ensures goes { Goes s.behind_bracket tokens.old result tokens.new }
    ensures tree { IfOk result (λ x. Indexes (record { first = name.place; at = name.place }) name.name tokens.old (expression_of x) tokens.new) }
    ensures shorter { IfOk result (λ _. length tokens.new.left < length tokens.old.left) }
{
    let index = expr(alloc, tokens)?;
    let index = Box::new(alloc, index)?;
    tokens.sign(Role::Closing, Sign::CloseBracket)?;
    slices(
        alloc,
        tokens,
        Expr::cell(spot(name.place), name.name, index),
    )
}

/// An operand that begins with no name.
#[cycle(expr)]
#[tactic(auto, using(crate::proofs::Walks::primary))]
fn prim(alloc: Global, tokens: &mut Cursor<'_>) -> Result<Expr, Fault>
    ensures goes { Goes s.prim tokens.old result tokens.new }
    ensures tree { IfOk result (λ x. g.Prim tokens.old (expression_of x) tokens.new) }
    ensures shorter { IfOk result (λ _. length tokens.new.left < length tokens.old.left) }
{
    match primary_of(tokens.peek()) {
        Primary::Number => numeral(tokens),
        Primary::Sized => sized(tokens),
        Primary::Paren => paren(alloc, tokens),
        Primary::Braces => braces(alloc, tokens),
        Primary::Zext => zext(alloc, tokens),
        Primary::Neither => Err(Fault::Token),
    }
}

/// An expression between two signs, and the place of the first.
#[cycle(expr)]
#[tactic(auto, using(crate::proofs::Walks::enclosing))]
pub fn between(
    alloc: Global,
    tokens: &mut Cursor<'_>,
    opening: Role,
    left: Sign,
    closing: Role,
    right: Sign,
) -> Result<(Place, Box<Expr>), Fault>
    ensures goes { RowGoes (between_row opening left closing right) tokens.old result tokens.new }
    ensures tree { IfOk result (λ x. Between opening left closing right tokens.old (expression_of x.1.value) tokens.new) }
    ensures place { IfOk result (λ x. x.0 ≡ here tokens.old) }
    ensures shorter { IfOk result (λ _. length tokens.new.left < length tokens.old.left) }
{
    let place = tokens.sign(opening, left)?;
    let inner = expr(alloc, tokens)?;
    let inner = Box::new(alloc, inner)?;
    tokens.sign(closing, right)?;
    Ok((place, inner))
}

/// A word and an expression in parentheses, and the place of the word.
#[tactic(auto, using(crate::proofs::Walks::asking))]
pub fn asked(
    alloc: Global,
    tokens: &mut Cursor<'_>,
    role: Role,
    word: Word,
    opening: Role,
    closing: Role,
) -> Result<(Place, Box<Expr>), Fault>
    ensures goes { RowGoes (asked_row role word opening closing) tokens.old result tokens.new }
    ensures tree { IfOk result (λ x. Asked role word opening closing tokens.old (expression_of x.1.value) tokens.new) }
    ensures place { IfOk result (λ x. x.0 ≡ here tokens.old) }
    ensures shorter { IfOk result (λ _. length tokens.new.left < length tokens.old.left) }
{
    let place = tokens.word(role, word)?;
    let (_, inner) = between(
        alloc,
        tokens,
        opening,
        Sign::OpenParen,
        closing,
        Sign::CloseParen,
    )?;
    Ok((place, inner))
}

#[cycle(expr)]
#[tactic(auto, using(crate::proofs::Walks::wrapping))]
fn paren(alloc: Global, tokens: &mut Cursor<'_>) -> Result<Expr, Fault>
    ensures goes { Goes s.paren tokens.old result tokens.new }
    ensures tree { IfOk result (λ x. g.Prim tokens.old (expression_of x) tokens.new) }
    ensures shorter { IfOk result (λ _. length tokens.new.left < length tokens.old.left) }
{
    let (place, inner) = between(
        alloc,
        tokens,
        Role::Opening,
        Sign::OpenParen,
        Role::Closing,
        Sign::CloseParen,
    )?;
    Ok(Box::into_inner(inner).enclosed(place))
}

#[cycle(expr)]
#[tactic(auto, using(crate::proofs::Walks::bracing))]
fn braces(alloc: Global, tokens: &mut Cursor<'_>) -> Result<Expr, Fault>
    ensures goes { Goes s.braces tokens.old result tokens.new }
    ensures tree { IfOk result (λ x. g.Prim tokens.old (expression_of x) tokens.new) }
    ensures shorter { IfOk result (λ _. length tokens.new.left < length tokens.old.left) }
{
    let (place, first) = between(
        alloc,
        tokens,
        Role::Opening,
        Sign::OpenBrace,
        Role::Inner,
        Sign::Comma,
    )?;
    let mut parts = Vec::new(alloc);
    parts.push(Box::into_inner(first))?;
    let second = expr(alloc, tokens)?;
    parts.push(second)?;
    more_parts(alloc, tokens, &mut parts)?;
    tokens.sign(Role::Closing, Sign::CloseBrace)?;
    Ok(Expr::concat(spot(place), parts))
}

#[cycle(expr)]
#[tactic(auto, using(crate::proofs::Walks::listing))]
fn more_parts(alloc: Global, tokens: &mut Cursor<'_>, parts: &mut Vec<Expr>) -> Result<(), Fault>
    ensures goes { Goes s.parts tokens.old result tokens.new }
    ensures tree { IfOk result (λ _. Collects tokens.old parts.old.items parts.new.items tokens.new) }
    ensures no_longer { IfOk result (λ _. length tokens.new.left ≤ length tokens.old.left) }
{
    'others: while tokens.at_sign(Sign::Comma) {
        tokens.sign(Role::Inner, Sign::Comma)?;
        let part = expr(alloc, tokens)?;
        parts.push(part)?;
    }
    Ok(())
}

#[cycle(expr)]
#[tactic(auto, using(crate::proofs::Walks::extending))]
fn zext(alloc: Global, tokens: &mut Cursor<'_>) -> Result<Expr, Fault>
    ensures goes { Goes s.zext tokens.old result tokens.new }
    ensures tree { IfOk result (λ x. g.Prim tokens.old (expression_of x) tokens.new) }
    ensures shorter { IfOk result (λ _. length tokens.new.left < length tokens.old.left) }
{
    let place = tokens.word(Role::Inner, Word::Zext)?;
    let (_, operand) = between(
        alloc,
        tokens,
        Role::Opening,
        Sign::OpenParen,
        Role::Inner,
        Sign::Comma,
    )?;
    let width = last_number(tokens, Sign::CloseParen)?;
    Ok(Expr::zext(spot(place), operand, width))
}
