//! The reader of tag expressions.

ghost use Rattle.std.specs.Prelude.{◌≤◌, ◌<◌, IfOk, length};
ghost use Rattle.sap_parse.specs.Grammar as g;
ghost use Rattle.sap_parse.specs.Joining.{CollectsTags};
ghost use Rattle.sap_parse.specs.Reading.{Goes};
ghost use Rattle.sap_parse.specs.Table as s;
ghost use Rattle.sap_tree.specs.Trees.{tag_of};

use crate::choice::{TagHead, tag_head};
use crate::cursor::{Cursor, Fault};
use crate::expr::asked;
use crate::role::Role;
use sap_lex::token::Sign;
use sap_tree::syntax::TagExpr;
use sap_tree::word::Word;
use std::alloc::Global;

/// A tag expression.
#[cycle(tag)]
#[tactic(auto, using(crate::proofs::Walks::tagging))]
pub fn tag_expr(alloc: Global, tokens: &mut Cursor<'_>) -> Result<TagExpr, Fault>
    ensures goes { Goes s.texpr tokens.old result tokens.new }
    ensures tree { IfOk result (λ x. g.Texpr tokens.old (tag_of x) tokens.new) }
    ensures shorter { IfOk result (λ _. length tokens.new.left < length tokens.old.left) }
{
    match tag_head(tokens.peek()) {
        TagHead::Name => level(alloc, tokens),
        TagHead::Tag => tag(alloc, tokens),
        TagHead::Level => level_at(alloc, tokens),
        TagHead::Join => join(alloc, tokens),
        TagHead::Neither => Err(Fault::Token),
    }
}

#[tactic(auto, using(crate::proofs::Walks::binding))]
fn level(alloc: Global, tokens: &mut Cursor<'_>) -> Result<TagExpr, Fault>
    ensures goes { Goes (s.any_name Role.Inner) tokens.old result tokens.new }
    ensures tree { IfOk result (λ x. g.Texpr tokens.old (tag_of x) tokens.new) }
    ensures shorter { IfOk result (λ _. length tokens.new.left < length tokens.old.left) }
{
    let name = tokens.name(alloc, Role::Inner)?;
    Ok(TagExpr::level(name))
}

#[tactic(auto, using(crate::proofs::Walks::tag_of))]
fn tag(alloc: Global, tokens: &mut Cursor<'_>) -> Result<TagExpr, Fault>
    ensures goes { Goes s.tag_of tokens.old result tokens.new }
    ensures tree { IfOk result (λ x. g.Texpr tokens.old (tag_of x) tokens.new) }
    ensures shorter { IfOk result (λ _. length tokens.new.left < length tokens.old.left) }
{
    let (place, operand) = asked(
        alloc,
        tokens,
        Role::Inner,
        Word::Tag,
        Role::Opening,
        Role::Closing,
    )?;
    Ok(TagExpr::tag(place, Box::into_inner(operand)))
}

#[tactic(auto, using(crate::proofs::Walks::level_at))]
fn level_at(alloc: Global, tokens: &mut Cursor<'_>) -> Result<TagExpr, Fault>
    ensures goes { Goes s.level_at tokens.old result tokens.new }
    ensures tree { IfOk result (λ x. g.Texpr tokens.old (tag_of x) tokens.new) }
    ensures shorter { IfOk result (λ _. length tokens.new.left < length tokens.old.left) }
{
    let (place, operand) = asked(
        alloc,
        tokens,
        Role::Inner,
        Word::Level,
        Role::Opening,
        Role::Closing,
    )?;
    Ok(TagExpr::level_at(place, Box::into_inner(operand)))
}

#[cycle(tag)]
#[tactic(auto, using(crate::proofs::Walks::tag_join))]
fn join(alloc: Global, tokens: &mut Cursor<'_>) -> Result<TagExpr, Fault>
    ensures goes { Goes s.join tokens.old result tokens.new }
    ensures tree { IfOk result (λ x. g.Texpr tokens.old (tag_of x) tokens.new) }
    ensures shorter { IfOk result (λ _. length tokens.new.left < length tokens.old.left) }
{
    let mut parts = Vec::new(alloc);
    let place = tokens.word(Role::Inner, Word::Join)?;
    tokens.sign(Role::Opening, Sign::OpenParen)?;
    let first = tag_expr(alloc, tokens)?;
    parts.push(first)?;
    tokens.sign(Role::Inner, Sign::Comma)?;
    let second = tag_expr(alloc, tokens)?;
    parts.push(second)?;
    more_tags(alloc, tokens, &mut parts)?;
    tokens.sign(Role::Closing, Sign::CloseParen)?;
    Ok(TagExpr::join(place, parts))
}

#[cycle(tag)]
#[tactic(auto, using(crate::proofs::Walks::tag_list))]
fn more_tags(alloc: Global, tokens: &mut Cursor<'_>, parts: &mut Vec<TagExpr>) -> Result<(), Fault>
    ensures goes { Goes s.texprs tokens.old result tokens.new }
    ensures tree { IfOk result (λ _. CollectsTags tokens.old parts.old.items parts.new.items tokens.new) }
    ensures no_longer { IfOk result (λ _. length tokens.new.left ≤ length tokens.old.left) }
{
    'others: while tokens.at_sign(Sign::Comma) {
        tokens.sign(Role::Inner, Sign::Comma)?;
        let part = tag_expr(alloc, tokens)?;
        parts.push(part)?;
    }
    Ok(())
}
