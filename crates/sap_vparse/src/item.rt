//! The reader of items.

ghost use Rattle.std.specs.Prelude.{◌≡◌, ◌≢◌, ◌<◌, IfOk, length};
ghost use Rattle.sap_vtext.specs.Grammar.{IsItem, IsLoop};
ghost use Rattle.sap_vparse.specs.Choices.{item_head};
ghost use Rattle.sap_vparse.specs.Parts.{AfterClock, AfterInitial, RegisterEnds, register_with};
ghost use Rattle.sap_vparse.specs.Reading.{Goes, head, of_name};
ghost use Rattle.sap_vparse.specs.Table as s;
ghost use Rattle.sap_vparse.specs.Views.{item_of, mention_of, number_of};

use crate::choice::{ItemHead, item_head};
use crate::cursor::{Cursor, Fault};
use crate::items::{Item, Mention, Number};
use crate::operand::operand_then;
use crate::port::range;
use crate::right::right;
use crate::row::{
    AT_I, BECOMES, CELL_BECOMES, CLOCKED, CLOSE_BRACKET, CLOSE_PAREN, CONDITION, FROM_ZERO,
    INTEGER, IS, LOOP, OPEN_BRACKET, SEMICOLON, START, STEP, constant_then, name_then, number_then,
    row,
};
use sap_vlex::token::{Sign, Word};
use std::alloc::Global;

#[tactic(auto, using(crate::proofs::Walks::wires))]
fn wire(alloc: Global, tokens: &mut Cursor<'_>) -> Result<Item, Fault>
    requires { item_head (head tokens.old) ≡ ItemHead.Wire }
    ensures goes { Goes s.item tokens.old result tokens.new }
    ensures tree { IfOk result (λ x. IsItem tokens.old (item_of x) tokens.new) }
    ensures shorter { IfOk result (λ _. length tokens.new < length tokens.old) }
{
    tokens.word(Word::Wire)?;
    let range = range(tokens)?;
    let name = name_then(alloc, tokens, &SEMICOLON)?;
    Ok(Item::Wire(range, name))
}

/// The number of a memory's last cell, where the declaration of a register goes on so.
#[tactic(auto, using(crate::proofs::Walks::ends_of_registers))]
fn last_cell(tokens: &mut Cursor<'_>) -> Result<Option<Number>, Fault>
    ensures goes { Goes s.after_register tokens.old result tokens.new }
    ensures tree { IfOk result (λ last. RegisterEnds tokens.old last tokens.new) }
    ensures shorter { IfOk result (λ _. length tokens.new < length tokens.old) }
{
    if !tokens.at_sign(Sign::OpenBracket) {
        tokens.sign(Sign::Semicolon)?;
        return Ok(None);
    }
    row(tokens, &FROM_ZERO)?;
    let last = number_then(tokens, &CLOSE_BRACKET)?;
    Ok(Some(last))
}

fn declared(range: Number, name: Mention, last: Option<Number>) -> Item
    ensures { item_of result ≡ register_with (number_of range) (mention_of name) last }
{
    match last {
        Some(last) => Item::Memory(range, name, last),
        None => Item::Register(range, name),
    }
}

/// A register or a memory.
#[tactic(auto, using(crate::proofs::Walks::registers))]
fn register(alloc: Global, tokens: &mut Cursor<'_>) -> Result<Item, Fault>
    requires { item_head (head tokens.old) ≡ ItemHead.Register }
    ensures goes { Goes s.item tokens.old result tokens.new }
    ensures tree { IfOk result (λ x. IsItem tokens.old (item_of x) tokens.new) }
    ensures shorter { IfOk result (λ _. length tokens.new < length tokens.old) }
{
    tokens.word(Word::Reg)?;
    let range = range(tokens)?;
    let name = tokens.name(alloc)?;
    let last = last_cell(tokens)?;
    Ok(declared(range, name, last))
}

#[tactic(auto, using(crate::proofs::Walks::integers))]
fn integer(tokens: &mut Cursor<'_>) -> Result<Item, Fault>
    requires { item_head (head tokens.old) ≡ ItemHead.Integer }
    ensures goes { Goes s.item tokens.old result tokens.new }
    ensures tree { IfOk result (λ x. IsItem tokens.old (item_of x) tokens.new) }
    ensures shorter { IfOk result (λ _. length tokens.new < length tokens.old) }
{
    let place = row(tokens, &INTEGER)?;
    Ok(Item::Integer(place))
}

#[tactic(auto, using(crate::proofs::Walks::assigns))]
fn assign(alloc: Global, tokens: &mut Cursor<'_>) -> Result<Item, Fault>
    requires { item_head (head tokens.old) ≡ ItemHead.Assign }
    ensures goes { Goes s.item tokens.old result tokens.new }
    ensures tree { IfOk result (λ x. IsItem tokens.old (item_of x) tokens.new) }
    ensures shorter { IfOk result (λ _. length tokens.new < length tokens.old) }
{
    tokens.word(Word::Assign)?;
    let name = name_then(alloc, tokens, &IS)?;
    let right = right(alloc, tokens)?;
    Ok(Item::Assign(name, right))
}

/// The first contents of a register.
#[tactic(auto, using(crate::proofs::Walks::starts))]
fn start(alloc: Global, tokens: &mut Cursor<'_>) -> Result<Item, Fault>
    requires { head tokens.old ≡ of_name }
    ensures goes { Goes s.after_initial tokens.old result tokens.new }
    ensures tree { IfOk result (λ x. AfterInitial tokens.old (item_of x) tokens.new) }
    ensures shorter { IfOk result (λ _. length tokens.new < length tokens.old) }
{
    let name = name_then(alloc, tokens, &IS)?;
    let value = constant_then(tokens, &SEMICOLON)?;
    Ok(Item::Initial(name, value))
}

/// The head of a `for`: the place of its first `i`, and its bound.
#[derive(Clone, Copy)]
struct Head {
    place: u64,
    bound: Number,
}

#[tactic(auto, using(crate::proofs::Walks::loops))]
fn for_head(tokens: &mut Cursor<'_>) -> Result<Head, Fault>
    ensures goes { Goes s.loop tokens.old result tokens.new }
    ensures tree { IfOk result (λ x. IsLoop tokens.old x.place (number_of x.bound) tokens.new) }
    ensures shorter { IfOk result (λ _. length tokens.new < length tokens.old) }
{
    row(tokens, &LOOP)?;
    let place = row(tokens, &START)?;
    let bound = number_then(tokens, &STEP)?;
    Ok(Head { place, bound })
}

/// The first contents of a memory.
#[tactic(auto, using(crate::proofs::Walks::contents))]
fn cells(alloc: Global, tokens: &mut Cursor<'_>) -> Result<Item, Fault>
    requires { head tokens.old ≢ of_name }
    ensures goes { Goes s.after_initial tokens.old result tokens.new }
    ensures tree { IfOk result (λ x. AfterInitial tokens.old (item_of x) tokens.new) }
    ensures shorter { IfOk result (λ _. length tokens.new < length tokens.old) }
{
    let head = for_head(tokens)?;
    let name = name_then(alloc, tokens, &AT_I)?;
    let value = constant_then(tokens, &SEMICOLON)?;
    Ok(Item::InitialCells(head.place, head.bound, name, value))
}

/// What stands behind `initial`.
fn contents(alloc: Global, tokens: &mut Cursor<'_>) -> Result<Item, Fault>
    ensures goes { Goes s.after_initial tokens.old result tokens.new }
    ensures tree { IfOk result (λ x. AfterInitial tokens.old (item_of x) tokens.new) }
    ensures shorter { IfOk result (λ _. length tokens.new < length tokens.old) }
{
    if tokens.at_name() {
        start(alloc, tokens)
    } else {
        cells(alloc, tokens)
    }
}

#[tactic(auto, using(crate::proofs::Walks::initials))]
fn initial(alloc: Global, tokens: &mut Cursor<'_>) -> Result<Item, Fault>
    requires { item_head (head tokens.old) ≡ ItemHead.Initial }
    ensures goes { Goes s.item tokens.old result tokens.new }
    ensures tree { IfOk result (λ x. IsItem tokens.old (item_of x) tokens.new) }
    ensures shorter { IfOk result (λ _. length tokens.new < length tokens.old) }
{
    tokens.word(Word::Initial)?;
    contents(alloc, tokens)
}

/// The next contents of a register.
#[tactic(auto, using(crate::proofs::Walks::updates))]
fn update(alloc: Global, tokens: &mut Cursor<'_>) -> Result<Item, Fault>
    requires { head tokens.old ≡ of_name }
    ensures goes { Goes s.after_clock tokens.old result tokens.new }
    ensures tree { IfOk result (λ x. AfterClock tokens.old (item_of x) tokens.new) }
    ensures shorter { IfOk result (λ _. length tokens.new < length tokens.old) }
{
    let name = name_then(alloc, tokens, &BECOMES)?;
    let next = operand_then(alloc, tokens, &SEMICOLON)?;
    Ok(Item::Always(name, Box::into_inner(next)))
}

/// The write to a memory.
#[tactic(auto, using(crate::proofs::Walks::writes))]
fn write(alloc: Global, tokens: &mut Cursor<'_>) -> Result<Item, Fault>
    requires { head tokens.old ≢ of_name }
    ensures goes { Goes s.after_clock tokens.old result tokens.new }
    ensures tree { IfOk result (λ x. AfterClock tokens.old (item_of x) tokens.new) }
    ensures shorter { IfOk result (λ _. length tokens.new < length tokens.old) }
{
    row(tokens, &CONDITION)?;
    let condition = operand_then(alloc, tokens, &CLOSE_PAREN)?;
    let name = name_then(alloc, tokens, &OPEN_BRACKET)?;
    let index = operand_then(alloc, tokens, &CELL_BECOMES)?;
    let value = operand_then(alloc, tokens, &SEMICOLON)?;
    Ok(Item::AlwaysCell(
        Box::into_inner(condition),
        name,
        Box::into_inner(index),
        Box::into_inner(value),
    ))
}

/// What stands behind the clock.
fn next_contents(alloc: Global, tokens: &mut Cursor<'_>) -> Result<Item, Fault>
    ensures goes { Goes s.after_clock tokens.old result tokens.new }
    ensures tree { IfOk result (λ x. AfterClock tokens.old (item_of x) tokens.new) }
    ensures shorter { IfOk result (λ _. length tokens.new < length tokens.old) }
{
    if tokens.at_name() {
        update(alloc, tokens)
    } else {
        write(alloc, tokens)
    }
}

#[tactic(auto, using(crate::proofs::Walks::always))]
fn always(alloc: Global, tokens: &mut Cursor<'_>) -> Result<Item, Fault>
    requires { item_head (head tokens.old) ≡ ItemHead.Always }
    ensures goes { Goes s.item tokens.old result tokens.new }
    ensures tree { IfOk result (λ x. IsItem tokens.old (item_of x) tokens.new) }
    ensures shorter { IfOk result (λ _. length tokens.new < length tokens.old) }
{
    row(tokens, &CLOCKED)?;
    next_contents(alloc, tokens)
}

/// An item.
pub fn item(alloc: Global, tokens: &mut Cursor<'_>) -> Result<Item, Fault>
    ensures goes { Goes s.item tokens.old result tokens.new }
    ensures tree { IfOk result (λ x. IsItem tokens.old (item_of x) tokens.new) }
    ensures shorter { IfOk result (λ _. length tokens.new < length tokens.old) }
{
    match item_head(tokens.peek()) {
        ItemHead::Wire => wire(alloc, tokens),
        ItemHead::Register => register(alloc, tokens),
        ItemHead::Integer => integer(tokens),
        ItemHead::Assign => assign(alloc, tokens),
        ItemHead::Initial => initial(alloc, tokens),
        ItemHead::Always => always(alloc, tokens),
    }
}
