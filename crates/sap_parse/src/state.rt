//! The reader of states.

ghost use Rattle.std.specs.Prelude.{◌≡◌, ◌≤◌, ◌<◌, ◌+◌, ◌^◌, [], IfOk, length};
ghost use Rattle.sap_parse.specs.Grammar as g;
ghost use Rattle.sap_parse.specs.Joining.{CollectsStates};
ghost use Rattle.sap_parse.specs.Reading.{Goes};
ghost use Rattle.sap_parse.specs.DesignRows.{AllStates, Head, all_states_row, head_row};
ghost use Rattle.sap_parse.specs.Rows.{RowGoes};
ghost use Rattle.sap_parse.specs.Table as s;
ghost use Rattle.sap_parse.specs.Stages.{here};
ghost use Rattle.sap_tree.specs.Parts.{tree_of};
ghost use Rattle.sap_tree.specs.Trees.{commands_of, state_of, states_of};

use crate::command::commands;
use crate::cursor::{Cursor, Fault};
use crate::declaration::{declarations, kind};
use crate::role::Role;
use sap_lex::token::Sign;
use sap_tree::name::Mention;
use sap_tree::place::Place;
use sap_tree::syntax::{Block, Decl, Kind, State};
use sap_tree::version::Version;
use sap_tree::word::Word;
use std::alloc::Global;

/// The states that come next, at this depth.
#[cycle(state)]
#[tactic(auto, using(crate::proofs::Walks::state_list))]
fn states(alloc: Global, tokens: &mut Cursor<'_>, depth: u64) -> Result<Vec<State>, Fault>
    requires { depth + length tokens.old.left < 2 ^ 64 }
    ensures goes { Goes (s.states depth) tokens.old result tokens.new }
    ensures tree { IfOk result (λ list. g.States depth tokens.old (states_of list.items) tokens.new) }
    ensures no_longer { IfOk result (λ _. length tokens.new.left ≤ length tokens.old.left) }
{
    let mut list = Vec::new(alloc);
    'states: while tokens.at_word(Word::State) {
        let next = state(alloc, tokens, depth)?;
        list.push(next)?;
    }
    Ok(list)
}

/// The word, the name and the kind of a state, and `{`.
#[tactic(auto, using(crate::proofs::Walks::enclosing))]
fn head(
    alloc: Global,
    tokens: &mut Cursor<'_>,
    depth: u64,
) -> Result<(Place, Mention, Box<Kind>), Fault>
    ensures goes { RowGoes (head_row depth) tokens.old result tokens.new }
    ensures tree { IfOk result (λ h. Head depth tokens.old h.0 h.1 h.2.value tokens.new) }
    ensures shorter { IfOk result (λ _. length tokens.new.left < length tokens.old.left) }
{
    let place = tokens.word(Role::State(depth), Word::State)?;
    let name = tokens.name(alloc, Role::Plain)?;
    let kind = kind(alloc, tokens)?;
    tokens.sign(Role::Plain, Sign::OpenBrace)?;
    Ok((place, name, kind))
}

#[cycle(state)]
#[tactic(auto, using(crate::proofs::Walks::one_state))]
fn state(alloc: Global, tokens: &mut Cursor<'_>, depth: u64) -> Result<State, Fault>
    requires { depth + length tokens.old.left < 2 ^ 64 }
    ensures goes { Goes (s.state depth) tokens.old result tokens.new }
    ensures tree { IfOk result (λ x. g.State depth tokens.old (state_of x) tokens.new) }
    ensures shorter { IfOk result (λ _. length tokens.new.left < length tokens.old.left) }
{
    let (place, name, kind) = head(alloc, tokens, depth)?;
    let body = body(alloc, tokens)?;
    let children = states(alloc, tokens, depth + 1)?;
    tokens.sign(Role::Plain, Sign::CloseBrace)?;
    Ok(State::new(place, name, Box::into_inner(kind), body, children))
}

/// The commands of a state's body.
#[tactic(auto, using(crate::proofs::Walks::binding))]
fn body(alloc: Global, tokens: &mut Cursor<'_>) -> Result<Block, Fault>
    requires { 1 + length tokens.old.left < 2 ^ 64 }
    ensures goes { Goes (s.cmds 1) tokens.old result tokens.new }
    ensures tree { IfOk result (λ b. g.Cmds 1 tokens.old (commands_of b.commands.items) tokens.new) }
    ensures after { IfOk result (λ b. b.after ≡ here tokens.new) }
    ensures no_longer { IfOk result (λ _. length tokens.new.left ≤ length tokens.old.left) }
{
    let commands = commands(alloc, tokens, 1)?;
    let after = tokens.here();
    Ok(Block { commands, after })
}

/// The last of the top-level states, up to the end.
#[tactic(auto, using(crate::proofs::Walks::last_states))]
fn last_states(alloc: Global, tokens: &mut Cursor<'_>, list: &mut Vec<State>) -> Result<(), Fault>
    requires { 1 + length tokens.old.left < 2 ^ 64 }
    ensures goes { Goes s.last_states tokens.old result tokens.new }
    ensures tree { IfOk result (λ _. CollectsStates tokens.old list.old.items list.new.items tokens.new) }
    ensures end { IfOk result (λ _. tokens.new.left ≡ []) }
{
    'states: while tokens.at_word(Word::State) {
        let next = state(alloc, tokens, 1)?;
        list.push(next)?;
    }
    if tokens.at_end() {
        Ok(())
    } else {
        Err(Fault::Token)
    }
}

/// The top-level states, up to the end.
#[tactic(auto, using(crate::proofs::Walks::enclosing))]
fn all_states(alloc: Global, tokens: &mut Cursor<'_>) -> Result<Vec<State>, Fault>
    requires { 1 + length tokens.old.left < 2 ^ 64 }
    ensures goes { RowGoes all_states_row tokens.old result tokens.new }
    ensures tree { IfOk result (λ list. AllStates tokens.old (states_of list.items) tokens.new) }
    ensures end { IfOk result (λ _. tokens.new.left ≡ []) }
{
    let first = state(alloc, tokens, 1)?;
    let mut list = Vec::new(alloc);
    list.push(first)?;
    last_states(alloc, tokens, &mut list)?;
    Ok(list)
}

/// The first line of a text of the second version, where one is written.
#[tactic(auto, using(crate::proofs::Walks::headers))]
fn header(tokens: &mut Cursor<'_>) -> Result<Version, Fault>
    ensures goes { Goes s.header tokens.old result tokens.new }
    ensures tree { IfOk result (λ version. g.Header tokens.old version tokens.new) }
    ensures no_longer { IfOk result (λ _. length tokens.new.left ≤ length tokens.old.left) }
{
    if !tokens.at_word(Word::Sapper) {
        return Ok(Version::One);
    }
    tokens.word(Role::Plain, Word::Sapper)?;
    tokens.word(Role::Plain, Word::Two)?;
    tokens.sign(Role::Plain, Sign::Semicolon)?;
    Ok(Version::Two)
}

/// The version, the declarations and the top-level states of a design.
#[derive(Drop)]
pub struct Parts {
    pub version: Version,
    pub declarations: Vec<Decl>,
    pub states: Vec<State>,
}

/// A whole design.
#[tactic(auto, using(crate::proofs::Walks::designs))]
pub fn design(alloc: Global, tokens: &mut Cursor<'_>) -> Result<Parts, Fault>
    requires { 1 + length tokens.old.left < 2 ^ 64 }
    ensures goes { Goes s.design tokens.old result tokens.new }
    ensures tree { IfOk result (λ d. g.Design tokens.old (tree_of d.version d.declarations.items d.states.items) tokens.new) }
    ensures end { IfOk result (λ _. tokens.new.left ≡ []) }
{
    let version = header(tokens)?;
    let declarations = declarations(alloc, tokens)?;
    let states = all_states(alloc, tokens)?;
    Ok(Parts {
        version,
        declarations,
        states,
    })
}
