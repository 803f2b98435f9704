//! The reader of declarations.

ghost use Rattle.std.specs.Prelude.{◌≡◌, ◌≢◌, ◌≤◌, ◌<◌, IfOk, false, length, true};
ghost use Rattle.sap_parse.specs.Choices.{declaration_head};
ghost use Rattle.sap_parse.specs.Grammar as g;
ghost use Rattle.sap_parse.specs.Reading.{Goes, ahead};
ghost use Rattle.sap_parse.specs.DesignRows.{Cells, Declared, cells_row, declared_row};
ghost use Rattle.sap_parse.specs.Rows.{RowGoes};
ghost use Rattle.sap_parse.specs.Table as s;

use crate::choice::{DeclarationHead, declaration_head};
use crate::cursor::{Cursor, Fault};
use crate::role::Role;
use sap_lex::token::Sign;
use sap_tree::name::Mention;
use sap_tree::place::Place;
use sap_tree::syntax::{Decl, Kind, Numeral, Under};
use sap_tree::word::Word;
use std::alloc::Global;

/// The written authority, where there is one.
#[tactic(auto, using(crate::proofs::Walks::authorities))]
fn authority(alloc: Global, tokens: &mut Cursor<'_>) -> Result<Option<Under>, Fault>
    ensures goes { Goes s.authority tokens.old result tokens.new }
    ensures tree { IfOk result (λ under. g.Authority tokens.old under tokens.new) }
    ensures no_longer { IfOk result (λ _. length tokens.new.left ≤ length tokens.old.left) }
{
    if !tokens.at_word(Word::Under) {
        return Ok(None);
    }
    let place = tokens.word(Role::Plain, Word::Under)?;
    let level = tokens.name(alloc, Role::Plain)?;
    Ok(Some(Under { place, level }))
}

#[tactic(auto, using(crate::proofs::Walks::enforcing))]
fn enforced(alloc: Global, tokens: &mut Cursor<'_>) -> Result<Kind, Fault>
    ensures goes { Goes s.enforced tokens.old result tokens.new }
    ensures tree { IfOk result (λ kind. g.KindOf tokens.old kind tokens.new) }
    ensures shorter { IfOk result (λ _. length tokens.new.left < length tokens.old.left) }
{
    tokens.word(Role::Plain, Word::Enforced)?;
    let level = tokens.name(alloc, Role::Plain)?;
    let under = authority(alloc, tokens)?;
    Ok(Kind::Enforced(level, under))
}

#[tactic(auto, using(crate::proofs::Walks::binding))]
fn dynamic(tokens: &mut Cursor<'_>) -> Result<Kind, Fault>
    ensures goes { Goes (s.word Role.Plain Word.Dynamic) tokens.old result tokens.new }
    ensures tree { IfOk result (λ kind. g.KindOf tokens.old kind tokens.new) }
    ensures shorter { IfOk result (λ _. length tokens.new.left < length tokens.old.left) }
{
    let place = tokens.word(Role::Plain, Word::Dynamic)?;
    Ok(Kind::Dynamic(place))
}

#[tactic(auto, using(crate::proofs::Walks::kinds))]
fn plain_kind(alloc: Global, tokens: &mut Cursor<'_>) -> Result<Kind, Fault>
    ensures goes { Goes s.kind_of tokens.old result tokens.new }
    ensures tree { IfOk result (λ kind. g.KindOf tokens.old kind tokens.new) }
    ensures shorter { IfOk result (λ _. length tokens.new.left < length tokens.old.left) }
{
    if tokens.at_word(Word::Dynamic) {
        dynamic(tokens)
    } else {
        enforced(alloc, tokens)
    }
}

/// The kind of an entity.
#[tactic(auto, using(crate::proofs::Walks::binding))]
pub fn kind(alloc: Global, tokens: &mut Cursor<'_>) -> Result<Box<Kind>, Fault>
    ensures goes { Goes s.kind_of tokens.old result tokens.new }
    ensures tree { IfOk result (λ kind. g.KindOf tokens.old kind.value tokens.new) }
    ensures shorter { IfOk result (λ _. length tokens.new.left < length tokens.old.left) }
{
    let read = plain_kind(alloc, tokens)?;
    let kind = Box::new(alloc, read)?;
    Ok(kind)
}

/// The initial number, where one is written.
#[tactic(auto, using(crate::proofs::Walks::initials))]
fn initial(tokens: &mut Cursor<'_>) -> Result<Option<Numeral>, Fault>
    ensures goes { Goes s.initial tokens.old result tokens.new }
    ensures tree { IfOk result (λ start. g.Initial tokens.old start tokens.new) }
    ensures no_longer { IfOk result (λ _. length tokens.new.left ≤ length tokens.old.left) }
{
    if !tokens.at_sign(Sign::Is) {
        return Ok(None);
    }
    tokens.sign(Role::Plain, Sign::Is)?;
    let start = tokens.number(Role::Plain)?;
    Ok(Some(start))
}

/// The word of a declaration, the name, `:` and the width.
#[tactic(auto, using(crate::proofs::Walks::enclosing))]
fn declared(
    alloc: Global,
    tokens: &mut Cursor<'_>,
    role: Role,
    word: Word,
) -> Result<(Place, Mention, Numeral), Fault>
    ensures goes { RowGoes (declared_row role word) tokens.old result tokens.new }
    ensures tree { IfOk result (λ d. Declared role word tokens.old d.0 d.1 d.2 tokens.new) }
    ensures shorter { IfOk result (λ _. length tokens.new.left < length tokens.old.left) }
{
    let place = tokens.word(role, word)?;
    let name = tokens.name(alloc, Role::Plain)?;
    tokens.sign(Role::Plain, Sign::Colon)?;
    let width = tokens.number(Role::Plain)?;
    Ok((place, name, width))
}

#[tactic(auto, using(crate::proofs::Walks::inputs))]
fn input(alloc: Global, tokens: &mut Cursor<'_>) -> Result<Decl, Fault>
    ensures goes { Goes s.input tokens.old result tokens.new }
    ensures tree { IfOk result (λ d. g.Declaration tokens.old d tokens.new) }
    ensures shorter { IfOk result (λ _. length tokens.new.left < length tokens.old.left) }
{
    let (place, name, width) = declared(alloc, tokens, Role::Input, Word::Input)?;
    tokens.sign(Role::Plain, Sign::Semicolon)?;
    Ok(Decl::Input(place, name, width))
}

#[tactic(auto, using(crate::proofs::Walks::registers))]
fn register(alloc: Global, tokens: &mut Cursor<'_>) -> Result<Decl, Fault>
    ensures goes { Goes s.register tokens.old result tokens.new }
    ensures tree { IfOk result (λ d. g.Declaration tokens.old d tokens.new) }
    ensures shorter { IfOk result (λ _. length tokens.new.left < length tokens.old.left) }
{
    let (place, name, width) = declared(alloc, tokens, Role::Register, Word::Reg)?;
    let kind = kind(alloc, tokens)?;
    let start = initial(tokens)?;
    tokens.sign(Role::Plain, Sign::Semicolon)?;
    Ok(Decl::Register(place, name, width, Box::into_inner(kind), start))
}

/// The number of the cells of a memory, in brackets.
#[tactic(auto, using(crate::proofs::Walks::enclosing))]
fn cells(tokens: &mut Cursor<'_>) -> Result<Numeral, Fault>
    ensures goes { RowGoes cells_row tokens.old result tokens.new }
    ensures tree { IfOk result (λ n. Cells tokens.old n tokens.new) }
    ensures shorter { IfOk result (λ _. length tokens.new.left < length tokens.old.left) }
{
    tokens.sign(Role::Plain, Sign::OpenBracket)?;
    let depth = tokens.number(Role::Plain)?;
    tokens.sign(Role::Plain, Sign::CloseBracket)?;
    Ok(depth)
}

#[tactic(auto, using(crate::proofs::Walks::memories))]
fn memory(alloc: Global, tokens: &mut Cursor<'_>) -> Result<Decl, Fault>
    ensures goes { Goes s.memory tokens.old result tokens.new }
    ensures tree { IfOk result (λ d. g.Declaration tokens.old d tokens.new) }
    ensures shorter { IfOk result (λ _. length tokens.new.left < length tokens.old.left) }
{
    let (place, name, width) = declared(alloc, tokens, Role::Memory, Word::Mem)?;
    let depth = cells(tokens)?;
    let kind = kind(alloc, tokens)?;
    tokens.sign(Role::Plain, Sign::Semicolon)?;
    Ok(Decl::Memory(place, name, width, depth, Box::into_inner(kind)))
}

#[tactic(auto, using(crate::proofs::Walks::one_declaration))]
fn declaration(alloc: Global, tokens: &mut Cursor<'_>) -> Result<Decl, Fault>
    ensures goes { Goes s.declaration tokens.old result tokens.new }
    ensures tree { IfOk result (λ d. g.Declaration tokens.old d tokens.new) }
    ensures shorter { IfOk result (λ _. length tokens.new.left < length tokens.old.left) }
{
    match declaration_head(tokens.peek()) {
        DeclarationHead::Input => input(alloc, tokens),
        DeclarationHead::Register => register(alloc, tokens),
        DeclarationHead::Memory => memory(alloc, tokens),
        DeclarationHead::Neither => Err(Fault::Token),
    }
}

/// Whether a declaration comes next.
fn at_declaration(tokens: &Cursor<'_>) -> bool
    ensures yes { result ≡ true → declaration_head (ahead tokens.now.left) ≢ DeclarationHead.Neither }
    ensures no { result ≡ false → declaration_head (ahead tokens.now.left) ≡ DeclarationHead.Neither }
{
    declaration_head(tokens.peek()) != DeclarationHead::Neither
}

/// The declarations that come next.
#[tactic(auto, using(crate::proofs::Walks::declaration_list))]
pub fn declarations(alloc: Global, tokens: &mut Cursor<'_>) -> Result<Vec<Decl>, Fault>
    ensures goes { Goes s.declarations tokens.old result tokens.new }
    ensures tree { IfOk result (λ list. g.Declarations tokens.old list.items tokens.new) }
    ensures no_longer { IfOk result (λ _. length tokens.new.left ≤ length tokens.old.left) }
{
    let mut list = Vec::new(alloc);
    'declarations: while at_declaration(tokens) {
        let next = declaration(alloc, tokens)?;
        list.push(next)?;
    }
    Ok(list)
}
