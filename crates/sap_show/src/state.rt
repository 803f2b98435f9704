//! Declarations and states.

ghost use Rattle.std.specs.Prelude.{◌≡◌, ◌++◌, OnOk, codes, decimal, flat_map};
ghost use Rattle.sap_show.specs.Canonical.{authority_text, kind_text, start_text, declaration_text, head_text, state_text, version_text};
ghost use Rattle.sap_show.specs.Lists.{group_text};
ghost use Rattle.sap_tree.specs.Trees.{state_of};

use crate::command::commands;
use crate::words::{deeper, name};
use sap_text::digits::push_number;
use sap_tree::name::Mention;
use sap_tree::syntax::{Decl, Kind, Numeral, State, Under};
use sap_tree::version::Version;
use std::alloc::{AllocError, Global};

/// The first line, where the version has one.
pub fn first_line(out: &mut Vec<u8>, version: Version) -> Result<(), AllocError>
    ensures { OnOk result (out.new.items ≡ out.old.items ++ version_text version) }
{
    match version {
        Version::One => Ok(()),
        Version::Two => out.extend_from_slice(b"sapper 2;\n"),
    }
}

/// The authority, where one is written.
fn authority(out: &mut Vec<u8>, under: &Option<Under>) -> Result<(), AllocError>
    ensures { OnOk result (out.new.items ≡ out.old.items ++ authority_text under.now) }
{
    match under {
        Some(written) => {
            out.extend_from_slice(b" under ")?;
            name(out, &written.level.name)
        }
        None => Ok(()),
    }
}

fn kind(out: &mut Vec<u8>, kind: &Kind) -> Result<(), AllocError>
    ensures { OnOk result (out.new.items ≡ out.old.items ++ kind_text kind.now) }
{
    match kind {
        Kind::Dynamic(_) => out.extend_from_slice(b"dynamic"),
        Kind::Enforced(level, under) => {
            out.extend_from_slice(b"enforced ")?;
            name(out, &level.name)?;
            authority(out, under)
        }
    }
}

/// The initial number, where one is written.
fn start(out: &mut Vec<u8>, initial: &Option<Numeral>) -> Result<(), AllocError>
    ensures { OnOk result (out.new.items ≡ out.old.items ++ start_text initial.now) }
{
    match initial {
        Some(written) => {
            out.extend_from_slice(b" = ")?;
            push_number(out, written.value)
        }
        None => Ok(()),
    }
}

/// The word of a declaration, the name and the width.
fn declared(
    out: &mut Vec<u8>,
    word: &[u8],
    what: &Mention,
    width: &Numeral,
) -> Result<(), AllocError>
    ensures { OnOk result (out.new.items ≡ out.old.items ++ (word.now ++ (what.now.name ++ (codes " : " ++ decimal width.now.value)))) }
{
    out.extend_from_slice(word)?;
    name(out, &what.name)?;
    out.extend_from_slice(b" : ")?;
    push_number(out, width.value)
}

#[tactic(auto, unfolding(crate::specs::Canonical::declaration_text))]
fn declaration(out: &mut Vec<u8>, declaration: &Decl) -> Result<(), AllocError>
    ensures { OnOk result (out.new.items ≡ out.old.items ++ declaration_text declaration.now) }
{
    match declaration {
        Decl::Input(_, what, width) => {
            declared(out, b"input ", what, width)?;
            out.extend_from_slice(b";\n")
        }
        Decl::Register(_, what, width, how, initial) => {
            declared(out, b"reg ", what, width)?;
            out.extend_from_slice(b" ")?;
            kind(out, how)?;
            start(out, initial)?;
            out.extend_from_slice(b";\n")
        }
        Decl::Memory(_, what, width, depth, how) => {
            declared(out, b"mem ", what, width)?;
            out.extend_from_slice(b"[")?;
            push_number(out, depth.value)?;
            out.extend_from_slice(b"] ")?;
            kind(out, how)?;
            out.extend_from_slice(b";\n")
        }
    }
}

/// Declarations, one a line.
pub fn declarations(out: &mut Vec<u8>, list: &[Decl]) -> Result<(), AllocError>
    ensures { OnOk result (out.new.items ≡ out.old.items ++ flat_map declaration_text list.now) }
{
    for one in list {
        declaration(out, one)?;
    }
    Ok(())
}

/// The first line of a state, but for its margin.
#[tactic(auto, unfolding(crate::specs::Canonical::head_text))]
fn head(out: &mut Vec<u8>, state: &Mention, how: &Kind) -> Result<(), AllocError>
    ensures { OnOk result (out.new.items ≡ out.old.items ++ head_text state.now.name how.now) }
{
    out.extend_from_slice(b"state ")?;
    name(out, &state.name)?;
    out.extend_from_slice(b" ")?;
    kind(out, how)?;
    out.extend_from_slice(b" {\n")
}

/// A state with its children.
#[cycle(states)]
#[tactic(auto, using(crate::proofs::Texts::bodies))]
fn state(alloc: Global, out: &mut Vec<u8>, margin: &[u8], state: &State) -> Result<(), AllocError>
    ensures { OnOk result (out.new.items ≡ out.old.items ++ state_text margin.now (state_of state.now)) }
{
    out.extend_from_slice(margin)?;
    head(out, &state.name, &state.kind)?;
    let inner = deeper(alloc, margin)?;
    commands(alloc, out, inner.as_slice(), state.body.commands.as_slice())?;
    states(alloc, out, inner.as_slice(), state.children.as_slice())?;
    out.extend_from_slice(margin)?;
    out.extend_from_slice(b"}\n")
}

/// States, whose first lines have this margin.
#[cycle(states)]
#[tactic(auto, using(crate::proofs::Texts::lists))]
pub fn states(
    alloc: Global,
    out: &mut Vec<u8>,
    margin: &[u8],
    list: &[State],
) -> Result<(), AllocError>
    ensures { OnOk result (out.new.items ≡ out.old.items ++ group_text margin.now list.now) }
{
    for one in list {
        state(alloc, out, margin, one)?;
    }
    Ok(())
}
