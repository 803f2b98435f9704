//! Commands.

ghost use Rattle.std.specs.Prelude.{◌≡◌, ◌++◌, OnOk, codes};
ghost use Rattle.sap_show.specs.Canonical.{arms_text, cell_text, simple_text, tag_text, command_text, block_text, else_text};
ghost use Rattle.sap_show.specs.Lists.{list_arms_text, list_text};
ghost use Rattle.sap_tree.specs.Syntax.{last_arm};
ghost use Rattle.sap_tree.specs.Trees.{expression_of, tag_of, simple_of, command_of, block_of, else_of};

use crate::expression::{between, expression, parts, tag};
use crate::words::{deeper, name};
use sap_tree::name::Name;
use sap_tree::syntax::{Arm, Block, Cmd, Expr, Simple, TagExpr};
use std::alloc::{AllocError, Global};

/// A cell of a memory.
#[tactic(auto, unfolding(crate::specs::Canonical::cell_text))]
fn cell(out: &mut Vec<u8>, memory: &Name, index: &Expr) -> Result<(), AllocError>
    ensures { OnOk result (out.new.items ≡ out.old.items ++ cell_text memory.now (expression_of index.now)) }
{
    name(out, memory)?;
    out.extend_from_slice(b"[")?;
    expression(out, index)?;
    out.extend_from_slice(b"]")
}

/// The end of a `setTag`.
fn new_tag(out: &mut Vec<u8>, x: &TagExpr) -> Result<(), AllocError>
    ensures { OnOk result (out.new.items ≡ out.old.items ++ (codes ", " ++ (tag_text (tag_of x.now) ++ codes ")"))) }
{
    out.extend_from_slice(b", ")?;
    tag(out, x)?;
    out.extend_from_slice(b")")
}

/// A command that can have a handler.
#[tactic(auto, using(crate::proofs::Texts::simples))]
fn simple(out: &mut Vec<u8>, command: &Simple) -> Result<(), AllocError>
    ensures { OnOk result (out.new.items ≡ out.old.items ++ simple_text (simple_of command.now)) }
{
    match command {
        Simple::Assign(register, x) => {
            name(out, &register.name)?;
            out.extend_from_slice(b" := ")?;
            expression(out, x)
        }
        Simple::Write(memory, index, x) => {
            cell(out, &memory.name, index)?;
            out.extend_from_slice(b" := ")?;
            expression(out, x)
        }
        Simple::SetTag(_, target, x) => {
            out.extend_from_slice(b"setTag(")?;
            name(out, &target.name)?;
            new_tag(out, x)
        }
        Simple::SetCellTag(_, memory, index, x) => {
            out.extend_from_slice(b"setTag(")?;
            cell(out, &memory.name, index)?;
            new_tag(out, x)
        }
        Simple::Goto(_, target) => {
            out.extend_from_slice(b"goto ")?;
            name(out, &target.name)
        }
        Simple::Fall(_) => out.extend_from_slice(b"fall"),
    }
}

/// A command that can have a handler, and what is behind it.
fn simple_before(out: &mut Vec<u8>, command: &Simple, behind: &[u8]) -> Result<(), AllocError>
    ensures { OnOk result (out.new.items ≡ out.old.items ++ (simple_text (simple_of command.now) ++ behind.now)) }
{
    simple(out, command)?;
    out.extend_from_slice(behind)
}

/// A command, whose lines have this margin or a deeper one.
#[cycle(command)]
#[tactic(auto, using(sap_tree::proofs::Views::views, crate::proofs::Texts::commands))]
fn command(alloc: Global, out: &mut Vec<u8>, margin: &[u8], command: &Cmd) -> Result<(), AllocError>
    ensures { OnOk result (out.new.items ≡ out.old.items ++ command_text margin.now (command_of command.now)) }
{
    out.extend_from_slice(margin)?;
    match command {
        Cmd::Do(inner) => simple_before(out, inner, b";\n"),
        Cmd::Try(inner, _, handler) => {
            simple_before(out, inner, b" otherwise")?;
            block(alloc, out, margin, handler)?;
            out.extend_from_slice(b"\n")
        }
        Cmd::TryThen(inner, _, accepted, refused) => {
            simple_before(out, inner, b" then")?;
            block(alloc, out, margin, accepted)?;
            out.extend_from_slice(b" otherwise")?;
            block(alloc, out, margin, refused)?;
            out.extend_from_slice(b"\n")
        }
        Cmd::Case(_, number, all, last) => {
            between(out, b"case (", number, b") {\n")?;
            let inner = deeper(alloc, margin)?;
            arms(alloc, out, inner.as_slice(), all.as_slice())?;
            last_block(alloc, out, inner.as_slice(), last)?;
            out.extend_from_slice(margin)?;
            out.extend_from_slice(b"}\n")
        }
        Cmd::If(_, condition, one, other) => {
            between(out, b"if (", condition, b")")?;
            block(alloc, out, margin, one)?;
            else_block(alloc, out, margin, other)?;
            out.extend_from_slice(b"\n")
        }
    }
}

/// A block, from the space before its `{` up to its `}`.
#[cycle(command)]
#[tactic(auto, using(crate::proofs::Texts::blocks))]
fn block(alloc: Global, out: &mut Vec<u8>, margin: &[u8], block: &Block) -> Result<(), AllocError>
    ensures { OnOk result (out.new.items ≡ out.old.items ++ block_text margin.now (block_of block.now)) }
{
    out.extend_from_slice(b" {\n")?;
    let inner = deeper(alloc, margin)?;
    commands(alloc, out, inner.as_slice(), block.commands.as_slice())?;
    out.extend_from_slice(margin)?;
    out.extend_from_slice(b"}")
}

/// Arms of a `case`, whose lines have this margin or a deeper one.
#[cycle(command)]
#[tactic(auto, using(crate::proofs::Texts::lists))]
fn arms(alloc: Global, out: &mut Vec<u8>, margin: &[u8], list: &[Arm]) -> Result<(), AllocError>
    ensures { OnOk result (out.new.items ≡ out.old.items ++ list_arms_text margin.now list.now) }
{
    for arm in list {
        out.extend_from_slice(margin)?;
        parts(out, arm.constants.as_slice())?;
        out.extend_from_slice(b":")?;
        block(alloc, out, margin, &arm.block)?;
        out.extend_from_slice(b"\n")?;
    }
    Ok(())
}

/// The `else` of a `case` and its block.
#[cycle(command)]
#[tactic(auto, using(crate::proofs::Texts::blocks))]
fn last_block(
    alloc: Global,
    out: &mut Vec<u8>,
    margin: &[u8],
    last: &Block,
) -> Result<(), AllocError>
    ensures { OnOk result (out.new.items ≡ out.old.items ++ arms_text margin.now (last_arm (block_of last.now))) }
{
    out.extend_from_slice(margin)?;
    out.extend_from_slice(b"else")?;
    block(alloc, out, margin, last)?;
    out.extend_from_slice(b"\n")
}

/// The `else` and its block, where one is written.
#[cycle(command)]
#[tactic(auto, using(crate::proofs::Texts::blocks))]
fn else_block(
    alloc: Global,
    out: &mut Vec<u8>,
    margin: &[u8],
    other: &Option<Block>,
) -> Result<(), AllocError>
    ensures { OnOk result (out.new.items ≡ out.old.items ++ else_text margin.now (else_of other.now)) }
{
    match other {
        Some(written) => {
            out.extend_from_slice(b" else")?;
            block(alloc, out, margin, written)
        }
        None => Ok(()),
    }
}

/// Commands, whose lines have this margin or a deeper one.
#[cycle(command)]
#[tactic(auto, using(crate::proofs::Texts::lists))]
pub fn commands(
    alloc: Global,
    out: &mut Vec<u8>,
    margin: &[u8],
    list: &[Cmd],
) -> Result<(), AllocError>
    ensures { OnOk result (out.new.items ≡ out.old.items ++ list_text margin.now list.now) }
{
    for one in list {
        command(alloc, out, margin, one)?;
    }
    Ok(())
}
