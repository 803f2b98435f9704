//! The wires by which registers feed inputs.

ghost use Rattle.std.specs.Prelude.{◌≡◌, ◌++◌, None, Some, map, IfOk, OnOk};
ghost use Rattle.sap_linked.specs.Netlist as linked;
ghost use Rattle.sap_joined.specs.Joined as spec;
ghost use Rattle.sap_joined.specs.Seen as seen;

use crate::names::{below_to, joined_to, tag_from, tag_to, value_from, value_to};
use crate::parts::Feed;
use sap_bits::Op2;
use sap_net::parts::{Name, Operand, Right, Wire};
use sap_share::places::Places;
use std::alloc::{AllocError, Global};

fn assign(name: Name, width: u32, right: Right) -> Wire
    ensures { result ≡ linked.assign name width right }
{
    Wire { name, width, right }
}

fn constant(width: u32, value: u64) -> Operand
    ensures { result ≡ Operand.Constant width value }
{
    Operand::Constant { width, value }
}

/// Through no level: the register's value and tag.
fn add_direct(
    alloc: Global,
    made: &mut Vec<Wire>,
    tag: u32,
    feed: &Feed<'_>,
) -> Result<(), AllocError>
    ensures { OnOk result (made.new.items ≡ made.old.items ++ spec.feeds_by tag (seen.feed feed.now) None) }
{
    let value = Operand::Named(value_from(alloc, feed)?);
    made.push(assign(value_to(alloc, feed)?, feed.width, Right::Copy(value)))?;
    let level = Operand::Named(tag_from(alloc, feed)?);
    made.push(assign(tag_to(alloc, feed)?, tag, Right::Copy(level)))?;
    Ok(())
}

/// The join of the register's code with that of a level.
fn join_wire(alloc: Global, tag: u32, feed: &Feed<'_>, code: u64) -> Result<Wire, AllocError>
    ensures { IfOk result (λ wire. wire ≡ spec.join_wire tag (seen.feed feed.now) code) }
{
    let from = Operand::Named(tag_from(alloc, feed)?);
    let join = Right::Two(Op2::Or, from, constant(tag, code));
    Ok(assign(joined_to(alloc, feed)?, tag, join))
}

/// Whether that is the code of the level.
fn test_wire(alloc: Global, tag: u32, feed: &Feed<'_>, code: u64) -> Result<Wire, AllocError>
    ensures { IfOk result (λ wire. wire ≡ spec.test_wire tag (seen.feed feed.now) code) }
{
    let joined = Operand::Named(joined_to(alloc, feed)?);
    let test = Right::Two(Op2::Eq, joined, constant(tag, code));
    Ok(assign(below_to(alloc, feed)?, 1, test))
}

/// The value where that is so, else 0.
fn choice_wire(alloc: Global, feed: &Feed<'_>) -> Result<Wire, AllocError>
    ensures { IfOk result (λ wire. wire ≡ spec.choice_wire (seen.feed feed.now)) }
{
    let below = Operand::Named(below_to(alloc, feed)?);
    let value = Operand::Named(value_from(alloc, feed)?);
    let choice = Right::Choose(below, value, constant(feed.width, 0));
    Ok(assign(value_to(alloc, feed)?, feed.width, choice))
}

/// Through the level of a code: the register's value where its level is at or below that one, else 0, and that code.
fn add_through(
    alloc: Global,
    made: &mut Vec<Wire>,
    tag: u32,
    feed: &Feed<'_>,
    code: u64,
) -> Result<(), AllocError>
    ensures { OnOk result (made.new.items ≡ made.old.items ++ spec.feeds_by tag (seen.feed feed.now) (Some code)) }
{
    made.push(join_wire(alloc, tag, feed, code)?)?;
    made.push(test_wire(alloc, tag, feed, code)?)?;
    made.push(choice_wire(alloc, feed)?)?;
    let level = Right::Copy(constant(tag, code));
    made.push(assign(tag_to(alloc, feed)?, tag, level))?;
    Ok(())
}

fn add_feed(
    alloc: Global,
    made: &mut Vec<Wire>,
    tag: u32,
    feed: &Feed<'_>,
) -> Result<(), AllocError>
    ensures { let f = seen.feed feed.now in OnOk result (made.new.items ≡ made.old.items ++ spec.feeds_by tag f f.level) }
{
    match feed.level {
        None => add_direct(alloc, made, tag, feed),
        Some(code) => add_through(alloc, made, tag, feed, code),
    }
}

/// The wires of all feeds.
pub(crate) fn feed_wires(
    alloc: Global,
    tag: u32,
    feeds: &[Feed<'_>],
) -> Result<Vec<Wire>, AllocError>
    ensures { IfOk result (λ made. made.items ≡ spec.feed_wires tag (map seen.feed feeds.now)) }
{
    let mut made = Vec::new(alloc);
    for feed in feeds {
        add_feed(alloc, &mut made, tag, feed)?;
    }
    Ok(made)
}

/// The names of the inputs that are fed.
fn fed_names(alloc: Global, feeds: &[Feed<'_>]) -> Result<Vec<Name>, AllocError>
    ensures { IfOk result (λ names. names.items ≡ spec.fed_names (map seen.feed feeds.now)) }
{
    let mut names = Vec::new(alloc);
    for feed in feeds {
        names.push(value_to(alloc, feed)?)?;
        names.push(tag_to(alloc, feed)?)?;
    }
    Ok(names)
}

/// A set of these names.
pub(crate) fn index_fed(alloc: Global, feeds: &[Feed<'_>]) -> Result<Places, AllocError>
    ensures { IfOk result (λ fed. fed ≡ spec.fed_names (map seen.feed feeds.now)) }
{
    let names = fed_names(alloc, feeds)?;
    Places::new(alloc, names)
}
