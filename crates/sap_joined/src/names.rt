//! The names that parts have in the whole.

ghost use Rattle.std.specs.Prelude.{◌≡◌, IfOk};
ghost use Rattle.sap_joined.specs.Joined as spec;
ghost use Rattle.sap_joined.specs.Seen as seen;
ghost use Rattle.sap_joined.specs.Spelled.{IsSpelled};
ghost use Rattle.sap_linked.specs.Parts as parts;

use crate::parts::Feed;
use sap_net::parts::Name;
use std::alloc::{AllocError, Global};

/// The name that a name of a part has.
pub(crate) fn in_part(alloc: Global, part: &Name, name: &Name) -> Result<Name, AllocError>
    requires { IsSpelled name.now }
    ensures { IfOk result (λ x. x ≡ parts.in_part part.now name.now) }
{
    let text = name.as_str();
    let (front, back) = text.split_at(text.len().min(2));
    let whole = format!(in alloc; "{front}{part}_{back}")?;
    Ok(Name::new(whole))
}

/// The value of the register that feeds.
pub(crate) fn value_from(alloc: Global, feed: &Feed<'_>) -> Result<Name, AllocError>
    ensures { IfOk result (λ x. x ≡ spec.value_from (seen.feed feed.now)) }
{
    let (part, name) = (feed.from_part, feed.from);
    let text = format!(in alloc; "v_{part}_{name}")?;
    Ok(Name::new(text))
}

/// Its tag.
pub(crate) fn tag_from(alloc: Global, feed: &Feed<'_>) -> Result<Name, AllocError>
    ensures { IfOk result (λ x. x ≡ spec.tag_from (seen.feed feed.now)) }
{
    let (part, name) = (feed.from_part, feed.from);
    let text = format!(in alloc; "t_{part}_{name}")?;
    Ok(Name::new(text))
}

/// The value of the input that is fed.
pub(crate) fn value_to(alloc: Global, feed: &Feed<'_>) -> Result<Name, AllocError>
    ensures { IfOk result (λ x. x ≡ spec.value_to (seen.feed feed.now)) }
{
    let (part, name) = (feed.to_part, feed.to);
    let text = format!(in alloc; "v_{part}_{name}")?;
    Ok(Name::new(text))
}

/// Its tag.
pub(crate) fn tag_to(alloc: Global, feed: &Feed<'_>) -> Result<Name, AllocError>
    ensures { IfOk result (λ x. x ≡ spec.tag_to (seen.feed feed.now)) }
{
    let (part, name) = (feed.to_part, feed.to);
    let text = format!(in alloc; "t_{part}_{name}")?;
    Ok(Name::new(text))
}

/// The join of the register's code with that of a level.
pub(crate) fn joined_to(alloc: Global, feed: &Feed<'_>) -> Result<Name, AllocError>
    ensures { IfOk result (λ x. x ≡ spec.joined_to (seen.feed feed.now)) }
{
    let (part, name) = (feed.to_part, feed.to);
    let text = format!(in alloc; "j_{part}_{name}")?;
    Ok(Name::new(text))
}

/// Whether the register's code is at or below that of a level.
pub(crate) fn below_to(alloc: Global, feed: &Feed<'_>) -> Result<Name, AllocError>
    ensures { IfOk result (λ x. x ≡ spec.below_to (seen.feed feed.now)) }
{
    let (part, name) = (feed.to_part, feed.to);
    let text = format!(in alloc; "b_{part}_{name}")?;
    Ok(Name::new(text))
}
