// The names and the pairs that a document lists.

ghost use Rattle.std.specs.Prelude.{◌≡◌, ℕ, List, IfOk, MatchOption, option_map};
ghost use Rattle.toml.specs.View.{view, table_view, items_view};
ghost use Rattle.sap_latfile.specs.Document.{pair_in, pair_of, pairs_of, Lists};
ghost use Rattle.sap_lattice.specs.declared.pair.Pair.{Pair as PairOfNames};

use crate::document::{array_at, text_of, texts_of};
use sap_lattice::{Name, Pair};
use std::alloc::{AllocError, Global};
use toml::{Table, Value};

/// The pair of a value that is an array of two strings.
fn pair_of(alloc: Global, value: &Value) -> Result<Option<Pair>, AllocError>
    ensures { IfOk result (λ pair. pair ≡ pair_of (view value.now)) }
{
    match value.as_array() {
        Some(parts) => pair_in(alloc, parts.as_slice()),
        None => Ok(None),
    }
}

/// The pair of two values that are strings.
fn pair_in(alloc: Global, parts: &[Value]) -> Result<Option<Pair>, AllocError>
    ensures { IfOk result (λ pair. pair ≡ pair_in (items_view parts.now)) }
{
    if parts.len() != 2 {
        return Ok(None);
    }
    match (text_of(alloc, &parts[0])?, text_of(alloc, &parts[1])?) {
        (Some(lower), Some(upper)) => Ok(Some(Pair { lower, upper })),
        _ => Ok(None),
    }
}

/// The pairs of values that are all pairs.
fn pairs_of(alloc: Global, values: &[Value]) -> Result<Option<Vec<Pair>>, AllocError>
    ensures { IfOk result (λ pairs. option_map (λ v. v.items) pairs ≡ pairs_of (items_view values.now)) }
{
    let mut pairs = Vec::new(alloc);
    for value in values {
        match pair_of(alloc, value)? {
            Some(pair) => pairs.push(pair)?,
            None => return Ok(None),
        }
    }
    Ok(Some(pairs))
}

/// The names and the pairs that a document lists.
pub fn listing(
    alloc: Global,
    document: &Table,
) -> Result<Option<(Vec<Name>, Vec<Pair>)>, AllocError>
    ensures { IfOk result (λ listed.
        MatchOption listed
        ((names : List (List ℕ)) (pairs : List PairOfNames) → ¬ Lists (table_view document.now) names pairs)
        (λ p. Lists (table_view document.now) p.0.items p.1.items)) }
{
    if document.len() != 2 {
        return Ok(None);
    }
    let (Some(levels), Some(below)) = (array_at(document, "levels"), array_at(document, "below"))
    else {
        return Ok(None);
    };
    let names = texts_of(alloc, levels.as_slice())?;
    let pairs = pairs_of(alloc, below.as_slice())?;
    match (names, pairs) {
        (Some(names), Some(pairs)) => Ok(Some((names, pairs))),
        _ => Ok(None),
    }
}
