// The parts and the wires that a document lists.

ghost use Rattle.std.specs.Prelude.{◌≡◌, IfOk, MatchOption, option_map};
ghost use Rattle.toml.specs.View.{view, table_view, items_view};
ghost use Rattle.sap_system.specs.Document.{part_in, wire_in, texts_in, part_of, wire_of, parts_of, wires_of, Lists};
ghost use Rattle.sap_system.specs.Listing.{Listing, listing};

use crate::file::{Name, Part, WireText};
use sap_latfile::document::{array_at, texts_of};
use std::alloc::{AllocError, Global};
use toml::{Table, Value};

/// The texts of a value that is an array of strings.
fn texts_in(alloc: Global, value: &Value) -> Result<Option<Vec<Name>>, AllocError>
    ensures { IfOk result (λ texts. option_map (λ v. v.items) texts ≡ texts_in (view value.now)) }
{
    match value.as_array() {
        Some(values) => texts_of(alloc, values.as_slice()),
        None => Ok(None),
    }
}

/// The part of two texts.
fn part_in(mut texts: Vec<Name>) -> Option<Part>
    ensures { result ≡ part_in texts.items }
{
    if texts.len() != 2 {
        return None;
    }
    let file = texts.pop()?;
    let name = texts.pop()?;
    Some(Part { name, file })
}

/// The wire of two texts or three.
fn wire_in(mut texts: Vec<Name>) -> Option<WireText>
    ensures { result ≡ wire_in texts.items }
{
    if texts.len() < 2 || texts.len() > 3 {
        return None;
    }
    let level = if texts.len() == 3 { texts.pop() } else { None };
    let to = texts.pop()?;
    let from = texts.pop()?;
    Some(WireText { from, to, level })
}

/// The part of a value that is an array of two strings.
fn part_of(alloc: Global, value: &Value) -> Result<Option<Part>, AllocError>
    ensures { IfOk result (λ part. part ≡ part_of (view value.now)) }
{
    match texts_in(alloc, value)? {
        Some(texts) => Ok(part_in(texts)),
        None => Ok(None),
    }
}

/// The wire of a value that is an array of two or three strings.
fn wire_of(alloc: Global, value: &Value) -> Result<Option<WireText>, AllocError>
    ensures { IfOk result (λ wire. wire ≡ wire_of (view value.now)) }
{
    match texts_in(alloc, value)? {
        Some(texts) => Ok(wire_in(texts)),
        None => Ok(None),
    }
}

/// The parts of values that are all parts.
fn parts_of(alloc: Global, values: &[Value]) -> Result<Option<Vec<Part>>, AllocError>
    ensures { IfOk result (λ parts. option_map (λ v. v.items) parts ≡ parts_of (items_view values.now)) }
{
    let mut parts = Vec::new(alloc);
    for value in values {
        match part_of(alloc, value)? {
            Some(part) => parts.push(part)?,
            None => return Ok(None),
        }
    }
    Ok(Some(parts))
}

/// The wires of values that are all wires.
fn wires_of(alloc: Global, values: &[Value]) -> Result<Option<Vec<WireText>>, AllocError>
    ensures { IfOk result (λ wires. option_map (λ v. v.items) wires ≡ wires_of (items_view values.now)) }
{
    let mut wires = Vec::new(alloc);
    for value in values {
        match wire_of(alloc, value)? {
            Some(wire) => wires.push(wire)?,
            None => return Ok(None),
        }
    }
    Ok(Some(wires))
}

/// The parts and the wires that a document lists.
pub fn listing(
    alloc: Global,
    document: &Table,
) -> Result<Option<(Vec<Part>, Vec<WireText>)>, AllocError>
    ensures { IfOk result (λ listed.
        MatchOption listed
        ((s : Listing) → ¬ Lists (table_view document.now) s)
        (λ p. Lists (table_view document.now) (listing p.0.items p.1.items))) }
{
    if document.len() != 2 {
        return Ok(None);
    }
    let (Some(pairs), Some(lines)) = (array_at(document, "parts"), array_at(document, "wires"))
    else {
        return Ok(None);
    };
    let parts = parts_of(alloc, pairs.as_slice())?;
    let wires = wires_of(alloc, lines.as_slice())?;
    match (parts, wires) {
        (Some(parts), Some(wires)) => Ok(Some((parts, wires))),
        _ => Ok(None),
    }
}
