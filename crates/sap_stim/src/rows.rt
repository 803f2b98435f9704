//! Rows.

ghost use Rattle.std.specs.Prelude.{◌≡◌, ◌+◌, ◌<◌, ◌≤◌, ◌++◌, IfOk, IfSome, OnErr, OnOk, length, vec_capacity, Option, option_map};
ghost use Rattle.sap_lattice.specs.Closure.{name_at};
ghost use Rattle.sap_stim.specs.Rows.{AreLevelTexts, at_level, row_room, row_text, shown, shown_of, shown_text, level_coded, level_text, all_shown};

use crate::flat::put_row;
use crate::head::RowHead;
use crate::label::RowLabel;
use crate::short::Short;
use sap_desk::{Bytes, RowBuf};
use sap_lattice::lattice::Lattice;
use sap_lattice::level::Level;
use sap_lattice::name::Name;
use sap_text::digits::push_number;
use std::alloc::{AllocError, Global};

/// The level whose code is the tag.
pub(crate) fn level_of_tag(lattice: &Lattice, tag: u64) -> Option<Level>
    ensures coded { result ≡ level_coded lattice.now tag }
    ensures level { IfSome result (λ x. x < length lattice.now.names) }
{
    lattice.lawful();
    lattice.level_of_code(tag)
}

/// Appends the name of the level whose code is a tag; a tag that is no code as `#` and its number.
pub fn push_level(out: &mut Vec<u8>, tag: u64, lattice: &Lattice) -> Result<(), AllocError>
    ensures text { OnOk result (out.new.items ≡ out.old.items ++ level_text (option_map (name_at lattice.now.names) (level_coded lattice.now tag)) tag) }
    ensures room { vec_capacity out.old ≤ vec_capacity out.new }
    ensures full { OnErr result (vec_capacity out.old < length out.old.items + length (level_text (option_map (name_at lattice.now.names) (level_coded lattice.now tag)) tag)) }
{
    match level_of_tag(lattice, tag) {
        Some(level) => out.extend_from_slice(lattice.name(level).as_bytes()),
        None => {
            out.extend_from_slice(b"#")?;
            push_number(out, tag)
        }
    }
}

fn push_shown(
    out: &mut Vec<u8>,
    name: &Name,
    value: u64,
    tag: u64,
    lattice: &Lattice,
) -> Result<(), AllocError>
    ensures text { OnOk result (out.new.items ≡ out.old.items ++ shown_text (shown lattice.now name.now value tag)) }
    ensures room { vec_capacity out.old ≤ vec_capacity out.new }
    ensures full { OnErr result (vec_capacity out.old < length out.old.items + length (shown_text (shown lattice.now name.now value tag))) }
{
    out.extend_from_slice(b" ")?;
    out.extend_from_slice(name.as_bytes())?;
    out.extend_from_slice(b"=")?;
    push_number(out, value)?;
    out.extend_from_slice(b"@")?;
    push_level(out, tag, lattice)
}

fn push_all(
    out: &mut Vec<u8>,
    names: &[Name],
    values: &[u64],
    tags: &[u64],
    lattice: &Lattice,
) -> Result<(), AllocError>
    requires values { length values.now ≡ length names.now }
    requires tags { length tags.now ≡ length names.now }
    ensures text { OnOk result (out.new.items ≡ out.old.items ++ all_shown (shown_of lattice.now names.now values.now tags.now)) }
    ensures room { vec_capacity out.old ≤ vec_capacity out.new }
    ensures full { OnErr result (vec_capacity out.old < length out.old.items + length (all_shown (shown_of lattice.now names.now values.now tags.now))) }
{
    for i in 0..names.len() {
        push_shown(out, &names[i], values[i], tags[i], lattice)?;
    }
    out.extend_from_slice(b"\n")
}

/// Appends the row of a cycle: the registers of these names, with their values and tags. It takes no memory
/// where there is room for the row.
pub fn push_row(
    out: &mut Vec<u8>,
    cycle: u64,
    names: &[Name],
    values: &[u64],
    tags: &[u64],
    lattice: &Lattice,
) -> Result<(), AllocError>
    requires values { length values.now ≡ length names.now }
    requires tags { length tags.now ≡ length names.now }
    ensures text { OnOk result (out.new.items ≡ out.old.items ++ row_text cycle (shown_of lattice.now names.now values.now tags.now)) }
    ensures room { vec_capacity out.old ≤ vec_capacity out.new }
    ensures full { OnErr result (vec_capacity out.old < length out.old.items + length (row_text cycle (shown_of lattice.now names.now values.now tags.now))) }
{
    out.extend_from_slice(b"cycle ")?;
    push_number(out, cycle)?;
    out.extend_from_slice(b":")?;
    push_all(out, names, values, tags, lattice)
}

/// The bytes of the row of a cycle.
pub fn row(
    alloc: Global,
    cycle: u64,
    names: &[Name],
    values: &[u64],
    tags: &[u64],
    lattice: &Lattice,
) -> Result<Bytes, AllocError>
    requires values { length values.now ≡ length names.now }
    requires tags { length tags.now ≡ length names.now }
    ensures { IfOk result (λ text. text ≡ row_text cycle (shown_of lattice.now names.now values.now tags.now)) }
{
    let mut out = Vec::new(alloc);
    push_row(&mut out, cycle, names, values, tags, lattice)?;
    Ok(Bytes::new(out))
}

/// Appends the row of a cycle, for which there is room. It takes no memory.
pub fn row_into(
    out: &mut RowBuf,
    cycle: u64,
    names: &[Name],
    values: &[u64],
    tags: &[u64],
    lattice: &Lattice,
)
    requires values { length values.now ≡ length names.now }
    requires tags { length tags.now ≡ length names.now }
    requires fits { length out.old.bytes + row_room (shown_of lattice.now names.now values.now tags.now) ≤ out.old.room }
    ensures text { out.new.bytes ≡ out.old.bytes ++ row_text cycle (shown_of lattice.now names.now values.now tags.now) }
    ensures room { out.old.room ≤ out.new.room }
{
    let mut bytes = out.take();
    push_row(&mut bytes, cycle, names, values, tags, lattice).unwrap();
    out.put(bytes);
}

// Appends `@` and the name of the level of a tag.
fn push_at_level(
    out: &mut Vec<u8>,
    tag: u64,
    levels: &[Short],
    lattice: &Lattice,
) -> Result<(), AllocError>
    requires { AreLevelTexts lattice.now levels.now }
    ensures text { OnOk result (out.new.items ≡ out.old.items ++ at_level lattice.now tag) }
    ensures room { vec_capacity out.old ≤ vec_capacity out.new }
    ensures full { OnErr result (vec_capacity out.old < length out.old.items + length (at_level lattice.now tag)) }
{
    if tag < levels.len() as u64 {
        return out.extend_from_slice(levels[tag as usize].as_slice());
    }
    out.push(b'@')?;
    push_level(out, tag, lattice)
}

fn push_labelled(
    out: &mut Vec<u8>,
    label: &RowLabel,
    value: u64,
    tag: u64,
    levels: &[Short],
    lattice: &Lattice,
) -> Result<(), AllocError>
    requires { AreLevelTexts lattice.now levels.now }
    ensures text { OnOk result (out.new.items ≡ out.old.items ++ shown_text (shown lattice.now label.now value tag)) }
    ensures room { vec_capacity out.old ≤ vec_capacity out.new }
    ensures full { OnErr result (vec_capacity out.old < length out.old.items + length (shown_text (shown lattice.now label.now value tag))) }
{
    out.extend_from_slice(label.as_bytes())?;
    push_number(out, value)?;
    push_at_level(out, tag, levels, lattice)
}

fn push_all_labelled(
    out: &mut Vec<u8>,
    labels: &[RowLabel],
    values: &[u64],
    tags: &[u64],
    levels: &[Short],
    lattice: &Lattice,
) -> Result<(), AllocError>
    requires values { length values.now ≡ length labels.now }
    requires levels { AreLevelTexts lattice.now levels.now }
    requires tags { length tags.now ≡ length labels.now }
    ensures text { OnOk result (out.new.items ≡ out.old.items ++ all_shown (shown_of lattice.now labels.now values.now tags.now)) }
    ensures room { vec_capacity out.old ≤ vec_capacity out.new }
    ensures full { OnErr result (vec_capacity out.old < length out.old.items + length (all_shown (shown_of lattice.now labels.now values.now tags.now))) }
{
    for i in 0..labels.len() {
        push_labelled(out, &labels[i], values[i], tags[i], levels, lattice)?;
    }
    out.extend_from_slice(b"\n")
}

fn push_labelled_row(
    out: &mut Vec<u8>,
    cycle: u64,
    labels: &[RowLabel],
    values: &[u64],
    tags: &[u64],
    levels: &[Short],
    lattice: &Lattice,
) -> Result<(), AllocError>
    requires values { length values.now ≡ length labels.now }
    requires levels { AreLevelTexts lattice.now levels.now }
    requires tags { length tags.now ≡ length labels.now }
    ensures text { OnOk result (out.new.items ≡ out.old.items ++ row_text cycle (shown_of lattice.now labels.now values.now tags.now)) }
    ensures room { vec_capacity out.old ≤ vec_capacity out.new }
    ensures full { OnErr result (vec_capacity out.old < length out.old.items + length (row_text cycle (shown_of lattice.now labels.now values.now tags.now))) }
{
    out.extend_from_slice(b"cycle ")?;
    push_number(out, cycle)?;
    out.extend_from_slice(b":")?;
    push_all_labelled(out, labels, values, tags, levels, lattice)
}

// Appends the row with a front, by way of an array of bytes where that is large enough.
fn push_row_by(
    out: &mut Vec<u8>,
    bytes: &mut [u8],
    head: &RowHead,
    labels: &[RowLabel],
    values: &[u64],
    tags: &[u64],
    levels: &[Short],
    lattice: &Lattice,
) -> Result<(), AllocError>
    requires values { length values.now ≡ length labels.now }
    requires levels { AreLevelTexts lattice.now levels.now }
    requires tags { length tags.now ≡ length labels.now }
    ensures text { OnOk result (out.new.items ≡ out.old.items ++ row_text head.now (shown_of lattice.now labels.now values.now tags.now)) }
    ensures room { vec_capacity out.old ≤ vec_capacity out.new }
    ensures full { OnErr result (vec_capacity out.old < length out.old.items + length (row_text head.now (shown_of lattice.now labels.now values.now tags.now))) }
{
    match put_row(bytes, head, labels, values, tags, levels, lattice) {
        Some(end) if end <= bytes.len() => out.extend_from_slice(&bytes[..end]),
        _ => push_labelled_row(out, head.cycle(), labels, values, tags, levels, lattice),
    }
}

/// Appends the row of a cycle as `row_into` does, the labels of its registers and texts of levels made beforehand. A
/// front is kept from one row to the next. The row is written to an array of bytes first, where that is large enough. It takes no memory.
pub fn labelled_row_into(
    out: &mut RowBuf,
    array: &mut [u8],
    head: &mut RowHead,
    cycle: u64,
    labels: &[RowLabel],
    values: &[u64],
    tags: &[u64],
    levels: &[Short],
    lattice: &Lattice,
)
    requires values { length values.now ≡ length labels.now }
    requires levels { AreLevelTexts lattice.now levels.now }
    requires tags { length tags.now ≡ length labels.now }
    requires fits { length out.old.bytes + row_room (shown_of lattice.now labels.now values.now tags.now) ≤ out.old.room }
    ensures text { out.new.bytes ≡ out.old.bytes ++ row_text cycle (shown_of lattice.now labels.now values.now tags.now) }
    ensures room { out.old.room ≤ out.new.room }
{
    head.turn_to(cycle);
    let mut bytes = out.take();
    push_row_by(
        &mut bytes, array, head, labels, values, tags, levels, lattice,
    )
    .unwrap();
    out.put(bytes);
}
