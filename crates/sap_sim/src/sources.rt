//! Where the numbers of inputs come from.

ghost use Rattle.std.specs.Prelude.{◌≡◌, List, map, length, IfOk};
ghost use Rattle.sap_maps.specs.Maps.{Name as Text};
ghost use Rattle.sap_net.specs.declared.parts.Input.{Input as NetInput};
ghost use Rattle.sap_sim.specs.Fields.{input_widths};
ghost use Rattle.sap_sim.specs.Numbers.{place, field_names, value_for};
ghost use Rattle.sap_sim.specs.Lookup.{Finds};
ghost use Rattle.sap_net.specs.NameMaps.{Indexes};
ghost use Rattle.sap_sim.specs.Layout.{source_of};

use crate::fields::is_tag;
use sap_net::name_map::{at_name, index_names};
use sap_net::parts::{Input, Name};
use std::alloc::{AllocError, Global};
use std::collections::HashMap;

/// What an input gets of a line: the value in the field at a place, or the code of the level there.
#[derive(Clone, Copy, Debug)]
pub enum Source {
    Value(usize),
    Code(usize),
}

/// The place of a name in a list of this length, or the length.
fn place(numbers: &HashMap<Vec<u8>, usize>, count: usize, name: &[u8]) -> usize
    ensures { (names : List Text) → Indexes numbers.now names → length names ≡ count → result ≡ place names name.now }
{
    at_name(numbers, name).unwrap_or(count)
}

/// The name `v_a` for `t_a`.
fn value_for(alloc: Global, name: &Name) -> Result<Vec<u8>, AllocError>
    ensures { IfOk result (λ n. n.items ≡ value_for name.now) }
{
    let mut name = name.as_bytes().to_vec(alloc)?;
    if !name.is_empty() {
        name[0] = b'v';
    }
    Ok(name)
}

/// Where the number of an input comes from.
fn source_of(
    alloc: Global,
    widths: &HashMap<Vec<u8>, usize>,
    numbers: &HashMap<Vec<u8>, usize>,
    count: usize,
    tag: u32,
    input: &Input,
) -> Result<Source, AllocError>
    ensures { IfOk result (λ s. (inputs : List NetInput) → Finds widths.now (input_widths inputs) → Indexes numbers.now (field_names tag inputs)
        → length (field_names tag inputs) ≡ count → s ≡ source_of tag inputs input.now) }
{
    if is_tag(alloc, widths, tag, input)? {
        let name = value_for(alloc, &input.name)?;
        Ok(Source::Code(place(numbers, count, &name)))
    } else {
        Ok(Source::Value(place(numbers, count, input.name.as_bytes())))
    }
}

// The sources of the numbers of all inputs, by the places of the names that have a field.
fn sources_by(
    alloc: Global,
    widths: &HashMap<Vec<u8>, usize>,
    numbers: &HashMap<Vec<u8>, usize>,
    count: usize,
    tag: u32,
    inputs: &[Input],
) -> Result<Vec<Source>, AllocError>
    requires widths { Finds widths.now (input_widths inputs.now) }
    requires places { Indexes numbers.now (field_names tag inputs.now) }
    requires count { length (field_names tag inputs.now) ≡ count }
    ensures { IfOk result (λ s. s.items ≡ map (source_of tag inputs.now) inputs.now) }
{
    let mut sources = Vec::new(alloc);
    for input in inputs {
        sources.push(source_of(alloc, widths, numbers, count, tag, input)?)?;
    }
    Ok(sources)
}

/// The sources of the numbers of all inputs, in port order.
pub fn sources(
    alloc: Global,
    widths: &HashMap<Vec<u8>, usize>,
    tag: u32,
    inputs: &[Input],
    names: &[Name],
) -> Result<Vec<Source>, AllocError>
    requires widths { Finds widths.now (input_widths inputs.now) }
    requires names { names.now ≡ field_names tag inputs.now }
    ensures { IfOk result (λ s. s.items ≡ map (source_of tag inputs.now) inputs.now) }
{
    let numbers = index_names(alloc, names)?;
    sources_by(alloc, widths, &numbers, names.len(), tag, inputs)
}
