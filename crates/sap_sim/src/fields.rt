//! The fields of a stimulus for a netlist.

ghost use Rattle.std.specs.Prelude.{◌≡◌, List, [], ◌∷◌, ◌++◌, map, IfOk, OnOk};
ghost use Rattle.sap_net.specs.declared.parts.Input.{Input as NetInput};
ghost use Rattle.sap_sim.specs.Fields.{input_widths, is_tagged, is_tag, field_of, with_field};
ghost use Rattle.sap_sim.specs.Numbers.{field_names};
ghost use Rattle.sap_sim.specs.Lookup.{Finds};

use crate::ports::{behind, joined};
use sap_net::name_map::at_name;
use sap_net::parts::{Input, Name};
use sap_stim::{Field, Fields};
use std::alloc::{AllocError, Global};
use std::collections::HashMap;

/// Whether an input is `v_a`, with an input `t_a` of the width of tags.
fn is_tagged(
    alloc: Global,
    widths: &HashMap<Vec<u8>, usize>,
    tag: u32,
    input: &Input,
) -> Result<bool, AllocError>
    ensures { IfOk result (λ is. (inputs : List NetInput) → Finds widths.now (input_widths inputs) → is ≡ is_tagged tag inputs input.now.name) }
{
    match behind(b'v', input.name.as_bytes()) {
        Some(a) => {
            let name = joined(alloc, b't', a)?;
            Ok(at_name(widths, &name) == Some(tag as usize))
        }
        None => Ok(false),
    }
}

/// Whether an input is `t_a` of the width of tags, with an input `v_a`.
pub fn is_tag(
    alloc: Global,
    widths: &HashMap<Vec<u8>, usize>,
    tag: u32,
    input: &Input,
) -> Result<bool, AllocError>
    ensures { IfOk result (λ is. (inputs : List NetInput) → Finds widths.now (input_widths inputs) → is ≡ is_tag tag inputs input.now) }
{
    if input.width != tag {
        return Ok(false);
    }
    match behind(b't', input.name.as_bytes()) {
        Some(a) => {
            let name = joined(alloc, b'v', a)?;
            Ok(at_name(widths, &name).is_some())
        }
        None => Ok(false),
    }
}

/// The field of an input.
fn field(
    alloc: Global,
    widths: &HashMap<Vec<u8>, usize>,
    tag: u32,
    input: &Input,
) -> Result<Field, AllocError>
    ensures { IfOk result (λ f. (inputs : List NetInput) → Finds widths.now (input_widths inputs) → f ≡ field_of tag inputs input.now) }
{
    if is_tagged(alloc, widths, tag, input)? {
        Ok(Field::Tagged(input.width))
    } else {
        Ok(Field::Plain(input.width))
    }
}

/// The fields of a line, and the names of the inputs that have them.
#[derive(Drop)]
pub struct Line {
    pub fields: Fields,
    pub names: Vec<Name>,
}

// Adds the field of an input, and its name.
fn push_field(
    alloc: Global,
    widths: &HashMap<Vec<u8>, usize>,
    tag: u32,
    input: &Input,
    fields: &mut Vec<Field>,
    names: &mut Vec<Name>,
) -> Result<(), AllocError>
    ensures fields { OnOk result ((inputs : List NetInput) → Finds widths.now (input_widths inputs) → fields.new.items ≡ fields.old.items ++ field_of tag inputs input.now ∷ []) }
    ensures names { OnOk result (names.new.items ≡ names.old.items ++ input.now.name ∷ []) }
{
    fields.push(field(alloc, widths, tag, input)?)?;
    names.push(input.name.copy(alloc)?)?;
    Ok(())
}

pub fn line_of(
    alloc: Global,
    widths: &HashMap<Vec<u8>, usize>,
    tag: u32,
    inputs: &[Input],
) -> Result<Line, AllocError>
    requires { Finds widths.now (input_widths inputs.now) }
    ensures fields { IfOk result (λ l. l.fields ≡ map (field_of tag inputs.now) (with_field tag inputs.now)) }
    ensures names { IfOk result (λ l. l.names.items ≡ field_names tag inputs.now) }
{
    let mut fields = Vec::new(alloc);
    let mut names = Vec::new(alloc);
    for input in inputs {
        if !is_tag(alloc, widths, tag, input)? {
            push_field(alloc, widths, tag, input, &mut fields, &mut names)?;
        }
    }
    Ok(Line {
        fields: Fields::new(fields),
        names,
    })
}
