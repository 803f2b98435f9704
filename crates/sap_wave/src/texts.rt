//! The lines of a dump.

ghost use Rattle.std.specs.Prelude.{◌≡◌, ◌+◌, ◌<◌, ◌≤◌, ◌++◌, All, OnErr, OnOk, length, vec_capacity};
ghost use Rattle.sap_text.specs.Places.{line};
ghost use Rattle.sap_maps.specs.Ranges.{IsWidth};
ghost use Rattle.sap_wave.specs.Digits.{numeral};
ghost use Rattle.sap_wave.specs.Lines.{block, form_text, text_of};
ghost use Rattle.sap_wave.specs.Dumps.{all_set, changes, declaration, declarations, head, set_to};

use crate::digits::{push_bits, push_identifier, push_numeral};
use crate::variable::Variable;
use std::alloc::AllocError;

/// Appends the line that begins a block.
pub fn push_block(out: &mut Vec<u8>, number: u64) -> Result<(), AllocError>
    ensures text { OnOk result (out.new.items ≡ out.old.items ++ line (form_text (block (numeral number)))) }
    ensures room { vec_capacity out.old ≤ vec_capacity out.new }
    ensures full { OnErr result (vec_capacity out.old < length out.old.items + length (line (form_text (block (numeral number))))) }
{
    out.extend_from_slice(b"#")?;
    push_numeral(out, number)?;
    out.extend_from_slice(b"\n")
}

/// Appends the line that sets the variable of a place to a number.
fn push_set(
    out: &mut Vec<u8>,
    place: usize,
    variable: &Variable,
    number: u64,
) -> Result<(), AllocError>
    requires { IsWidth variable.now.width }
    ensures text { OnOk result (out.new.items ≡ out.old.items ++ line (form_text (set_to place variable.now number))) }
    ensures room { vec_capacity out.old ≤ vec_capacity out.new }
    ensures full { OnErr result (vec_capacity out.old < length out.old.items + length (line (form_text (set_to place variable.now number)))) }
{
    out.extend_from_slice(b"b")?;
    push_bits(out, variable.width, number)?;
    out.extend_from_slice(b" ")?;
    push_identifier(out, place)?;
    out.extend_from_slice(b"\n")
}

/// Appends the lines that set each variable to its number.
fn push_all_set(
    out: &mut Vec<u8>,
    variables: &[Variable],
    numbers: &[u64],
) -> Result<(), AllocError>
    requires widths { All (λ x. IsWidth x.width) variables.now }
    requires numbers { length numbers.now ≡ length variables.now }
    ensures { OnOk result (out.new.items ≡ out.old.items ++ text_of (all_set 0 variables.now numbers.now)) }
{
    for k in 0..variables.len() {
        push_set(out, k, &variables[k], numbers[k])?;
    }
    Ok(())
}

/// Appends the lines that set each variable whose number isn't the one before.
pub fn push_changes(
    out: &mut Vec<u8>,
    variables: &[Variable],
    before: &[u64],
    after: &[u64],
) -> Result<(), AllocError>
    requires widths { All (λ x. IsWidth x.width) variables.now }
    requires before { length before.now ≡ length variables.now }
    requires after { length after.now ≡ length variables.now }
    ensures text { OnOk result (out.new.items ≡ out.old.items ++ text_of (changes 0 variables.now before.now after.now)) }
    ensures room { vec_capacity out.old ≤ vec_capacity out.new }
    ensures full { OnErr result (vec_capacity out.old < length out.old.items + length (text_of (changes 0 variables.now before.now after.now))) }
{
    for k in 0..variables.len() {
        if before[k] != after[k] {
            push_set(out, k, &variables[k], after[k])?;
        }
    }
    Ok(())
}

/// Appends the line that declares the variable of a place.
fn push_declaration(out: &mut Vec<u8>, place: usize, variable: &Variable) -> Result<(), AllocError>
    ensures { OnOk result (out.new.items ≡ out.old.items ++ line (form_text (declaration place variable.now))) }
{
    out.extend_from_slice(b"$var reg ")?;
    push_numeral(out, u64::from(variable.width))?;
    out.extend_from_slice(b" ")?;
    push_identifier(out, place)?;
    out.extend_from_slice(b" ")?;
    out.extend_from_slice(variable.name.as_bytes())?;
    out.extend_from_slice(b" $end\n")
}

/// Appends the lines that declare the variables.
fn push_declarations(out: &mut Vec<u8>, variables: &[Variable]) -> Result<(), AllocError>
    ensures { OnOk result (out.new.items ≡ out.old.items ++ text_of (declarations 0 variables.now)) }
{
    for k in 0..variables.len() {
        push_declaration(out, k, &variables[k])?;
    }
    Ok(())
}

/// Appends the head of the dump of these variables, whose first numbers are these.
pub fn push_head(out: &mut Vec<u8>, variables: &[Variable], first: &[u64]) -> Result<(), AllocError>
    requires widths { All (λ x. IsWidth x.width) variables.now }
    requires numbers { length first.now ≡ length variables.now }
    ensures { OnOk result (out.new.items ≡ out.old.items ++ text_of (head variables.now first.now)) }
{
    out.extend_from_slice(b"$timescale 1ns $end\n$scope module top $end\n")?;
    push_declarations(out, variables)?;
    out.extend_from_slice(b"$upscope $end\n$enddefinitions $end\n")?;
    push_block(out, 0)?;
    push_all_set(out, variables, first)
}
