//! Lines.

ghost use Rattle.std.specs.Prelude.{◌≡◌, ◌==◌, ◌<◌, ◌↔◌, All, IfOk, IfSome, MatchResult, None, Ok, OnOk, length, position, true};
ghost use Rattle.std.specs.List.{before_first, position_or_len};
ghost use Rattle.sap_stream.specs.Spans.{IsCount};
ghost use Rattle.sap_stim.specs.Fits.{LineFits};
ghost use Rattle.sap_stim.specs.Line.{IsSized, fields_of, inputs_of, line_of, with_inputs};

use crate::MOST_LINE_BYTES;
use crate::along::{read_ahead, read_along};
use crate::count::read_count;
use crate::fault::StimCode;
use crate::field::Field;
use crate::text::{count_fields, cut, find, last_piece};
use crate::value::read_field;
use sap_lattice::lattice::Lattice;
use sap_stream::inputs::{Inputs, Tagged};
use sap_stream::span::Span;
use std::alloc::{AllocError, Global};

/// Reads a line with as many fields as are asked for.
fn read_fields(
    line: &[u8],
    fields: &[Field],
    lattice: &Lattice,
    inputs: &mut [Tagged],
) -> Result<(), StimCode>
    requires widths { All IsSized fields.now }
    requires count { length (fields_of line.now) ≡ length fields.now }
    requires places { length inputs.old ≡ length fields.now }
    ensures { let given = inputs_of lattice.now fields.now (fields_of line.now) in
        MatchResult result (λ _. Ok inputs.new ≡ given) (λ code. Err code ≡ given) }
{
    let mut rest = line;
    for k in 0..fields.len() {
        let (text, behind) = cut(rest, b' ');
        match read_field(text, fields[k], lattice) {
            Ok(input) => inputs[k] = input,
            Err(code) => return Err(code),
        }
        rest = behind;
    }
    Ok(())
}

/// Reads a line, without its LF, and writes what it gives in place of `inputs`, one for each field, and
/// tells for how many cycles it stands; `ended` says whether it has an LF. It takes no memory.
pub fn read_line_into(
    line: &[u8],
    ended: bool,
    fields: &[Field],
    lattice: &Lattice,
    inputs: &mut [Tagged],
) -> Result<u32, StimCode>
    requires widths { All IsSized fields.now }
    requires places { length inputs.old ≡ length fields.now }
    ensures given { with_inputs result inputs.new ≡ line_of lattice.now fields.now ended line.now }
    ensures fits { OnOk result (LineFits lattice.now fields.now inputs.new) }
    ensures count { IfOk result IsCount }
{
    lattice.lawful();
    if line.len() > MOST_LINE_BYTES {
        return Err(StimCode::S1);
    }
    if !ended {
        return Err(StimCode::S5);
    }
    if let Some(last) = read_along(line, fields, lattice, inputs) {
        return read_count(last);
    }
    let piece = last_piece(line);
    if count_fields(line, piece) != fields.len() {
        return Err(StimCode::S4);
    }
    read_fields(line, fields, lattice, inputs)?;
    read_count(piece)
}

/// Reads the line at the front of a text, in one look, where it has an LF and nothing is wrong with it, and tells for
/// how many cycles it stands and how many bytes stand before its LF.
fn fast_line(
    text: &[u8],
    fields: &[Field],
    lattice: &Lattice,
    inputs: &mut [Tagged],
) -> Option<(u32, usize)>
    requires widths { All IsSized fields.now }
    requires places { length inputs.old ≡ length fields.now }
    ensures end { IfSome result (λ r. r.1 ≡ position_or_len (λ b. b == 10) text.now) }
    ensures within { IfSome result (λ r. r.1 < length text.now) }
    ensures given { IfSome result (λ r. with_inputs (Ok r.0) inputs.new ≡ line_of lattice.now fields.now true (before_first (λ b. b == 10) text.now)) }
    ensures fits { IfSome result (λ r. LineFits lattice.now fields.now inputs.new) }
    ensures count { IfSome result (λ r. IsCount r.0) }
{
    lattice.lawful();
    let (start, end) = read_ahead(text, fields, lattice, inputs)?;
    if end > MOST_LINE_BYTES || end >= text.len() {
        return None;
    }
    match read_count(&text[start..end]) {
        Ok(count) => Some((count, end)),
        Err(_) => None,
    }
}

/// Reads the line at the front of a text, once its LF is found.
#[inline(never)]
fn slow_line(
    text: &[u8],
    fields: &[Field],
    lattice: &Lattice,
    inputs: &mut [Tagged],
) -> Option<(Result<u32, StimCode>, usize)>
    requires widths { All IsSized fields.now }
    requires places { length inputs.old ≡ length fields.now }
    ensures none { (result ≡ None) ↔ (position (λ b. b == 10) text.now ≡ None) }
    ensures end { IfSome result (λ r. r.1 ≡ position_or_len (λ b. b == 10) text.now) }
    ensures within { IfSome result (λ r. r.1 < length text.now) }
    ensures given { IfSome result (λ r. with_inputs r.0 inputs.new ≡ line_of lattice.now fields.now true (before_first (λ b. b == 10) text.now)) }
    ensures fits { IfSome result (λ r. OnOk r.0 (LineFits lattice.now fields.now inputs.new)) }
    ensures count { IfSome result (λ r. IfOk r.0 IsCount) }
{
    let end = find(text, b'\n')?;
    let read = read_line_into(&text[..end], true, fields, lattice, inputs);
    Some((read, end))
}

/// Reads the line at the front of a text, writes what it gives in place of `inputs`, one for each field, and tells for how
/// many cycles it stands, or what is wrong with it, and how many bytes stand before its LF. It takes no memory. None is
/// that no LF stands in the text.
#[inline]
pub fn line_ahead(
    text: &[u8],
    fields: &[Field],
    lattice: &Lattice,
    inputs: &mut [Tagged],
) -> Option<(Result<u32, StimCode>, usize)>
    requires widths { All IsSized fields.now }
    requires places { length inputs.old ≡ length fields.now }
    ensures none { (result ≡ None) ↔ (position (λ b. b == 10) text.now ≡ None) }
    ensures end { IfSome result (λ r. r.1 ≡ position_or_len (λ b. b == 10) text.now) }
    ensures within { IfSome result (λ r. r.1 < length text.now) }
    ensures given { IfSome result (λ r. with_inputs r.0 inputs.new ≡ line_of lattice.now fields.now true (before_first (λ b. b == 10) text.now)) }
    ensures fits { IfSome result (λ r. OnOk r.0 (LineFits lattice.now fields.now inputs.new)) }
    ensures count { IfSome result (λ r. IfOk r.0 IsCount) }
    ensures places { length inputs.new ≡ length fields.now }
{
    if let Some((count, end)) = fast_line(text, fields, lattice, inputs) {
        return Some((Ok(count), end));
    }
    slow_line(text, fields, lattice, inputs)
}

/// What a line gives, without its LF; `ended` says whether it has one.
pub(crate) fn read_line(
    alloc: Global,
    line: &[u8],
    ended: bool,
    fields: &[Field],
    lattice: &Lattice,
) -> Result<Result<Span, StimCode>, AllocError>
    requires { All IsSized fields.now }
    ensures { IfOk result (λ given. given ≡ line_of lattice.now fields.now ended line.now) }
{
    let mut inputs: Vec<Tagged> = Vec::new(alloc);
    inputs.resize(fields.len(), Tagged::new(0, lattice.bottom()))?;
    match read_line_into(line, ended, fields, lattice, &mut inputs) {
        Ok(count) => Ok(Ok(Span::new(Inputs::new(inputs), count))),
        Err(code) => Ok(Err(code)),
    }
}
