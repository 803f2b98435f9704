//! Fields, read from the left while nothing is wrong.

ghost use Rattle.std.specs.Prelude.{◌≡◌, ◌==◌, ◌≤◌, ◌-◌, ◌++◌, [], ◌∷◌, All, IfSome, List, Ok, drop, length, take, ℕ};
ghost use Rattle.std.specs.List.{before_first, position_or_len};
ghost use Rattle.sap_text.specs.Lines.{split_at};
ghost use Rattle.sap_stim.specs.Line.{IsSized, fields_of, inputs_of};

use crate::ahead::{ends_line, field_ahead, field_len};
use crate::field::Field;
use crate::text::is_starred;
use sap_lattice::lattice::Lattice;
use sap_stream::inputs::Tagged;

/// Reads the fields of the line at the front of a text from the left, in one look, and gives where its last piece begins
/// and where it ends, where it has as many fields as are asked for and nothing is wrong with them. It ends before the
/// first LF, or with the text.
pub(crate) fn read_ahead(
    text: &[u8],
    fields: &[Field],
    lattice: &Lattice,
    inputs: &mut [Tagged],
) -> Option<(usize, usize)>
    requires widths { All IsSized fields.now }
    requires places { length inputs.old ≡ length fields.now }
    ensures end { IfSome result (λ r. r.1 ≡ position_or_len (λ b. b == 10) text.now) }
    ensures within { IfSome result (λ r. r.0 ≤ r.1) }
    ensures last { IfSome result (λ r. (others : List (List ℕ)) × (split_at 32 (before_first (λ b. b == 10) text.now) ≡ others ++ take (r.1 - r.0) (drop r.0 text.now) ∷ [])) }
    ensures count { IfSome result (λ r. length (fields_of (before_first (λ b. b == 10) text.now)) ≡ length fields.now) }
    ensures given { IfSome result (λ r. Ok inputs.new ≡ inputs_of lattice.now fields.now (fields_of (before_first (λ b. b == 10) text.now))) }
{
    let mut at = 0;
    for k in 0..fields.len() {
        let rest = &text[at..];
        let (input, size) = field_ahead(rest, fields[k], lattice, inputs[k].level())?;
        inputs[k] = input;
        if ends_line(rest, size) {
            if size < 1 || k + 1 < fields.len() || is_starred(&rest[..size]) {
                return None;
            }
            return Some((at, at + size));
        }
        at += size + 1;
    }
    let rest = &text[at..];
    let size = field_len(rest);
    if !ends_line(rest, size) {
        return None;
    }
    if !is_starred(&rest[..size]) {
        return None;
    }
    Some((at, at + size))
}

/// Reads the fields of a line from the left and gives its last piece, in one look, where it has as many fields
/// as are asked for and nothing is wrong with them.
pub(crate) fn read_along<'a>(
    line: &'a [u8],
    fields: &[Field],
    lattice: &Lattice,
    inputs: &mut [Tagged],
) -> Option<&'a [u8]>
    requires widths { All IsSized fields.now }
    requires places { length inputs.old ≡ length fields.now }
    ensures last { IfSome result (λ piece. (others : List (List ℕ)) × (split_at 32 line.now ≡ others ++ piece.now ∷ [])) }
    ensures count { IfSome result (λ piece. length (fields_of line.now) ≡ length fields.now) }
    ensures given { IfSome result (λ piece. Ok inputs.new ≡ inputs_of lattice.now fields.now (fields_of line.now)) }
{
    let (start, end) = read_ahead(line, fields, lattice, inputs)?;
    if end < line.len() {
        return None;
    }
    Some(&line[start..])
}
