//! For how many cycles a line stands.

ghost use Rattle.std.specs.Prelude.{◌≡◌, ◌&&◌, [], ◌∷◌, IfOk, length, nat_le, if◌then◌else◌};
ghost use Rattle.std.specs.Char.{is_ascii_digit};
ghost use Rattle.std.specs.List.{list_all};
ghost use Rattle.std.specs.Str.Parse.{digits_value};
ghost use Rattle.sap_stream.specs.Spans.{IsCount};
ghost use Rattle.sap_stim.specs.Line.{count_in, count_of, is_count};

use crate::fault::StimCode;
use crate::text::is_starred;
use crate::value::are_digits;
use crate::{MOST_COUNT, MOST_COUNT_DIGITS};
use sap_text::scan::number;

fn are_few_digits(digits: &[u8]) -> bool
    ensures { result ≡ (list_all is_ascii_digit digits.now && nat_le 1 (length digits.now) && nat_le (length digits.now) 5) }
{
    are_digits(digits) && 1 <= digits.len() && digits.len() <= MOST_COUNT_DIGITS
}

/// Whether a line can stand for so many cycles.
fn is_within(count: u64) -> bool
    ensures { result ≡ (nat_le 1 count && nat_le count 65535) }
{
    1 <= count && count <= MOST_COUNT
}

/// The number that stands behind the `*`.
fn read_digits(digits: &[u8]) -> Result<u32, StimCode>
    ensures { result ≡ (if is_count digits.now then Ok (digits_value 10 digits.now) else Err StimCode.S6) }
{
    if !are_few_digits(digits) {
        return Err(StimCode::S6);
    }
    match number(10, digits) {
        Some(count) if is_within(count) => Ok(count as u32),
        _ => Err(StimCode::S6),
    }
}

/// For how many cycles a line with this last piece stands.
pub fn read_count(piece: &[u8]) -> Result<u32, StimCode>
    ensures number { result ≡ count_of (count_in (piece.now ∷ [])) }
    ensures within { IfOk result IsCount }
{
    if !is_starred(piece) {
        return Ok(1);
    }
    read_digits(&piece[1..])
}
