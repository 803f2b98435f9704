//! The numbers that the digits of a dump spell.

ghost use Rattle.std.specs.Prelude.{◌≡◌, ◌≢◌, ◌==◌, ◌+◌, ◌++◌, ◌<◌, ◌≤◌, ◌^◌, ℕ, true, false, bytes_eq, length, slice_index, IfNone, IfSome};
ghost use Rattle.std.specs.List.{list_all};
ghost use Rattle.std.specs.Str.Parse.{digits_value};
ghost use Rattle.sap_maps.specs.Ranges.{IsWidth};
ghost use Rattle.sap_wave.specs.Digits.{are_digits, bits_number, identifier, is_digit, number_spelled};

use crate::eights::eights_at;
use crate::pieces::is_digit;
use sap_text::scan::number;

/// An identifier of so many digits at most spells a number below 2^64.
const SHORT: usize = 9;

/// The digits at the front of a text, the number that they spell where they are few, and what stands behind them.
#[derive(Clone, Copy)]
pub struct Front<'a> {
    pub digits: &'a [u8],
    pub number: u64,
    pub behind: &'a [u8],
}

/// Takes the binary digits off the front of a text.
pub fn bits_at(text: &[u8]) -> Front<'_>
    ensures whole { text.now ≡ result.digits.now ++ result.behind.now }
    ensures digits { list_all (is_digit 48 2) result.digits.now ≡ true }
    ensures others { is_digit 48 2 (slice_index result.behind.now 0) ≡ false }
    ensures number { length result.digits.now ≤ 64 → result.number ≡ bits_number result.digits.now }
{
    let front = eights_at(text);
    let mut number = front.number;
    let mut count = front.count;
    'digits: while count < text.len() && is_digit(text[count], b'0', 2) {
        let digit = text[count] - b'0';
        number = number.wrapping_mul(2).wrapping_add(u64::from(digit));
        count += 1;
    }
    Front {
        digits: &text[..count],
        number,
        behind: &text[count..],
    }
}

/// Takes an identifier off the front of a text.
pub fn id_at(text: &[u8]) -> Front<'_>
    ensures whole { text.now ≡ result.digits.now ++ result.behind.now }
    ensures digits { list_all (is_digit 33 94) result.digits.now ≡ true }
    ensures others { is_digit 33 94 (slice_index result.behind.now 0) ≡ false }
    ensures number { length result.digits.now ≤ 9 → result.number ≡ number_spelled result.digits.now }
{
    let mut number = 0u64;
    let mut count = 0;
    'digits: while count < text.len() && is_digit(text[count], b'!', 94) {
        let digit = text[count] - b'!';
        number = number.wrapping_mul(94).wrapping_add(u64::from(digit));
        count += 1;
    }
    Front {
        digits: &text[..count],
        number,
        behind: &text[count..],
    }
}

/// The number that an identifier spells, if it is below 2^64.
fn spelled(id: &[u8]) -> Option<usize>
    requires { list_all (is_digit 33 94) id.now ≡ true }
    ensures none { IfNone result (2 ^ 64 ≤ number_spelled id.now) }
    ensures some { IfSome result (λ n. n ≡ number_spelled id.now) }
{
    let mut number = 0usize;
    for digit in id {
        number = number
            .checked_mul(94)?
            .checked_add(usize::from(*digit - b'!'))?;
    }
    Some(number)
}

/// Which of so many variables has an identifier.
pub fn identified(id: &[u8], count: usize) -> Option<usize>
    requires { are_digits 33 94 id.now ≡ true }
    ensures none { IfNone result ((k : ℕ) → k < count → id.now ≢ identifier k) }
    ensures within { IfSome result (λ k. k < count) }
    ensures is { IfSome result (λ k. id.now ≡ identifier k) }
{
    if id.len() > 1 && id[0] == b'!' {
        return None;
    }
    let number = spelled(id)?;
    if number < count { Some(number) } else { None }
}

/// Which of so many variables has an identifier, where a short one spells this number.
pub fn identified_by(id: &[u8], number: u64, count: usize) -> Option<usize>
    requires digits { are_digits 33 94 id.now ≡ true }
    requires number { length id.now ≤ 9 → number ≡ number_spelled id.now }
    ensures none { IfNone result ((k : ℕ) → k < count → id.now ≢ identifier k) }
    ensures within { IfSome result (λ k. k < count) }
    ensures is { IfSome result (λ k. id.now ≡ identifier k) }
{
    if id.len() > SHORT {
        return identified(id, count);
    }
    if id.len() > 1 && id[0] == b'!' {
        return None;
    }
    if number < count as u64 {
        Some(number as usize)
    } else {
        None
    }
}

/// Whether this is the identifier of the variable of a number.
pub fn has_identifier(id: &[u8], number: usize) -> bool
    requires digits { are_digits 33 94 id.now ≡ true }
    requires small { number + 1 < 2 ^ 64 }
    ensures { result ≡ bytes_eq id.now (identifier number) }
{
    match identified(id, number + 1) {
        Some(place) => place == number,
        None => false,
    }
}

/// The width that decimal digits are, from 1 to 64.
pub fn width(digits: &[u8]) -> Option<u32>
    ensures none { IfNone result (IsWidth (digits_value 10 digits.now) → ⊥) }
    ensures is { IfSome result (λ w. w ≡ digits_value 10 digits.now) }
    ensures width { IfSome result IsWidth }
{
    match number(10, digits) {
        Some(width) if (1..=64).contains(&width) => Some(width as u32),
        _ => None,
    }
}

/// Whether decimal digits spell a number.
pub fn is_number(digits: &[u8], wanted: u64) -> bool
    ensures { result ≡ (digits_value 10 digits.now == wanted) }
{
    match number(10, digits) {
        Some(number) => number == wanted,
        None => false,
    }
}
