//! Rows in an array of bytes. Each call writes at a place and tells where the text ends, or stops where there is little room.

ghost use Rattle.std.specs.Prelude.{◌≡◌, ◌<◌, ◌≤◌, ◌+◌, ◌/◌, ◌%◌, ◌++◌, [], ◌∷◌, ℕ, List, IfSome, length, take};
ghost use Rattle.std.specs.Fmt.{decimal};
ghost use Rattle.sap_stim.specs.declared.flat.TheConstants.{MOST_SHOWN};
ghost use Rattle.sap_stim.specs.Rows.{AreLevelTexts, all_shown, at_level, row_text, shown, shown_of, shown_text};

use crate::head::RowHead;
use crate::label::RowLabel;
use crate::rows::level_of_tag;
use crate::short::{MOST_SHORT, Short, put_text};
use sap_lattice::lattice::Lattice;
use sap_text::digits::Digits;

/// How many bytes are written at most for a register whose label and level have short texts.
const MOST_SHOWN: usize = MOST_SHORT + 8 + MOST_SHORT;

// The two digits of each number below 100.
static PAIRS: [u8; 200] =
    *b"00010203040506070809101112131415161718192021222324252627282930313233343536373839404142434445464748495051525354555657585960616263646566676869707172737475767778798081828384858687888990919293949596979899";

/// Writes a byte.
pub(crate) fn put_byte(bytes: &mut [u8], at: usize, byte: u8) -> Option<usize>
    ensures { IfSome result (λ end. take end bytes.new ≡ take at bytes.old ++ byte ∷ []) }
{
    if at >= bytes.len() {
        return None;
    }
    bytes[at] = byte;
    Some(at + 1)
}

/// Writes a digit.
pub(crate) fn put_digit(bytes: &mut [u8], at: usize, digit: u64) -> usize
    requires digit { digit < 10 }
    requires room { at < length bytes.old }
    ensures text { take result bytes.new ≡ take at bytes.old ++ (48 + digit) ∷ [] }
    ensures end { result ≡ at + 1 }
{
    bytes[at] = b'0' + digit as u8;
    at + 1
}

// Writes two digits.
#[inline(always)]
fn put_pair(bytes: &mut [u8], at: usize, pair: u64) -> usize
    requires pair { pair < 100 }
    requires room { at + 2 ≤ length bytes.old }
    ensures text { take result bytes.new ≡ take at bytes.old ++ (48 + pair / 10) ∷ (48 + pair % 10) ∷ [] }
    ensures end { result ≡ at + 2 }
{
    let place = pair as usize * 2;
    bytes[at] = PAIRS[place];
    bytes[at + 1] = PAIRS[place + 1];
    at + 2
}

fn put_below_100(bytes: &mut [u8], at: usize, number: u64) -> usize
    requires number { number < 100 }
    requires room { at + 2 ≤ length bytes.old }
    ensures text { take result bytes.new ≡ take at bytes.old ++ decimal number }
    ensures end { result ≤ at + 2 }
{
    if number < 10 {
        return put_digit(bytes, at, number);
    }
    put_pair(bytes, at, number)
}

fn put_below_10000(bytes: &mut [u8], at: usize, number: u64) -> usize
    requires number { number < 10000 }
    requires room { at + 4 ≤ length bytes.old }
    ensures text { take result bytes.new ≡ take at bytes.old ++ decimal number }
    ensures end { result ≤ at + 4 }
{
    if number < 100 {
        return put_below_100(bytes, at, number);
    }
    let end = put_below_100(bytes, at, number / 100);
    put_pair(bytes, end, number % 100)
}

// Writes the last four digits of a number behind the others.
#[inline(always)]
fn put_four(bytes: &mut [u8], at: usize, number: u32) -> usize
    requires number { 10000 ≤ number }
    requires room { at + 4 ≤ length bytes.old }
    ensures text { (start : List ℕ) → take at bytes.old ≡ start ++ decimal (number / 10000) → take result bytes.new ≡ start ++ decimal number }
    ensures end { result ≡ at + 4 }
{
    let last = number % 10_000;
    let end = put_pair(bytes, at, u64::from(last / 100));
    put_pair(bytes, end, u64::from(last % 100))
}

// Writes a number of five to eight digits.
#[inline(always)]
fn put_long(bytes: &mut [u8], at: usize, number: u32) -> usize
    requires long { 10000 ≤ number }
    requires number { number < 100000000 }
    requires room { at + 8 ≤ length bytes.old }
    ensures text { take result bytes.new ≡ take at bytes.old ++ decimal number }
    ensures end { result ≤ at + 8 }
{
    let end = put_below_10000(bytes, at, u64::from(number / 10_000));
    put_four(bytes, end, number)
}

// Writes a number of at most eight digits.
#[inline(always)]
fn put_small(bytes: &mut [u8], at: usize, number: u64) -> usize
    requires number { number < 100000000 }
    requires room { at + 8 ≤ length bytes.old }
    ensures text { take result bytes.new ≡ take at bytes.old ++ decimal number }
    ensures end { result ≤ at + 8 }
{
    if number < 10_000 {
        return put_below_10000(bytes, at, number);
    }
    put_long(bytes, at, number as u32)
}

/// Writes a number in decimal digits.
pub(crate) fn put_number(bytes: &mut [u8], at: usize, number: u64) -> Option<usize>
    ensures { IfSome result (λ end. take end bytes.new ≡ take at bytes.old ++ decimal number) }
{
    if number < 100_000_000 && at <= bytes.len() && bytes.len() - at >= 8 {
        return Some(put_small(bytes, at, number));
    }
    put_text(bytes, at, Digits::new(number).as_bytes())
}

// Writes `@` and the text of a tag that has none made beforehand.
fn put_tag(bytes: &mut [u8], at: usize, tag: u64, lattice: &Lattice) -> Option<usize>
    ensures { IfSome result (λ end. take end bytes.new ≡ take at bytes.old ++ at_level lattice.now tag) }
{
    match level_of_tag(lattice, tag) {
        Some(level) => {
            let end = put_text(bytes, at, b"@")?;
            put_text(bytes, end, lattice.name(level).as_bytes())
        }
        None => {
            let end = put_text(bytes, at, b"@#")?;
            put_number(bytes, end, tag)
        }
    }
}

// Writes `@` and the text of a tag.
fn put_at_level(
    bytes: &mut [u8],
    at: usize,
    tag: u64,
    levels: &[Short],
    lattice: &Lattice,
) -> Option<usize>
    requires { AreLevelTexts lattice.now levels.now }
    ensures { IfSome result (λ end. take end bytes.new ≡ take at bytes.old ++ at_level lattice.now tag) }
{
    if tag < levels.len() as u64 {
        return levels[tag as usize].put(bytes, at);
    }
    put_tag(bytes, at, tag, lattice)
}

// Writes a register whose label and level have short texts, for which there is room.
#[inline(always)]
fn put_short(bytes: &mut [u8], at: usize, label: &Short, value: u64, level: &Short) -> usize
    requires value { value < 100000000 }
    requires room { at + MOST_SHOWN ≤ length bytes.old }
    ensures { take result bytes.new ≡ take at bytes.old ++ (label.now ++ (decimal value ++ level.now)) }
{
    let end = label.write(bytes, at);
    let end = put_small(bytes, end, value);
    level.write(bytes, end)
}

#[inline(always)]
fn put_shown(
    bytes: &mut [u8],
    at: usize,
    label: &RowLabel,
    value: u64,
    tag: u64,
    levels: &[Short],
    lattice: &Lattice,
) -> Option<usize>
    requires { AreLevelTexts lattice.now levels.now }
    ensures { IfSome result (λ end. take end bytes.new ≡ take at bytes.old ++ shown_text (shown lattice.now label.now value tag)) }
{
    let is_near = value < 100_000_000 && tag < levels.len() as u64;
    if is_near && at <= bytes.len() && bytes.len() - at >= MOST_SHOWN {
        if let Some(label) = label.short() {
            return Some(put_short(bytes, at, label, value, &levels[tag as usize]));
        }
    }
    let end = label.put(bytes, at)?;
    let end = put_number(bytes, end, value)?;
    put_at_level(bytes, end, tag, levels, lattice)
}

fn put_all(
    bytes: &mut [u8],
    at: usize,
    labels: &[RowLabel],
    values: &[u64],
    tags: &[u64],
    levels: &[Short],
    lattice: &Lattice,
) -> Option<usize>
    requires values { length values.now ≡ length labels.now }
    requires levels { AreLevelTexts lattice.now levels.now }
    requires tags { length tags.now ≡ length labels.now }
    ensures { IfSome result (λ end. take end bytes.new ≡ take at bytes.old ++ all_shown (shown_of lattice.now labels.now values.now tags.now)) }
{
    let mut end = at;
    for i in 0..labels.len() {
        end = put_shown(bytes, end, &labels[i], values[i], tags[i], levels, lattice)?;
    }
    put_byte(bytes, end, b'\n')
}

/// Writes a row at the front, its own front given, and tells where it ends; none where there is little room.
pub fn put_row(
    bytes: &mut [u8],
    head: &RowHead,
    labels: &[RowLabel],
    values: &[u64],
    tags: &[u64],
    levels: &[Short],
    lattice: &Lattice,
) -> Option<usize>
    requires values { length values.now ≡ length labels.now }
    requires levels { AreLevelTexts lattice.now levels.now }
    requires tags { length tags.now ≡ length labels.now }
    ensures { IfSome result (λ end. take end bytes.new ≡ row_text head.now (shown_of lattice.now labels.now values.now tags.now)) }
{
    let end = head.put(bytes)?;
    put_all(bytes, end, labels, values, tags, levels, lattice)
}
