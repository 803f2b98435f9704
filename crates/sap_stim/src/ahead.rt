//! The field at the front of a text, in one look. It ends before the first space or LF.

ghost use Rattle.std.specs.Prelude.{◌≡◌, ◌==◌, ◌≤◌, ◌<◌, ◌⊎◌, IfSome, IsTrue, Ok, Some, length, slice_index_or, take, true};
ghost use Rattle.std.specs.Bool.{IsFalse};
ghost use Rattle.std.specs.Char.{is_ascii_digit};
ghost use Rattle.std.specs.List.{before_first, list_all, position_or_len};
ghost use Rattle.std.specs.Str.Parse.{digits_value};
ghost use Rattle.sap_lattice.specs.Levels.{level_named};
ghost use Rattle.sap_text.specs.Names.{is_word};
ghost use Rattle.sap_stim.specs.Line.{IsSized, field_of, tagged_of};

use crate::MOST_DIGITS;
use crate::field::Field;
use crate::value::{find_level, is_within, read_field};
use sap_lattice::lattice::Lattice;
use sap_lattice::level::Level;
use sap_stream::inputs::Tagged;

/// A number below this, a tenth of 2^64, has room for a further digit.
const LARGE: u64 = 1_844_674_407_370_955_161;

/// How many levels are tried, one after another, before a level is looked for by its name: the one of the line before,
/// and the first two of the lattice.
const TRIED_LEVELS: u8 = 3;

/// How many digits have room in 64 bits, whatever they are.
const FEW_DIGITS: usize = 19;

/// The number that the digits at the front of a text spell, and how many they are, up to 19.
#[inline(always)]
fn few_digits(text: &[u8]) -> (u64, usize)
    ensures within { result.1 ≤ length text.now }
    ensures digits { list_all is_ascii_digit (take result.1 text.now) ≡ true }
    ensures number { result.0 ≡ digits_value 10 (take result.1 text.now) }
{
    let most = if text.len() < FEW_DIGITS {
        text.len()
    } else {
        FEW_DIGITS
    };
    let mut number: u64 = 0;
    let mut count = 0;
    while count < most && text[count].is_ascii_digit() {
        number = number * 10 + u64::from(text[count] - b'0');
        count += 1;
    }
    (number, count)
}

/// The number that digits at the front of a text spell, and how many they are: all, where the number is small.
#[inline(always)]
fn leading_number(text: &[u8]) -> (u64, usize)
    ensures within { result.1 ≤ length text.now }
    ensures digits { list_all is_ascii_digit (take result.1 text.now) ≡ true }
    ensures number { result.0 ≡ digits_value 10 (take result.1 text.now) }
{
    let (number, count) = few_digits(text);
    if count < FEW_DIGITS || number >= LARGE {
        return (number, count);
    }
    if count >= text.len() || !text[count].is_ascii_digit() {
        return (number, count);
    }
    (number * 10 + u64::from(text[count] - b'0'), count + 1)
}

/// Whether a text ends at a place, or a space or an LF stands there.
#[inline(always)]
fn ends_at(text: &[u8], at: usize) -> bool
    ensures within { IsTrue result → at ≤ length text.now }
    ensures end { IsTrue result → (length text.now ≡ at) ⊎ (slice_index_or text.now at 0 ≡ 32) ⊎ (slice_index_or text.now at 0 ≡ 10) }
{
    if at >= text.len() {
        return at == text.len();
    }
    text[at] == b' ' || text[at] == b'\n'
}

/// Whether a text begins with a word.
#[inline(always)]
fn begins_with(text: &[u8], word: &[u8]) -> bool
    ensures { IsTrue result → take (length word.now) text.now ≡ word.now }
{
    if word.len() > text.len() {
        return false;
    }
    let mut k = 0;
    while k < word.len() {
        if text[k] != word[k] {
            return false;
        }
        k += 1;
    }
    true
}

/// Whether a word is the field at the front of a text.
#[inline(always)]
fn is_first(text: &[u8], word: &[u8]) -> bool
    requires { is_word word.now ≡ true }
    ensures end { IsTrue result → length word.now ≡ position_or_len (λ b. b == 32) (before_first (λ b. b == 10) text.now) }
    ensures within { IsTrue result → length word.now ≤ length text.now }
    ensures word { IsTrue result → word.now ≡ before_first (λ b. b == 32) (before_first (λ b. b == 10) text.now) }
{
    if !begins_with(text, word) {
        return false;
    }
    ends_at(text, word.len())
}

/// How long the name of a level is, where it is the field at the front of a text.
#[inline(always)]
fn name_ahead(text: &[u8], lattice: &Lattice, level: Level) -> Option<usize>
    ensures end { IfSome result (λ n. n ≡ position_or_len (λ b. b == 32) (before_first (λ b. b == 10) text.now)) }
    ensures within { IfSome result (λ n. n ≤ length text.now) }
    ensures level { IfSome result (λ n. Some level ≡ level_named lattice.now.names (before_first (λ b. b == 32) (before_first (λ b. b == 10) text.now))) }
{
    lattice.lawful();
    if u32::from(level.place()) >= lattice.count() {
        return None;
    }
    let name = lattice.name(level).as_bytes();
    if !is_first(text, name) {
        return None;
    }
    Some(name.len())
}

/// How long the field at the front of a text is.
pub(crate) fn field_len(text: &[u8]) -> usize
    ensures end { result ≡ position_or_len (λ b. b == 32) (before_first (λ b. b == 10) text.now) }
    ensures within { result ≤ length text.now }
{
    let mut size = 0;
    while size < text.len() && text[size] != b' ' && text[size] != b'\n' {
        size += 1;
    }
    size
}

/// The field at the front of a text.
fn first_field(text: &[u8]) -> &[u8]
    ensures field { result.now ≡ before_first (λ b. b == 32) (before_first (λ b. b == 10) text.now) }
    ensures end { length result.now ≡ position_or_len (λ b. b == 32) (before_first (λ b. b == 10) text.now) }
    ensures within { length result.now ≤ length text.now }
{
    let size = field_len(text);
    &text[..size]
}

/// The level whose name is the field at the front of a text. The level `last` is tried first, then the first few of the
/// lattice.
fn level_ahead(text: &[u8], lattice: &Lattice, last: Level) -> Option<(Level, usize)>
    ensures end { IfSome result (λ r. r.1 ≡ position_or_len (λ b. b == 32) (before_first (λ b. b == 10) text.now)) }
    ensures within { IfSome result (λ r. r.1 ≤ length text.now) }
    ensures level { IfSome result (λ r. Some r.0 ≡ level_named lattice.now.names (before_first (λ b. b == 32) (before_first (λ b. b == 10) text.now))) }
{
    let mut level = last;
    for place in 0..TRIED_LEVELS {
        if let Some(size) = name_ahead(text, lattice, level) {
            return Some((level, size));
        }
        level = Level::new(place);
    }
    let name = first_field(text);
    let level = find_level(lattice, name)?;
    Some((level, name.len()))
}

/// What the field of a value and a level at the front of a text gives, and where it ends, where the value is small and
/// nothing is wrong.
#[inline(always)]
fn tagged_ahead(text: &[u8], width: u32, lattice: &Lattice, last: Level) -> Option<(Tagged, usize)>
    requires wide { 1 ≤ width }
    requires narrow { width ≤ 64 }
    ensures end { IfSome result (λ r. r.1 ≡ position_or_len (λ b. b == 32) (before_first (λ b. b == 10) text.now)) }
    ensures within { IfSome result (λ r. r.1 ≤ length text.now) }
    ensures given { IfSome result (λ r. Ok r.0 ≡ tagged_of lattice.now width (before_first (λ b. b == 32) (before_first (λ b. b == 10) text.now))) }
{
    let (number, count) = leading_number(text);
    if count < 1 || count > MOST_DIGITS || !is_within(number, width) {
        return None;
    }
    if count >= text.len() || text[count] != b'@' {
        return None;
    }
    let (level, size) = level_ahead(&text[count + 1..], lattice, last)?;
    if size < 1 {
        return None;
    }
    Some((Tagged::new(number, level), count + 1 + size))
}

/// What the field at the front of a text gives, and where it ends, where nothing is wrong with it. The level `last` is
/// tried first.
#[inline(always)]
pub fn field_ahead(
    text: &[u8],
    field: Field,
    lattice: &Lattice,
    last: Level,
) -> Option<(Tagged, usize)>
    requires { IsSized field }
    ensures end { IfSome result (λ r. r.1 ≡ position_or_len (λ b. b == 32) (before_first (λ b. b == 10) text.now)) }
    ensures within { IfSome result (λ r. r.1 ≤ length text.now) }
    ensures given { IfSome result (λ r. Ok r.0 ≡ field_of lattice.now field (before_first (λ b. b == 32) (before_first (λ b. b == 10) text.now))) }
{
    if let Field::Tagged(width) = field {
        if let Some(found) = tagged_ahead(text, width, lattice, last) {
            return Some(found);
        }
    }
    let first = first_field(text);
    match read_field(first, field, lattice) {
        Ok(input) => Some((input, first.len())),
        Err(_) => None,
    }
}

/// Whether the line at the front of a text ends where its first field does.
#[inline(always)]
pub(crate) fn ends_line(text: &[u8], size: usize) -> bool
    requires { size ≡ position_or_len (λ b. b == 32) (before_first (λ b. b == 10) text.now) }
    ensures whole { IsTrue result → size ≡ position_or_len (λ b. b == 10) text.now }
    ensures more { IsFalse result → size < position_or_len (λ b. b == 10) text.now }
{
    if size >= text.len() {
        return true;
    }
    text[size] == b'\n'
}
