//! What lexers are made of: runs of bytes of one class, white space, comments, and the numbers that digits spell.

ghost use Rattle.std.specs.Prelude.{◌≡◌, ◌≤◌, length, slice_index};
ghost use Rattle.std.specs.Char.{digit_value};
ghost use Rattle.sap_text.specs.Blanks.{is_blank, is_comment};
ghost use Rattle.sap_text.specs.Names.{is_initial};
ghost use Rattle.sap_text.specs.Runs.{is_in, number_of, run};

/// A class of bytes. A lexer takes as many bytes of one class as follow one another.
#[derive(Clone, Copy)]
pub enum Class {
    /// What a name goes on with.
    Inner,
    Decimal,
    Hexadecimal,
    /// What a comment goes on with.
    Comment,
}

/// Whether a byte is of a class.
pub fn is_in(class: Class, b: u8) -> bool
    ensures { result ≡ is_in class b }
{
    match class {
        Class::Inner => b.is_ascii_alphanumeric() || b == b'_',
        Class::Decimal => b.is_ascii_digit(),
        Class::Hexadecimal => b.is_ascii_hexdigit(),
        Class::Comment => b != b'\n',
    }
}

/// How many bytes of a class stand at the front of a text.
#[tactic(auto, using(crate::proofs::Runs::runs))]
pub fn run_len(class: Class, bytes: &[u8]) -> usize
    ensures value { result ≡ run class bytes.now }
    ensures within { result ≤ length bytes.now }
{
    let mut n = 0;
    'run: while n < bytes.len() && is_in(class, bytes[n]) {
        n += 1;
    }
    n
}

/// The byte at a place, and 0 behind the end of the text.
pub fn byte_at(bytes: &[u8], i: usize) -> u8
    ensures { result ≡ slice_index bytes.now i }
{
    if i < bytes.len() { bytes[i] } else { 0 }
}

/// The value of a digit of any base up to 36, in letters of either case.
fn digit_value(d: u8) -> u8
    ensures { result ≡ digit_value d }
{
    match d {
        b'0'..=b'9' => d - b'0',
        b'A'..=b'Z' => d - 55,
        b'a'..=b'z' => d - 87,
        _ => 36,
    }
}

/// The number that digits spell, if it is below 2^64.
#[tactic(auto, using(crate::proofs::Runs::digits))]
pub fn number(base: u64, digits: &[u8]) -> Option<u64>
    requires { 1 ≤ base }
    ensures { result ≡ number_of base digits.now }
{
    let mut n: u64 = 0;
    'digits: for d in digits {
        n = n
            .checked_mul(base)?
            .checked_add(u64::from(digit_value(*d)))?;
    }
    Some(n)
}

/// Whether a byte is white space.
pub fn is_blank(b: u8) -> bool
    ensures { result ≡ is_blank b }
{
    b == b' ' || b == b'\t' || b == b'\r' || b == b'\n'
}

/// Whether a comment begins at the front of a text.
pub fn is_comment(bytes: &[u8]) -> bool
    ensures { result ≡ is_comment bytes.now }
{
    byte_at(bytes, 0) == b'/' && byte_at(bytes, 1) == b'/'
}

/// Whether a name can begin with a byte.
pub fn is_initial(b: u8) -> bool
    ensures { result ≡ is_initial b }
{
    b.is_ascii_alphabetic() || b == b'_'
}
