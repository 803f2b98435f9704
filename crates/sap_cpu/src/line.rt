//! A line of assembly.

ghost use Rattle.std.specs.Prelude.{◌≡◌, ◌==◌, ◌<◌, Some, position};
ghost use Rattle.std.specs.Char.{is_ascii_digit};
ghost use Rattle.std.specs.List.{after_first, before_first, list_all};
ghost use Rattle.sap_machine.specs.Assembly.{numbered, with_number, word_of};

use sap_machine::fault::AsmCode;
use sap_text::scan::number;

fn find(text: &[u8], mark: u8) -> Option<usize>
    ensures { result ≡ position (λ b. b == mark) text.now }
{
    text.iter().position(|b| *b == mark)
}

/// What stands before the first `mark`, or all where there is none, and what stands behind it.
pub(crate) fn cut(text: &[u8], mark: u8) -> (&[u8], &[u8])
    ensures before { result.0.now ≡ before_first (λ b. b == mark) text.now }
    ensures behind { result.1.now ≡ after_first (λ b. b == mark) text.now }
{
    match find(text, mark) {
        Some(at) => (&text[..at], &text[at + 1..]),
        None => (text, &text[text.len()..]),
    }
}

fn are_digits(text: &[u8]) -> bool
    ensures { result ≡ list_all is_ascii_digit text.now }
{
    text.iter().all(|b| b.is_ascii_digit())
}

/// The word of an operation and the number that these digits spell, which is to be at most the largest.
fn with_digits(operation: u16, largest: u8, digits: &[u8]) -> Result<u16, AsmCode>
    requires { operation < 8 }
    ensures { result ≡ numbered operation largest digits.now }
{
    if digits.is_empty() || digits.len() > 3 || !are_digits(digits) {
        return Err(AsmCode::B1);
    }
    match number(10, digits) {
        Some(value) if value <= u64::from(largest) => Ok(256 * operation + value as u16),
        _ => Err(AsmCode::B2),
    }
}

/// The word of a name and what stands behind the first space.
fn with_name(name: &[u8], digits: &[u8]) -> Result<u16, AsmCode>
    ensures { result ≡ with_number name.now digits.now }
{
    if name == b"ldi".as_slice() {
        with_digits(1, 255, digits)
    } else if name == b"ld".as_slice() {
        with_digits(2, 15, digits)
    } else if name == b"st".as_slice() {
        with_digits(3, 15, digits)
    } else if name == b"add".as_slice() {
        with_digits(4, 15, digits)
    } else if name == b"sub".as_slice() {
        with_digits(5, 15, digits)
    } else if name == b"jmp".as_slice() {
        with_digits(6, 15, digits)
    } else if name == b"jz".as_slice() {
        with_digits(7, 15, digits)
    } else {
        Err(AsmCode::B1)
    }
}

/// The word of a line.
pub(crate) fn read_word(text: &[u8]) -> Result<u16, AsmCode>
    ensures { result ≡ word_of text.now }
{
    if text == b"nop".as_slice() {
        return Ok(0);
    }
    if text == b"halt".as_slice() {
        return Ok(256 * 8);
    }
    let (name, digits) = cut(text, b' ');
    with_name(name, digits)
}
