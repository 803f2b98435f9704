//! Numbers as the digits of a dump.

ghost use Rattle.std.specs.Prelude.{◌≡◌, ◌+◌, ◌-◌, ◌/◌, ◌%◌, ◌<◌, ◌≤◌, ◌∷◌, ◌++◌, OnErr, OnOk, drop, length, vec_capacity};
ghost use Rattle.sap_wave.specs.Digits.{bits, identifier, numeral};

use sap_text::digits::push_number;
use std::alloc::AllocError;

/// How many identifiers have one digit.
const IDENTIFIER_BASE: usize = 94;

/// The largest number of binary digits that a number has.
const MOST_BITS: usize = 64;

// The four binary digits of each number below 16.
static QUADS: [u8; 64] = *b"0000000100100011010001010110011110001001101010111100110111101111";

/// Appends a number in base 10.
pub fn push_numeral(out: &mut Vec<u8>, number: u64) -> Result<(), AllocError>
    ensures text { OnOk result (out.new.items ≡ out.old.items ++ numeral number) }
    ensures room { vec_capacity out.old ≤ vec_capacity out.new }
    ensures full { OnErr result (vec_capacity out.old < length out.old.items + length (numeral number)) }
{
    push_number(out, number)
}

// Writes four binary digits at a place.
fn write_four(four: u64, bytes: &mut [u8], start: usize)
    requires small { four < 16 }
    requires within { start + 4 ≤ length bytes.old }
    ensures { drop start bytes.new ≡ (48 + four / 8) ∷ (48 + four / 4 % 2) ∷ (48 + four / 2 % 2) ∷ (48 + four % 2) ∷ drop (start + 4) bytes.old }
{
    let place = four as usize * 4;
    bytes[start] = QUADS[place];
    bytes[start + 1] = QUADS[place + 1];
    bytes[start + 2] = QUADS[place + 2];
    bytes[start + 3] = QUADS[place + 3];
}

// Writes so many binary digits of a number, or up to three more, to the end of the bytes.
fn write_bits(width: u32, number: u64, bytes: &mut [u8; MOST_BITS])
    requires { width ≤ 64 }
    ensures { drop (64 - width) bytes.new ≡ bits width number }
{
    let first = MOST_BITS - width as usize;
    let mut start = MOST_BITS;
    let mut left = number;
    while start > first {
        start -= 4;
        write_four(left % 16, bytes, start);
        left /= 16;
    }
}

/// Appends a number in so many binary digits, the highest first.
pub fn push_bits(out: &mut Vec<u8>, width: u32, number: u64) -> Result<(), AllocError>
    requires { width ≤ 64 }
    ensures text { OnOk result (out.new.items ≡ out.old.items ++ bits width number) }
    ensures room { vec_capacity out.old ≤ vec_capacity out.new }
    ensures full { OnErr result (vec_capacity out.old < length out.old.items + length (bits width number)) }
{
    if width == 1 {
        out.push(b'0' + (number % 2) as u8)?;
        return Ok(());
    }
    let mut bytes = [0u8; MOST_BITS];
    write_bits(width, number, &mut bytes);
    out.extend_from_slice(&bytes[MOST_BITS - width as usize..])
}

/// Appends the identifier of the variable of a number.
#[tactic(auto, using(crate::proofs::Written::identifiers))]
pub fn push_identifier(out: &mut Vec<u8>, number: usize) -> Result<(), AllocError>
    ensures text { OnOk result (out.new.items ≡ out.old.items ++ identifier number) }
    ensures room { vec_capacity out.old ≤ vec_capacity out.new }
    ensures full { OnErr result (vec_capacity out.old < length out.old.items + length (identifier number)) }
{
    if number < IDENTIFIER_BASE {
        out.push(b'!' + number as u8)?;
        return Ok(());
    }
    push_identifier(out, number / IDENTIFIER_BASE)?;
    out.push(b'!' + (number % IDENTIFIER_BASE) as u8)?;
    Ok(())
}

/// How many digits the identifier of the variable of a number has.
#[tactic(auto, using(crate::proofs::Written::identifiers))]
pub fn identifier_len(number: usize) -> usize
    ensures { result ≡ length (identifier number) }
{
    if number < IDENTIFIER_BASE {
        1
    } else {
        identifier_len(number / IDENTIFIER_BASE) + 1
    }
}
