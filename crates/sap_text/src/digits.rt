//! A number in decimal digits, without memory. They are written from the last to the first, two at a time.

ghost use Rattle.std.specs.Prelude.{◌≡◌, ◌+◌, ◌/◌, ◌%◌, ◌<◌, ◌≤◌, ◌∷◌, ◌++◌, OnErr, OnOk, drop, length, vec_capacity};
ghost use Rattle.std.specs.Fmt.{decimal};

use std::alloc::AllocError;
use std::marker::Model;

/// The largest number of digits that a number has.
const MOST_DIGITS: usize = 20;

// The two digits of each number below 100.
static PAIRS: [u8; 200] =
    *b"00010203040506070809101112131415161718192021222324252627282930313233343536373839404142434445464748495051525354555657585960616263646566676869707172737475767778798081828384858687888990919293949596979899";

// Writes two digits at a place.
fn write_pair(pair: u64, bytes: &mut [u8], start: usize)
    requires small { pair < 100 }
    requires within { start + 2 ≤ length bytes.old }
    ensures { drop start bytes.new ≡ (48 + pair / 10) ∷ (48 + pair % 10) ∷ drop (start + 2) bytes.old }
{
    let place = pair as usize * 2;
    bytes[start] = PAIRS[place];
    bytes[start + 1] = PAIRS[place + 1];
}

// Writes the first one or two digits before a place, and tells where they start.
fn write_first(left: u64, bytes: &mut [u8], end: usize) -> usize
    requires small { left < 100 }
    requires room { length (decimal left) ≤ end }
    requires within { end ≤ length bytes.old }
    ensures text { drop result bytes.new ≡ decimal left ++ drop end bytes.old }
    ensures before { result ≤ end }
{
    if left < 10 {
        bytes[end - 1] = b'0' + left as u8;
        return end - 1;
    }
    write_pair(left, bytes, end - 2);
    end - 2
}

// Writes the digits of a number to the end of the bytes, and tells where they start.
fn write_digits(number: u64, bytes: &mut [u8; MOST_DIGITS]) -> usize
    ensures text { drop result bytes.new ≡ decimal number }
    ensures within { result ≤ MOST_DIGITS }
{
    let mut start = MOST_DIGITS;
    let mut left = number;
    while left >= 100 {
        start -= 2;
        write_pair(left % 100, bytes, start);
        left /= 100;
    }
    write_first(left, bytes, start)
}

/// The decimal digits of a number. They stand at the end of the array.
#[derive(Drop)]
pub struct Digits {
    bytes: [u8; MOST_DIGITS],
    start: usize,
}

impl Model for Digits {
    ghost use Rattle.std.specs.Prelude.{ℕ, List, ◌≤◌, drop, length};

    ghost Value = { List ℕ };

    ghost view = { λ d. drop d.start d.bytes };

    ghost invariant = { λ d. d.start ≤ length d.bytes };
}

impl Digits {
    /// The decimal digits of a number. It takes no memory.
    pub fn new(number: u64) -> Digits
        ensures { result ≡ decimal number }
    {
        let mut bytes = [0u8; MOST_DIGITS];
        let start = write_digits(number, &mut bytes);
        Digits { bytes, start }
    }

    pub fn as_bytes(&self) -> &[u8]
        ensures { result.now ≡ self.now }
    {
        &self.bytes[self.start..]
    }
}

/// Appends a number in decimal digits. It takes no memory where there is room for them.
pub fn push_number(out: &mut Vec<u8>, n: u64) -> Result<(), AllocError>
    ensures text { OnOk result (out.new.items ≡ out.old.items ++ decimal n) }
    ensures room { vec_capacity out.old ≤ vec_capacity out.new }
    ensures full { OnErr result (vec_capacity out.old < length out.old.items + length (decimal n)) }
{
    if n < 10 {
        out.push(b'0' + n as u8)?;
        return Ok(());
    }
    let digits = Digits::new(n);
    out.extend_from_slice(digits.as_bytes())
}
