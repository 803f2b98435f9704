//! Binary digits, eight at a time.

ghost use Rattle.std.specs.Prelude.{◌≡◌, ◌+◌, ◌<◌, ◌≤◌, true, drop, length, take, IfSome};
ghost use Rattle.std.specs.Int.{from_le_bytes, w64};
ghost use Rattle.std.specs.List.{list_all};
ghost use Rattle.sap_wave.specs.Digits.{bits, is_digit, spelled};

// The digit 0 in each byte of a word, the lowest bit of each, and the highest.
const ZEROS: u64 = 0x3030_3030_3030_3030;

const LOWEST: u64 = 0x0101_0101_0101_0101;

const HIGHEST: u64 = 0x8080_8080_8080_8080;

// Times this, the lowest bits of a word's bytes come to stand in its highest byte, and the bits of a byte one in each.
const MOVED: u64 = 0x8040_2010_0804_0201;

/// The eight binary digits of a number, the first in the lowest byte of a word.
fn word_of(number: u64) -> u64
    requires { number < 256 }
    ensures { result ≡ from_le_bytes w64 (bits 8 number) }
{
    ((number.wrapping_mul(MOVED) & HIGHEST) / 128).wrapping_add(ZEROS)
}

/// The number of the eight binary digits at a place, where eight stand there.
fn eight_at(text: &[u8], at: usize) -> Option<u64>
    ensures within { IfSome result (λ n. at + 8 ≤ length text.now) }
    ensures small { IfSome result (λ n. n < 256) }
    ensures digits { IfSome result (λ n. take 8 (drop at text.now) ≡ bits 8 n) }
{
    if at > text.len() || text.len() - at < 8 {
        return None;
    }
    let word = u64::from_le_bytes([
        text[at],
        text[at + 1],
        text[at + 2],
        text[at + 3],
        text[at + 4],
        text[at + 5],
        text[at + 6],
        text[at + 7],
    ]);
    let number = (word & LOWEST).wrapping_mul(MOVED) / 0x0100_0000_0000_0000;
    if word == word_of(number) {
        Some(number)
    } else {
        None
    }
}

/// So many binary digits, and the number that they spell where they are 64 at most.
#[derive(Clone, Copy)]
pub struct Eights {
    pub count: usize,
    pub number: u64,
}

/// Takes binary digits off the front of a text, eight at a time, as far as there are eight.
pub fn eights_at(text: &[u8]) -> Eights
    ensures within { result.count ≤ length text.now }
    ensures digits { list_all (is_digit 48 2) (take result.count text.now) ≡ true }
    ensures number { result.count ≤ 64 → result.number ≡ spelled 48 2 (take result.count text.now) }
{
    let mut number = 0u64;
    let mut count = 0;
    'eights: loop {
        let Some(eight) = eight_at(text, count) else {
            return Eights { count, number };
        };
        number = number.wrapping_mul(256).wrapping_add(eight);
        count += 8;
    }
}
