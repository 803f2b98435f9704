//! Pieces of lines, and what they are.

ghost use Rattle.std.specs.Prelude.{◌≡◌, ◌==◌, true, bytes_eq, position, IfNone, IfSome};
ghost use Rattle.std.specs.List.{list_all};
ghost use Rattle.sap_net.specs.Names.{is_keyword, is_name};
ghost use Rattle.sap_wave.specs.Digits.{are_digits, is_digit};
ghost use Rattle.sap_wave.specs.Lines.{is_id, is_number};
ghost use Rattle.sap_wave.specs.Pieces.{IsCut, is_not};

use sap_text::words::is_word;

/// What stands before a byte, and behind it.
#[derive(Clone, Copy)]
pub struct Halves<'a> {
    pub before: &'a [u8],
    pub behind: &'a [u8],
}

/// Whether both texts are the same bytes.
pub fn is_same(text: &[u8], other: &[u8]) -> bool
    ensures { result ≡ bytes_eq text.now other.now }
{
    text == other
}

fn find(text: &[u8], mark: u8) -> Option<usize>
    ensures { result ≡ position (λ b. b == mark) text.now }
{
    text.iter().position(|b| *b == mark)
}

/// Cuts a text at the first byte of this value.
pub fn cut_at(text: &[u8], mark: u8) -> Option<Halves<'_>>
    ensures none { IfNone result (list_all (is_not mark) text.now ≡ true) }
    ensures some { IfSome result (λ c. IsCut mark text.now c.before.now c.behind.now) }
{
    match find(text, mark) {
        None => None,
        Some(at) => Some(Halves {
            before: &text[..at],
            behind: &text[at + 1..],
        }),
    }
}

/// Whether a byte is one of so many digits, of which the first is this byte.
pub fn is_digit(b: u8, first: u8, base: u8) -> bool
    ensures { result ≡ is_digit first base b }
{
    b >= first && b - first < base
}

fn all_digits(text: &[u8], first: u8, base: u8) -> bool
    ensures { result ≡ list_all (is_digit first base) text.now }
{
    text.iter().all(|b| is_digit(*b, first, base))
}

/// Whether a text is one or more digits.
fn are_digits(text: &[u8], first: u8, base: u8) -> bool
    ensures { result ≡ are_digits first base text.now }
{
    !text.is_empty() && all_digits(text, first, base)
}

/// Whether a text is a decimal number without leading zeros.
pub fn is_number(text: &[u8]) -> bool
    ensures { result ≡ is_number text.now }
{
    are_digits(text, b'0', 10) && (text.len() == 1 || text[0] != b'0')
}

/// Whether a text is an identifier by its bytes.
pub fn is_id(text: &[u8]) -> bool
    ensures { result ≡ is_id text.now }
{
    are_digits(text, b'!', 94)
}

fn is_keyword(name: &[u8]) -> bool
    ensures { result ≡ is_keyword name.now }
{
    name == b"module".as_slice()
        || name == b"endmodule".as_slice()
        || name == b"input".as_slice()
        || name == b"output".as_slice()
        || name == b"reg".as_slice()
        || name == b"wire".as_slice()
        || name == b"assign".as_slice()
        || name == b"initial".as_slice()
        || name == b"always".as_slice()
        || name == b"posedge".as_slice()
        || name == b"if".as_slice()
        || name == b"for".as_slice()
        || name == b"integer".as_slice()
        || name == b"clk".as_slice()
        || name == b"i".as_slice()
}

/// Whether a text is a name of the module subset.
#[tactic(auto, unfolding(sap_net::specs::Names::is_name))]
pub fn is_name(text: &[u8]) -> bool
    ensures { result ≡ is_name text.now }
{
    is_word(text) && !is_keyword(text)
}
