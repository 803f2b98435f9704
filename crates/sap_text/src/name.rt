//! Names.

ghost use Rattle.std.specs.Prelude.{◌≡◌, ◌≤◌, ◌+◌, ◌++◌, true, [], ◌∷◌, IfOk, IsUtf8, length, string_bytes};
ghost use Rattle.std.specs.Fmt.{decimal};
ghost use Rattle.std.specs.List.{list_all};
ghost use Rattle.std.specs.Str.{bytes_eq};
ghost use Rattle.std.proofs.Common.{rules};
ghost use Rattle.std.specs.Cmp.{partial_equiv_from_equiv};
ghost use Rattle.std.specs.Cmp.Lexicographic.{nat_list_eq_equiv};
ghost use Rattle.std.specs.Cmp.Rules.{hashing};
ghost use Rattle.sap_text.specs.Names.{is_inner};

use crate::digits::Digits;
use std::alloc::{AllocError, Global};
use std::hash::{Hash, Hasher};
use std::marker::Model;
use std::{fmt, str};

/// The most bytes of a name that takes no memory of its own.
const MOST_SHORT: usize = 22;

/// The most letters in front of the number of a name.
pub const MOST_FRONT: usize = 2;

// A text in the value itself.
#[derive(Debug, Drop)]
struct ShortText {
    bytes: [u8; MOST_SHORT],
    len: u8,
}

impl Model for ShortText {
    ghost use Rattle.std.specs.Prelude.{◌≡◌, ◌≤◌, true, ℕ, List, length, take};
    ghost use Rattle.std.specs.Str.{is_utf8};

    ghost Value = { List ℕ };

    ghost view = { λ t. take t.len t.bytes };

    ghost invariant = { λ t. (t.len ≤ length t.bytes) × (is_utf8 (take t.len t.bytes) ≡ true) };
}

impl ShortText {
    fn new(text: &str) -> ShortText
        requires { length text.now ≤ MOST_SHORT }
        ensures { result ≡ text.now }
    {
        let len = text.len();
        let mut bytes = [0u8; MOST_SHORT];
        bytes[..len].copy_from_slice(text.as_bytes());
        ShortText {
            bytes,
            len: len as u8,
        }
    }

    // Letters, digits and `_`.
    fn spelled(text: &[u8]) -> ShortText
        requires inner { list_all is_inner text.now ≡ true }
        requires short { length text.now ≤ MOST_SHORT }
        ensures { result ≡ text.now }
    {
        let len = text.len();
        let mut bytes = [0u8; MOST_SHORT];
        bytes[..len].copy_from_slice(text);
        ShortText {
            bytes,
            len: len as u8,
        }
    }

    // These letters and this number.
    fn numbered(front: &str, number: u64) -> ShortText
        requires inner { list_all is_inner front.now ≡ true }
        requires short { length front.now ≤ MOST_FRONT }
        ensures { result ≡ front.now ++ decimal number }
    {
        let digits = Digits::new(number);
        let back = digits.as_bytes();
        let from = front.len();
        let end = from + back.len();
        let mut bytes = [0u8; MOST_SHORT];
        bytes[..from].copy_from_slice(front.as_bytes());
        bytes[from..end].copy_from_slice(back);
        ShortText {
            bytes,
            len: end as u8,
        }
    }

    // These letters and a name behind them.
    fn fronted(front: &str, name: &str) -> ShortText
        requires short { length front.now + length name.now ≤ MOST_SHORT }
        ensures { result ≡ front.now ++ name.now }
    {
        let from = front.len();
        let end = from + name.len();
        let mut bytes = [0u8; MOST_SHORT];
        bytes[..from].copy_from_slice(front.as_bytes());
        bytes[from..end].copy_from_slice(name.as_bytes());
        ShortText {
            bytes,
            len: end as u8,
        }
    }

    fn as_bytes(&self) -> &[u8]
        ensures value { result.now ≡ self.now }
        ensures text { IsUtf8 result.now }
    {
        &self.bytes[..self.len as usize]
    }

    fn as_str(&self) -> &str
        ensures { result.now ≡ self.now }
    {
        let Ok(text) = str::from_utf8(self.as_bytes()) else {
            unreachable!();
        };
        text
    }

    fn copy(&self) -> ShortText
        ensures { result ≡ self.now }
    {
        ShortText {
            bytes: self.bytes,
            len: self.len,
        }
    }
}

#[derive(Debug, Drop)]
enum Text {
    Short(ShortText),
    Long(String),
}

/// A name, seen as its bytes. A short one stands in the value itself.
#[derive(Debug, Drop)]
pub struct Name {
    text: Text,
}

// A name is seen as the list of its bytes.
impl Model for Name {
    ghost use Rattle.std.specs.Prelude.{ℕ, List};
    ghost use Rattle.sap_text.specs.NameTexts.{text_bytes};

    ghost Value = { List ℕ };

    ghost view = { λ n. text_bytes n.text };
}

impl Name {
    /// The name of this text.
    pub fn new(text: String) -> Name
        ensures { result ≡ string_bytes text }
    {
        if text.len() <= MOST_SHORT {
            return Name {
                text: Text::Short(ShortText::new(text.as_str())),
            };
        }
        Name {
            text: Text::Long(text),
        }
    }

    // The name of a copy of this text.
    fn of_copy(alloc: Global, text: &str) -> Result<Name, AllocError>
        ensures { IfOk result (λ n. n ≡ text.now) }
    {
        if text.len() <= MOST_SHORT {
            return Ok(Name {
                text: Text::Short(ShortText::new(text)),
            });
        }
        let long = String::from_str(alloc, text)?;
        Ok(Name {
            text: Text::Long(long),
        })
    }

    /// The name that these bytes spell, which are letters, digits and `_`.
    pub fn spelled(alloc: Global, bytes: &[u8]) -> Result<Name, AllocError>
        requires { list_all is_inner bytes.now ≡ true }
        ensures { IfOk result (λ n. n ≡ bytes.now) }
    {
        if bytes.len() <= MOST_SHORT {
            return Ok(Name {
                text: Text::Short(ShortText::spelled(bytes)),
            });
        }
        let Ok(text) = str::from_utf8(bytes) else {
            unreachable!();
        };
        Name::of_copy(alloc, text)
    }

    /// The name of these letters and this number. It takes no memory.
    pub fn numbered(front: &str, number: u64) -> Name
        requires inner { list_all is_inner front.now ≡ true }
        requires short { length front.now ≤ MOST_FRONT }
        ensures { result ≡ front.now ++ decimal number }
    {
        Name {
            text: Text::Short(ShortText::numbered(front, number)),
        }
    }

    /// The name of these letters and another name behind them. It takes no memory where that is short.
    pub fn fronted(alloc: Global, front: &str, name: &Name) -> Result<Name, AllocError>
        ensures { IfOk result (λ n. n ≡ front.now ++ name.now) }
    {
        let back = name.as_str();
        if front.len() <= MOST_SHORT && back.len() <= MOST_SHORT - front.len() {
            return Ok(Name {
                text: Text::Short(ShortText::fronted(front, back)),
            });
        }
        let mut text = String::with_capacity(alloc, front.len().saturating_add(back.len()))?;
        text.push_str(front)?;
        text.push_str(back)?;
        Ok(Name::new(text))
    }

    pub fn as_str(&self) -> &str
        ensures { result.now ≡ self.now }
    {
        match &self.text {
            Text::Short(text) => text.as_str(),
            Text::Long(text) => text.as_str(),
        }
    }

    pub fn as_bytes(&self) -> &[u8]
        ensures { result.now ≡ self.now }
    {
        match &self.text {
            Text::Short(text) => text.as_bytes(),
            Text::Long(text) => text.as_bytes(),
        }
    }

    /// Whether both are the same bytes.
    pub fn same(&self, other: &Name) -> bool
        ensures { result ≡ bytes_eq self.now other.now }
    {
        self.as_bytes() == other.as_bytes()
    }

    /// A second name of the same bytes.
    pub fn copy(&self, alloc: Global) -> Result<Name, AllocError>
        ensures { IfOk result (λ n. n ≡ self.now) }
    {
        match &self.text {
            Text::Short(text) => Ok(Name {
                text: Text::Short(text.copy()),
            }),
            Text::Long(text) => Name::of_copy(alloc, text.as_str()),
        }
    }
}

/// A second list of the same names.
pub fn copy_names(alloc: Global, names: &[Name]) -> Result<Vec<Name>, AllocError>
    ensures { IfOk result (λ copies. copies.items ≡ names.now) }
{
    let mut copies = Vec::new(alloc);
    for name in names {
        copies.push(name.copy(alloc)?)?;
    }
    Ok(copies)
}

impl PartialEq for Name {
    ghost eq = { bytes_eq };

    ghost laws = { partial_equiv_from_equiv nat_list_eq_equiv };

    fn eq(&self, other: &Name) -> bool {
        self.as_bytes() == other.as_bytes()
    }
}

impl Eq for Name {
    ghost laws = { nat_list_eq_equiv };
}

impl Hash for Name {
    ghost hash_input = { λ n. n ∷ [] };

    ghost respects_eq = { Prim.search (hashing, rules) };

    fn hash<H: Hasher>(&self, state: &mut H) {
        state.write(self.as_bytes());
    }
}

impl fmt::Display for Name {
    ghost use Rattle.std.specs.Prelude.{Some};

    ghost output = { λ n. Some n };

    fn fmt<W: fmt::Write>(&self, f: &mut fmt::Formatter<W>) -> fmt::Result {
        f.write_str(self.as_str())
    }
}
