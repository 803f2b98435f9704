//! Which byte strings have the form of a name, and which of them are keywords.

ghost use Rattle.std.specs.Prelude.{◌≡◌};
ghost use Rattle.std.specs.List.{list_all, list_any};
ghost use Rattle.std.specs.Str.{bytes_eq};
ghost use Rattle.sap_text.specs.Names.{is_word, is_inner, is_among, design_keywords};

use crate::scan::{Class, is_in, is_initial};

fn are_inner(bytes: &[u8]) -> bool
    ensures { result ≡ list_all is_inner bytes.now }
{
    bytes.iter().all(|c| is_in(Class::Inner, *c))
}

/// Whether these bytes have the form of a name; a keyword has it too.
pub fn is_word(bytes: &[u8]) -> bool
    ensures { result ≡ is_word bytes.now }
{
    match bytes.split_first() {
        Some((first, others)) => is_initial(*first) && are_inner(others),
        None => false,
    }
}

const KEYWORDS: [&[u8]; 17] = [
    b"input",
    b"reg",
    b"mem",
    b"state",
    b"dynamic",
    b"enforced",
    b"under",
    b"if",
    b"else",
    b"goto",
    b"fall",
    b"setTag",
    b"otherwise",
    b"tag",
    b"level",
    b"join",
    b"zext",
];

fn is_among(bytes: &[u8], words: &[&[u8]]) -> bool
    ensures { result ≡ list_any (λ word. bytes_eq bytes.now word.now) words.now }
{
    words.iter().any(|word| bytes == *word)
}

/// Whether these bytes are a keyword of the first version of the design language.
pub fn is_keyword(bytes: &[u8]) -> bool
    ensures { result ≡ is_among bytes.now design_keywords }
{
    is_among(bytes, KEYWORDS.as_slice())
}
