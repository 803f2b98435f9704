//! Texts and files against what is wanted of them.

use crate::table::{Comparison, Held, State, Wanted};

fn is_within(part: &[u8], whole: &[u8]) -> bool {
    for start in 0..whole.len() {
        if whole[start..].starts_with(part) {
            return true;
        }
    }
    false
}

/// Whether what a channel gained is as it has to be.
pub(crate) fn fits(wanted: &Wanted, came: &[u8]) -> bool {
    let text = wanted.text.as_slice();
    match wanted.comparison {
        Comparison::Exactly => came == text,
        Comparison::Beginning => came.starts_with(text),
        Comparison::Part => is_within(text, came),
    }
}

/// The text that is wanted, where it is exact.
pub(crate) fn exact(wanted: &Wanted) -> &[u8] {
    match wanted.comparison {
        Comparison::Exactly => wanted.text.as_slice(),
        _ => &[],
    }
}

/// How often a word stands in a text; in what is no text it stands nowhere.
pub(crate) fn count_of(text: &[u8], word: &[u8]) -> u64 {
    let mut count = 0u64;
    for piece in std::str::from_utf8(text)
        .unwrap_or("")
        .split_ascii_whitespace()
    {
        if piece.as_bytes() == word {
            count = count.saturating_add(1);
        }
    }
    count
}

/// Whether a file is as it has to be.
pub(crate) fn is_held(held: &Held, came: Option<&[u8]>) -> bool {
    match held.state {
        State::Exactly => came == Some(held.file.bytes.as_slice()),
        State::Missing => came.is_none(),
        State::Changed => true,
        State::Words { least, most } => {
            let count = count_of(came.unwrap_or(&[]), &held.file.bytes);
            least <= count && count <= most
        }
    }
}

/// Whether a text begins with one of these.
pub(crate) fn begins_with_any(text: &[u8], beginnings: &[String]) -> bool {
    for beginning in beginnings {
        if text.starts_with(beginning.as_bytes()) {
            return true;
        }
    }
    false
}
