//! Short texts.

ghost use Rattle.std.specs.Prelude.{◌≡◌, ◌<◌, ◌≤◌, ◌+◌, ◌++◌, IfNone, IfSome, length, take};
ghost use Rattle.sap_stim.specs.declared.short.TheConstants.{MOST_SHORT};

use std::marker::Model;

/// The largest number of bytes in a short text.
pub const MOST_SHORT: usize = 32;

/// A text of at most 32 bytes, in an array, so that it is copied whole, however long it is.
#[derive(Drop)]
pub struct Short {
    bytes: [u8; MOST_SHORT],
    len: usize,
}

impl Model for Short {
    ghost use Rattle.std.specs.Prelude.{ℕ, List, ◌≤◌, take, length};

    ghost Value = { List ℕ };

    ghost view = { λ s. take s.len s.bytes };

    ghost invariant = { λ s. s.len ≤ length s.bytes };
}

impl Short {
    /// The text, where it is short.
    pub fn new(text: &[u8]) -> Option<Short>
        ensures text { IfSome result (λ s. s ≡ text.now) }
        ensures long { IfNone result (MOST_SHORT < length text.now) }
    {
        if text.len() > MOST_SHORT {
            return None;
        }
        let mut bytes = [0u8; MOST_SHORT];
        bytes[..text.len()].copy_from_slice(text);
        Some(Short {
            bytes,
            len: text.len(),
        })
    }

    pub fn as_slice(&self) -> &[u8]
        ensures { result.now ≡ self.now }
    {
        &self.bytes[..self.len]
    }

    /// Writes the text at a place, and tells where it ends. It writes behind it too, for which there is room.
    #[inline(always)]
    pub(crate) fn write(&self, bytes: &mut [u8], at: usize) -> usize
        requires { at + MOST_SHORT ≤ length bytes.old }
        ensures text { take result bytes.new ≡ take at bytes.old ++ self.now }
        ensures end { result ≤ at + MOST_SHORT }
    {
        // a copy lies apart from the bytes that are written, so that it goes through registers
        let text = self.bytes;
        bytes[at..at + MOST_SHORT].copy_from_slice(&text);
        at + self.len
    }

    /// Writes the text at a place, and tells where it ends. It writes behind it too, for which there must be room.
    #[inline(always)]
    pub fn put(&self, bytes: &mut [u8], at: usize) -> Option<usize>
        ensures text { IfSome result (λ end. take end bytes.new ≡ take at bytes.old ++ self.now) }
        ensures no_room { IfNone result (length bytes.old < at + MOST_SHORT) }
    {
        if at > bytes.len() || bytes.len() - at < MOST_SHORT {
            return None;
        }
        Some(self.write(bytes, at))
    }
}

/// Writes a text of any length at a place, and tells where it ends.
pub fn put_text(bytes: &mut [u8], at: usize, text: &[u8]) -> Option<usize>
    ensures { IfSome result (λ end. take end bytes.new ≡ take at bytes.old ++ text.now) }
{
    if at > bytes.len() || bytes.len() - at < text.len() {
        return None;
    }
    bytes[at..at + text.len()].copy_from_slice(text);
    Some(at + text.len())
}
