//! Bytes that were read and aren't taken yet.

ghost use Rattle.std.specs.Prelude.{◌≡◌, ◌==◌, ◌+◌, ◌++◌, ◌↔◌, ◌≤◌, [], IfOk, IsTrue, drop, length, true, vec_capacity};
ghost use Rattle.std.specs.List.{before_first, list_any};
ghost use Rattle.sap_lines.specs.Fetched.{EndsAt};
ghost use Rattle.sap_lines.specs.declared.TheConstants.{MOST_HELD};

use crate::MOST_HELD;
use sap_stim::cut;
use std::alloc::{AllocError, Global};
use std::marker::Model;

/// Bytes in the order in which they were read. It takes all its memory when it is made.
#[derive(Debug, Drop)]
pub struct Held {
    bytes: Vec<u8>,
    start: usize,
    // the place behind the last LF, or one not behind `start` where no LF is left
    ended: usize,
}

impl Model for Held {
    ghost use Rattle.std.specs.Prelude.{ℕ, List, ◌≤◌, drop, length, vec_capacity};
    ghost use Rattle.sap_lines.specs.Fetched.{EndsAt};
    ghost use Rattle.sap_lines.specs.declared.TheConstants.{MOST_HELD};

    ghost Value = { List ℕ };

    ghost view = { λ h. drop h.start h.bytes.items };

    ghost invariant = { λ h. (h.start ≤ length h.bytes.items) × (MOST_HELD ≤ vec_capacity h.bytes) × EndsAt h.start h.ended h.bytes.items };
}

// The place behind the last LF, or 0 where there is none.
fn last_end(bytes: &[u8]) -> usize
    ensures { EndsAt 0 result bytes.now }
{
    let mut at = bytes.len();
    while at > 0 && bytes[at - 1] != b'\n' {
        at -= 1;
    }
    at
}

// Takes the bytes before a place away.
fn shift(bytes: &mut Vec<u8>, start: usize)
    requires { start ≤ length bytes.old.items }
    ensures items { bytes.new.items ≡ drop start bytes.old.items }
    ensures capacity { vec_capacity bytes.new ≡ vec_capacity bytes.old }
{
    let end = bytes.len();
    bytes.copy_within(start..end, 0);
    bytes.truncate(end - start);
}

impl Held {
    pub fn new(alloc: Global) -> Result<Held, AllocError>
        ensures { IfOk result (λ held. held ≡ []) }
    {
        Ok(Held {
            bytes: Vec::with_capacity(alloc, MOST_HELD)?,
            start: 0,
            ended: 0,
        })
    }

    pub fn as_slice(&self) -> &[u8]
        ensures { result.now ≡ self.now }
    {
        &self.bytes[self.start..]
    }

    /// Whether there is an LF among the bytes. None is looked for.
    pub fn has_line(&self) -> bool
        ensures { IsTrue result ↔ (list_any (λ b. b == 10) self.now ≡ true) }
    {
        self.start < self.ended
    }

    /// The bytes before the first LF, or all where there is none.
    pub fn line(&self) -> &[u8]
        ensures { result.now ≡ before_first (λ b. b == 10) self.now }
    {
        let (line, _) = cut(self.as_slice(), b'\n');
        line
    }

    /// Takes bytes away at the front.
    pub fn skip(&mut self, count: usize)
        requires { count ≤ length self.old }
        ensures { self.new ≡ drop count self.old }
    {
        self.start += count;
    }

    /// Adds bytes at the end.
    pub fn add(&mut self, piece: &[u8])
        requires { length self.old + length piece.now ≤ MOST_HELD }
        ensures { self.new ≡ self.old ++ piece.now }
    {
        shift(&mut self.bytes, self.start);
        let ended = last_end(piece);
        self.ended = if ended > 0 {
            self.bytes.len() + ended
        } else {
            self.ended.saturating_sub(self.start)
        };
        self.start = 0;
        self.bytes.extend_from_slice(piece).unwrap();
    }
}
