//! The front of a row.

ghost use Rattle.std.specs.Prelude.{◌≡◌, ◌+◌, ◌<◌, ◌≤◌, ◌%◌, ◌++◌, ◌∷◌, [], IfSome, codes, length, take};
ghost use Rattle.std.specs.Fmt.{decimal};
ghost use Rattle.sap_stim.specs.declared.short.TheConstants.{MOST_SHORT};

use crate::flat::{put_byte, put_digit, put_number};
use crate::short::{MOST_SHORT, Short, put_text};
use std::marker::Model;

/// What stands in front of the registers of a row, seen as the row's cycle.
#[derive(Drop)]
pub struct RowHead {
    // all before the last digit of the cycle, where it is short
    front: Option<Short>,
    digit: u64,
    cycle: u64,
}

impl Model for RowHead {
    ghost use Rattle.std.specs.Prelude.{◌≡◌, ◌+◌, ◌%◌, ◌++◌, ◌∷◌, [], ℕ, IfSome, codes};
    ghost use Rattle.std.specs.Fmt.{decimal};

    ghost Value = { ℕ };

    ghost view = { λ h. h.cycle };

    ghost invariant = { λ h. (h.digit ≡ h.cycle % 10) × IfSome h.front (λ s. s ++ (48 + h.cycle % 10) ∷ [] ≡ codes "cycle " ++ decimal h.cycle) };
}

// Writes all before the last digit of a cycle.
fn put_front(bytes: &mut [u8], cycle: u64) -> Option<usize>
    ensures { IfSome result (λ end. take end bytes.new ++ (48 + cycle % 10) ∷ [] ≡ codes "cycle " ++ decimal cycle) }
{
    let end = put_text(bytes, 0, b"cycle ")?;
    if cycle < 10 {
        return Some(end);
    }
    put_number(bytes, end, cycle / 10)
}

// All before the last digit of a cycle, where it is short.
fn front_of(cycle: u64) -> Option<Short>
    ensures { IfSome result (λ s. s ++ (48 + cycle % 10) ∷ [] ≡ codes "cycle " ++ decimal cycle) }
{
    let mut bytes = [0u8; MOST_SHORT];
    match put_front(&mut bytes, cycle) {
        Some(end) if end <= bytes.len() => Short::new(&bytes[..end]),
        _ => None,
    }
}

// Writes the front of a row whose parts are known.
#[inline(always)]
fn put_parts(bytes: &mut [u8], front: &Short, digit: u64) -> usize
    requires digit { digit < 10 }
    requires room { MOST_SHORT + 2 ≤ length bytes.old }
    ensures { take result bytes.new ≡ front.now ++ (48 + digit) ∷ 58 ∷ [] }
{
    let end = front.write(bytes, 0);
    let end = put_digit(bytes, end, digit);
    bytes[end] = b':';
    end + 1
}

impl RowHead {
    /// The front of the row of a cycle.
    pub fn new(cycle: u64) -> RowHead
        ensures { result ≡ cycle }
    {
        RowHead {
            front: front_of(cycle),
            digit: cycle % 10,
            cycle,
        }
    }

    /// The cycle of the row.
    pub fn cycle(&self) -> u64
        ensures { result ≡ self.now }
    {
        self.cycle
    }

    /// Makes it the front of the row of another cycle. For the next cycle mostly a digit is raised.
    #[inline]
    pub fn turn_to(&mut self, cycle: u64)
        ensures { self.new ≡ cycle }
    {
        if self.digit < 9 && self.cycle < cycle && cycle - self.cycle == 1 {
            self.digit += 1;
            self.cycle = cycle;
        } else {
            *self = RowHead::new(cycle);
        }
    }

    /// Writes the front of the row at the front, and tells where it ends; none where there is little room.
    #[inline(always)]
    pub(crate) fn put(&self, bytes: &mut [u8]) -> Option<usize>
        ensures { IfSome result (λ end. take end bytes.new ≡ codes "cycle " ++ decimal self.now ++ codes ":") }
    {
        if let Some(front) = &self.front {
            if bytes.len() >= MOST_SHORT + 2 {
                return Some(put_parts(bytes, front, self.digit));
            }
        }
        let end = put_text(bytes, 0, b"cycle ")?;
        let end = put_number(bytes, end, self.cycle)?;
        put_byte(bytes, end, b':')
    }
}
