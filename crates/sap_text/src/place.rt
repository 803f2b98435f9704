//! Places in a text.

ghost use Rattle.std.specs.Prelude.{◌≡◌, ◌≤◌, ◌<◌, ◌+◌, ◌^◌, length};
ghost use Rattle.sap_text.specs.Places.{first_place, place_after};

use std::fmt;

/// A line and a column in bytes, both from 1. A line ends at LF alone.
#[derive(Clone, Copy, PartialEq, Eq, Debug)]
pub struct Place {
    pub line: u64,
    pub column: u64,
}

impl Place {
    /// Where a text begins.
    pub fn first() -> Place
        ensures { result ≡ first_place }
    {
        Place { line: 1, column: 1 }
    }

    /// The place behind these bytes, which begin here.
    #[tactic(auto, using(crate::proofs::PlaceLemmas::places))]
    pub fn after(self, bytes: &[u8]) -> Place
        requires positive { 1 ≤ self.column }
        requires fits { self.line + self.column + length bytes.now < 2 ^ 64 }
        ensures value { result ≡ place_after self bytes.now }
        ensures positive { 1 ≤ result.column }
        ensures bound { result.line + result.column ≤ self.line + self.column + length bytes.now }
    {
        let Place {
            mut line,
            mut column,
        } = self;
        'bytes: for b in bytes {
            if *b == b'\n' {
                line += 1;
                column = 1;
            } else {
                column += 1;
            }
        }
        Place { line, column }
    }
}

impl fmt::Display for Place {
    ghost use Rattle.std.specs.Prelude.{Some};
    ghost use Rattle.sap_text.specs.Places.{place_text};

    ghost output = { λ place. Some (place_text place) };

    fn fmt<W: fmt::Write>(&self, f: &mut fmt::Formatter<W>) -> fmt::Result {
        let Place { line, column } = *self;
        write!(f, "{line}:{column}")
    }
}
