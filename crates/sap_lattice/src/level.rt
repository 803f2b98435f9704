// A level, seen as a number.

ghost use Rattle.std.specs.Prelude.{◌≡◌};

use std::marker::Model;

/// A level of a lattice: its place in the lattice file, from 0.
#[derive(Clone, Copy, PartialEq, Eq, Debug)]
pub struct Level {
    place: u8,
}

impl Model for Level {
    ghost use Rattle.std.specs.Prelude.{ℕ};

    ghost Value = { ℕ };

    ghost view = { λ l. l.place };

    ghost inverse = { λ n. record { place = n } };
}

impl Level {
    /// The level at this place.
    pub fn new(place: u8) -> Level
        ensures { result ≡ place }
    {
        Level { place }
    }

    pub fn place(self) -> u8
        ensures { result ≡ self }
    {
        self.place
    }
}
