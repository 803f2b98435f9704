// A set of levels.

ghost use Rattle.std.specs.Prelude.{◌≡◌, ◌<◌, ◌^◌, bit_or};
ghost use Rattle.sap_lattice.specs.Rows.{holds};

use std::marker::Model;

/// A set of levels, one bit for each.
#[derive(Clone, Copy)]
pub struct LevelSet {
    bits: u64,
}

impl Model for LevelSet {
    ghost use Rattle.std.specs.Prelude.{ℕ};

    ghost Value = { ℕ };

    ghost view = { λ s. s.bits };

    ghost inverse = { λ n. record { bits = n } };
}

impl LevelSet {
    pub fn empty() -> LevelSet
        ensures { result ≡ 0 }
    {
        LevelSet { bits: 0 }
    }

    #[tactic(auto, unfolding(crate::specs::Rows::holds))]
    pub fn contains(self, place: usize) -> bool
        requires { place < 64 }
        ensures { result ≡ holds self place }
    {
        (self.bits >> place) & 1 == 1
    }

    /// This set with the level at this place.
    pub fn with(self, place: usize) -> LevelSet
        requires { place < 64 }
        ensures { result ≡ bit_or self (2 ^ place) }
    {
        LevelSet {
            bits: self.bits | 1 << place,
        }
    }

    pub fn union(self, other: LevelSet) -> LevelSet
        ensures { result ≡ bit_or self other }
    {
        LevelSet {
            bits: self.bits | other.bits,
        }
    }
}
