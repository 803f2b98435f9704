//! What the inputs of a design get in a cycle.

ghost use Rattle.std.specs.Prelude.{◌≡◌};

use sap_lattice::level::Level;
use std::marker::Model;

/// What an input gets: a number with its level.
#[derive(Clone, Copy, PartialEq, Eq, Debug)]
pub struct Tagged {
    number: u64,
    level: Level,
}

impl Model for Tagged {
    ghost use Rattle.sap_meaning.specs.Cycle.{Tagged as Given};

    ghost Value = { Given };

    ghost view = { λ t. record { number = t.number; level = t.level } };

    ghost inverse = { λ t. record { number = t.number; level = t.level } };
}

impl Tagged {
    pub fn new(number: u64, level: Level) -> Tagged
        ensures number { result.number ≡ number }
        ensures level { result.level ≡ level }
    {
        Tagged { number, level }
    }

    pub fn number(self) -> u64
        ensures { result ≡ self.number }
    {
        self.number
    }

    pub fn level(self) -> Level
        ensures { result ≡ self.level }
    {
        self.level
    }
}

/// What each input gets, in the order of their declaration.
#[derive(Debug, Drop)]
pub struct Inputs {
    pub values: Vec<Tagged>,
}

impl Model for Inputs {
    ghost use Rattle.std.specs.Prelude.{List};
    ghost use Rattle.sap_meaning.specs.Cycle.{Tagged as Given};

    ghost Value = { List Given };

    ghost view = { λ i. i.values.items };
}

impl Inputs {
    pub fn new(values: Vec<Tagged>) -> Inputs
        ensures { result ≡ values.items }
    {
        Inputs { values }
    }

    pub fn values(&self) -> &[Tagged]
        ensures { result.now ≡ self.now }
    {
        self.values.as_slice()
    }
}
