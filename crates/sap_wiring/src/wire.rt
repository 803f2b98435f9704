//! Wires by the numbers of parts, entities and levels.

ghost use Rattle.std.specs.Prelude.{◌≡◌};

use sap_lattice::level::Level;
use std::marker::Model;

/// An entity of a part: the number of the part, from 0, and that of the entity in the part's design.
#[derive(Clone, Copy, PartialEq, Eq, Debug)]
pub struct Endpoint {
    part: usize,
    entity: u32,
}

impl Model for Endpoint {
    ghost use Rattle.sap_link.specs.Systems as link;

    ghost Value = { link.Endpoint };

    ghost view = { λ e. link.endpoint e.part e.entity };

    ghost inverse = { λ e. record { part = e.part; entity = e.entity } };
}

impl Endpoint {
    pub(crate) fn new(part: usize, entity: u32) -> Endpoint
        ensures part { result.part ≡ part }
        ensures entity { result.entity ≡ entity }
    {
        Endpoint { part, entity }
    }

    pub fn part(self) -> usize
        ensures { result ≡ self.part }
    {
        self.part
    }

    pub fn entity(self) -> u32
        ensures { result ≡ self.entity }
    {
        self.entity
    }
}

/// A wire from a register to an input, through a level where it has one.
#[derive(Clone, Copy, PartialEq, Eq, Debug)]
pub struct Wire {
    from: Endpoint,
    to: Endpoint,
    level: Option<Level>,
}

impl Model for Wire {
    ghost use Rattle.sap_link.specs.Systems as link;

    ghost Value = { link.Wire };

    ghost view = { λ w. record { from = w.from; to = w.to; level = w.level } };

    ghost inverse = { λ w. record { from = w.from; to = w.to; level = w.level } };
}

impl Wire {
    pub(crate) fn new(from: Endpoint, to: Endpoint, level: Option<Level>) -> Wire
        ensures from { result.from ≡ from }
        ensures to { result.to ≡ to }
        ensures level { result.level ≡ level }
    {
        Wire { from, to, level }
    }

    pub fn from(self) -> Endpoint
        ensures { result ≡ self.from }
    {
        self.from
    }

    pub fn to(self) -> Endpoint
        ensures { result ≡ self.to }
    {
        self.to
    }

    pub fn level(self) -> Option<Level>
        ensures { result ≡ self.level }
    {
        self.level
    }
}
