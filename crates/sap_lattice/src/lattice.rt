// Lattices.

ghost use Rattle.std.specs.Prelude.{◌≡◌, ◌≢◌, ◌<◌, ◌==◌, ℕ, IfOk, IfSome, MatchOption, length, position, slice_index_or, [], nat_lt, if◌then◌else◌};
ghost use Rattle.sap_lattice.specs.Codes.{Codes, code_of, width_of};
ghost use Rattle.sap_lattice.specs.Finite.{HasJoins};
ghost use Rattle.sap_lattice.specs.Lawful.{IsAntisymmetric, IsNarrow};
ghost use Rattle.sap_lattice.specs.Levels.{order_of, level_in, level_named};
ghost use Rattle.sap_lattice.specs.Order.{Laws};
ghost use Rattle.sap_lattice.specs.Rows.{le_in, order_in};
ghost use Rattle.sap_lattice.specs.Rules.{KeepsNames};

use crate::codes::{codes_of, meet_irreducibles};
use crate::guesses::Guesses;
use crate::level::Level;
use crate::name::Name;
use crate::order::greatest;
use crate::relation::Relation;
use crate::rules::place_of;
use sap_text::name::copy_names;
use std::alloc::{AllocError, Global};
use std::marker::Model;

/// A finite lattice of 2 to `MOST_LEVELS` named levels, seen as their names and their order.
///
/// A `Level` that is none of a lattice counts as its first.
#[derive(Drop)]
pub struct Lattice {
    names: Vec<Name>,
    codes: Vec<u64>,
    width: u32,
    bottom: Level,
    top: Level,
    by_name: Guesses,
    by_code: Guesses,
}

impl Model for Lattice {
    ghost use Rattle.sap_lattice.specs.Levels.{Levels};

    ghost Value = { Levels };

    ghost use Rattle.sap_lattice.specs.Kept.{levels_of, IsKept};

    ghost view = { λ a. levels_of a.names.items a.codes.items };

    ghost invariant = { λ a. IsKept (levels_of a.names.items a.codes.items) a.codes.items a.width a.bottom a.top };
}

impl Lattice {
    /// The lattice of these names in this order, of which `bottom` is the least level.
    pub(crate) fn encode(
        alloc: Global,
        names: &[Name],
        order: &Relation,
        bottom: usize,
    ) -> Result<Lattice, AllocError>
        requires names { KeepsNames names.now }
        requires count { length order.now ≡ length names.now }
        requires joins { HasJoins (length order.now) (le_in order.now) }
        requires bottom { bottom ≡ (order_in order.now).bottom }
        ensures names { IfOk result (λ l. l.names ≡ names.now) }
        ensures order { IfOk result (λ l. order_of l ≡ order_in order.now) }
    {
        let top = greatest(order).unwrap_or(0);
        let irreducibles = meet_irreducibles(alloc, order, top)?;
        let codes = codes_of(alloc, order, irreducibles.as_slice())?;
        let names = copy_names(alloc, names)?;
        let by_name = Guesses::of_names(names.as_slice());
        let by_code = Guesses::of_codes(codes.as_slice());
        Ok(Lattice {
            names,
            codes,
            width: irreducibles.len() as u32,
            bottom: Level::new(bottom as u8),
            top: Level::new(top as u8),
            by_name,
            by_code,
        })
    }

    /// The laws of the order and of the codes.
    pub fn lawful(&self)
        ensures names { KeepsNames self.now.names }
        ensures order { Laws (order_of self.now) }
        ensures antisymmetric { IsAntisymmetric (order_of self.now) }
        ensures codes { Codes (order_of self.now) }
        ensures narrow { IsNarrow (order_of self.now) }
    {
        let _ = &self.width;
    }

    /// How many levels there are.
    pub fn count(&self) -> u32
        ensures names { result ≡ length self.now.names }
        ensures levels { result ≡ (order_of self.now).count }
    {
        self.names.len() as u32
    }

    /// The number of bits in a code.
    pub fn width(&self) -> u32
        ensures { result ≡ width_of (order_of self.now) }
    {
        self.width
    }

    pub fn bottom(&self) -> Level
        ensures { result ≡ (order_of self.now).bottom }
    {
        self.bottom
    }

    pub fn top(&self) -> Level
        ensures { result ≡ (order_of self.now).top }
    {
        self.top
    }

    /// The place of a level; that of the first for one that is none of this lattice.
    fn place(&self, level: Level) -> usize
        ensures place { result ≡ level_in (length self.now.names) level }
        ensures within { result < length self.now.names }
    {
        let place = usize::from(level.place());
        if place < self.names.len() { place } else { 0 }
    }

    /// The level at a place, from 0, or the top where there is none.
    pub fn level_at(&self, place: u64) -> Level
        ensures { result ≡ (if nat_lt place (length self.now.names) then place else (order_of self.now).top) }
    {
        if place < self.names.len() as u64 {
            Level::new(place as u8)
        } else {
            self.top
        }
    }

    pub fn name(&self, level: Level) -> &Name
        ensures { result.now ≡ slice_index_or self.now.names (level_in (length self.now.names) level) [] }
    {
        &self.names[self.place(level)]
    }

    pub fn code(&self, level: Level) -> u64
        ensures { result ≡ code_of (order_of self.now) level }
    {
        self.codes[self.place(level)]
    }

    pub fn le(&self, x: Level, y: Level) -> bool
        ensures { result ≡ (order_of self.now).le x y }
    {
        self.lawful();
        let upper = self.code(y);
        self.code(x) | upper == upper
    }

    /// The level that a guess gives, where it has this code.
    fn guess_code(&self, code: u64) -> Option<Level>
        ensures { let o = order_of self.now in IfSome result (λ x. (x < o.count) × (code_of o x ≡ code)) }
    {
        let level = Level::new(self.by_code.of_code(code));
        if u32::from(level.place()) < self.count() && self.code(level) == code {
            Some(level)
        } else {
            None
        }
    }

    /// The level that has this code, looked for among all.
    fn search_code(&self, code: u64) -> Option<Level>
        ensures { let o = order_of self.now in
            MatchOption result ((x : ℕ) → x < o.count → code_of o x ≢ code) (λ x. (x < o.count) × (code_of o x ≡ code)) }
    {
        let place = place_of_code(self.codes.as_slice(), code)?;
        Some(Level::new(place as u8))
    }

    /// The level that has this code.
    pub fn level_of_code(&self, code: u64) -> Option<Level>
        ensures { let o = order_of self.now in
            MatchOption result ((x : ℕ) → x < o.count → code_of o x ≢ code) (λ x. (x < o.count) × (code_of o x ≡ code)) }
    {
        match self.guess_code(code) {
            Some(level) => Some(level),
            None => self.search_code(code),
        }
    }

    /// The least upper bound.
    pub fn join(&self, x: Level, y: Level) -> Level
        ensures { result ≡ (order_of self.now).join x y }
    {
        self.lawful();
        self.level_of_code(self.code(x) | self.code(y)).unwrap()
    }

    /// The level that a guess gives, where these bytes are its name.
    fn guess_name(&self, name: &[u8]) -> Option<Level>
        ensures { let names = self.now.names in IfSome result (λ x. (x < length names) × (slice_index_or names x [] ≡ name.now)) }
    {
        let level = Level::new(self.by_name.of_name(name));
        if u32::from(level.place()) < self.count() && self.name(level).as_bytes() == name {
            Some(level)
        } else {
            None
        }
    }

    /// The level whose name these bytes are, looked for among all.
    fn search_name(&self, name: &[u8]) -> Option<Level>
        ensures { result ≡ level_named self.now.names name.now }
    {
        self.lawful();
        let place = place_of(self.names.as_slice(), name)?;
        Some(Level::new(place as u8))
    }

    /// The level whose name these bytes are.
    pub fn level_named(&self, name: &[u8]) -> Option<Level>
        ensures { result ≡ level_named self.now.names name.now }
    {
        self.lawful();
        match self.guess_name(name) {
            Some(level) => Some(level),
            None => self.search_name(name),
        }
    }

    /// The level that has this name.
    pub fn find(&self, name: &str) -> Option<Level>
        ensures { let names = self.now.names in
            MatchOption result
            ((x : ℕ) → x < length names → slice_index_or names x [] ≢ name.now)
            (λ x. (x < length names) × (slice_index_or names x [] ≡ name.now)) }
    {
        self.level_named(name.as_bytes())
    }

    /// A second lattice of the same levels.
    pub fn copy(&self, alloc: Global) -> Result<Lattice, AllocError>
        ensures { IfOk result (λ l. l ≡ self.now) }
    {
        let names = copy_names(alloc, self.names.as_slice())?;
        let codes = self.codes.as_slice().to_vec(alloc)?;
        Ok(Lattice {
            names,
            codes,
            width: self.width,
            bottom: self.bottom,
            top: self.top,
            by_name: self.by_name,
            by_code: self.by_code,
        })
    }
}

fn place_of_code(codes: &[u64], code: u64) -> Option<usize>
    ensures { result ≡ position (λ c. c == code) codes.now }
{
    codes.iter().position(|c| *c == code)
}
