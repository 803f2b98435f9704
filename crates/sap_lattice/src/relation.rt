// A relation between the levels of a lattice that is being built.

ghost use Rattle.std.specs.Prelude.{◌≡◌, ◌<◌, ◌≤◌, ◌&&◌, ◌||◌, ◌==◌, nat_lt, ℕ, true, length, IfOk};
ghost use Rattle.sap_lattice.specs.Rows.{tells, Reaches, order_in};

use crate::MOST_LEVELS;
use crate::set::LevelSet;
use std::alloc::{AllocError, Global};
use std::marker::Model;

/// A relation between the numbers below a count: row x is the set of the levels that x is related to.
#[derive(Drop)]
pub struct Relation {
    rows: Vec<LevelSet>,
}

impl Model for Relation {
    ghost use Rattle.std.specs.Prelude.{ℕ, List, length, ◌≤◌};
    ghost use Rattle.sap_lattice.specs.declared.TheConstants.{MOST_LEVELS};

    ghost Value = { List ℕ };

    ghost view = { λ r. r.rows.items };

    ghost invariant = { λ r. length r.rows.items ≤ MOST_LEVELS };
}

impl Relation {
    /// Each of `count` levels is related to itself.
    pub fn equality(alloc: Global, count: usize) -> Result<Relation, AllocError>
        requires { count ≤ MOST_LEVELS }
        ensures count { IfOk result (λ r. length r ≡ count) }
        ensures itself { IfOk result (λ r. (x y : ℕ) → tells r x y ≡ (nat_lt x count && x == y)) }
    {
        let mut rows = Vec::new(alloc);
        for place in 0..count {
            rows.push(LevelSet::empty().with(place))?;
        }
        Ok(Relation { rows })
    }

    pub fn count(&self) -> usize
        ensures same { result ≡ length self.now }
        ensures small { result ≤ MOST_LEVELS }
    {
        self.rows.len()
    }

    pub fn tells(&self, x: usize, y: usize) -> bool
        requires left { x < length self.now }
        requires right { y < length self.now }
        ensures { result ≡ tells self.now x y }
    {
        self.rows[x].contains(y)
    }

    /// Whether x is at or below y in the order that this relation tells.
    pub fn le(&self, x: usize, y: usize) -> bool
        requires left { x < length self.now }
        requires right { y < length self.now }
        ensures { result ≡ (order_in self.now).le x y }
    {
        self.tells(x, y)
    }

    /// Relates x to y.
    pub fn relate(&mut self, x: usize, y: usize)
        requires left { x < length self.old }
        requires right { y < length self.old }
        ensures count { length self.new ≡ length self.old }
        ensures both { (u v : ℕ) → tells self.new u v ≡ (tells self.old u v || (u == x && v == y)) }
    {
        self.rows[x] = self.rows[x].with(y);
    }

    /// Relates what is related through other levels.
    pub fn close(&mut self)
        ensures count { length self.new ≡ length self.old }
        ensures kept { (x y : ℕ) → tells self.old x y ≡ true → tells self.new x y ≡ true }
        ensures only { (x y : ℕ) → tells self.new x y ≡ true → Reaches self.old x y }
        ensures transitive { (x y z : ℕ) → tells self.new x y ≡ true → tells self.new y z ≡ true → tells self.new x z ≡ true }
    {
        for middle in 0..self.count() {
            self.pass_through(middle);
        }
    }

    /// Relates what is related through this level.
    fn pass_through(&mut self, middle: usize)
        requires { middle < length self.old }
        ensures count { length self.new ≡ length self.old }
        ensures through { (x y : ℕ) → tells self.new x y ≡ (tells self.old x y || (tells self.old x middle && tells self.old middle y)) }
    {
        let next = self.rows[middle];
        for row in self.rows.iter_mut() {
            if row.contains(middle) {
                *row = row.union(next);
            }
        }
    }
}
