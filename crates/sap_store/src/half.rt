//! A memory as a cycle began, or as the next one begins.

ghost use Rattle.std.specs.Prelude.{◌≡◌, ◌<◌, length, replicate, IfOk};
ghost use Rattle.sap_store.specs.Half.{cell_at, no_cell, with_level, with_number};

use crate::cell::Cell;
use sap_lattice::level::Level;
use std::alloc::{AllocError, Global};
use std::marker::Model;

/// The cells of a memory, and the level that they have where the memory is dynamic.
#[derive(Drop)]
pub(crate) struct Half {
    cells: Vec<Cell>,
    whole: Level,
}

impl Model for Half {
    ghost use Rattle.sap_store.specs.Half.{Cells};

    ghost Value = { Cells };

    ghost view = { λ h. record { cells = h.cells.items; whole = h.whole } };
}

impl Half {
    /// So many cells, all with the number 0 and this level.
    pub fn new(alloc: Global, depth: u64, level: Level) -> Result<Half, AllocError>
        ensures cells { IfOk result (λ h. h.cells ≡ replicate depth (no_cell level)) }
        ensures whole { IfOk result (λ h. h.whole ≡ level) }
    {
        let mut cells = Vec::new(alloc);
        for i in 0..depth {
            cells.push(Cell { number: 0, level })?;
        }
        Ok(Half {
            cells,
            whole: level,
        })
    }

    /// The cell at a place; past the last one the number is 0, and the level is given.
    pub fn cell(&self, i: u64, past: Level) -> Cell
        ensures { result ≡ cell_at past self.now i }
    {
        match self.cells.get(i as usize) {
            Some(cell) => *cell,
            None => Cell {
                number: 0,
                level: past,
            },
        }
    }

    pub fn whole(&self) -> Level
        ensures { result ≡ self.now.whole }
    {
        self.whole
    }

    pub fn set_whole(&mut self, level: Level)
        ensures cells { self.new.cells ≡ self.old.cells }
        ensures whole { self.new.whole ≡ level }
    {
        self.whole = level;
    }

    pub fn set_number(&mut self, i: u64, number: u64)
        requires { i < length self.old.cells }
        ensures { self.new ≡ with_number i number self.old }
    {
        self.cells[i as usize].number = number;
    }

    pub fn set_level(&mut self, i: u64, level: Level)
        requires { i < length self.old.cells }
        ensures { self.new ≡ with_level i level self.old }
    {
        self.cells[i as usize].level = level;
    }

    /// Takes the other half's cells and level.
    pub fn take(&mut self, other: &Half)
        requires { length self.old.cells ≡ length other.now.cells }
        ensures { self.new ≡ other.now }
    {
        self.cells.copy_from_slice(other.cells.as_slice());
        self.whole = other.whole;
    }
}
