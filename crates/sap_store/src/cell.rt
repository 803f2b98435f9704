//! A number with its level.

use sap_lattice::level::Level;

/// A number with its level.
#[derive(Clone, Copy)]
pub struct Cell {
    pub number: u64,
    pub level: Level,
}
