//! What a machine runs, and where.

use sap_lattice::lattice::Lattice;
use sap_program::program::Program;

/// A program over the levels of a lattice.
#[derive(Drop)]
pub struct Environment<'a> {
    pub lattice: &'a Lattice,
    pub program: &'a Program,
}
