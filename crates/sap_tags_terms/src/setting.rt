//! What names and terms are taken from.

ghost use Rattle.sap_tags_terms.specs.Narrow.{IsNarrow};

use sap_lattice::lattice::Lattice;
use sap_program::program::Program;

/// A program over the levels of a lattice.
#[derive(Drop)]
pub struct Setting<'a> {
    pub lattice: &'a Lattice,
    pub program: &'a Program,
    pub ghost narrow: { IsNarrow program.now },
}
