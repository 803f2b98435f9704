//! What the texts of wires are held against.

use sap_lattice::lattice::Lattice;
use sap_names::table::Names;
use sap_text::name::Name;

/// A part's name, and the names of its design.
#[derive(Clone, Copy, Drop)]
pub struct PartNames<'a> {
    pub name: &'a Name,
    pub names: &'a Names,
}

/// The parts of a system in order, and the lattice of its levels.
#[derive(Clone, Copy, Drop)]
pub struct Surroundings<'a> {
    pub parts: &'a [PartNames<'a>],
    pub lattice: &'a Lattice,
}
