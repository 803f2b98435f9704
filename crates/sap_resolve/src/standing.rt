//! Where a body stands.

use sap_hang::HangTable;
use sap_lattice::lattice::Lattice;
use sap_names::table::Names;
use sap_tree::name::Name;
use sap_tree::syntax::{Kind, State};

/// What a design has besides its tree.
#[derive(Drop)]
pub(crate) struct Known<'a> {
    pub names: &'a Names,
    pub lattice: &'a Lattice,
    /// What hangs on its points.
    pub table: &'a HangTable,
}

/// The body of a state of this name and kind with these children, and what its design has.
#[derive(Drop)]
pub(crate) struct Standing<'a> {
    pub names: &'a Names,
    pub lattice: &'a Lattice,
    pub table: &'a HangTable,
    pub name: &'a Name,
    pub kind: &'a Kind,
    pub children: &'a [State],
}
