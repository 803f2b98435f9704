//! What is found of a design that has no fault.

use crate::point::Point;
use crate::site::Site;
use sap_lattice::lattice::Lattice;
use sap_names::table::Names;

/// A copy of the lattice, the names, the check sites and the points.
#[derive(Drop)]
pub(crate) struct Parts {
    pub lattice: Lattice,
    pub names: Names,
    pub sites: Vec<Site>,
    pub points: Vec<Point>,
}
