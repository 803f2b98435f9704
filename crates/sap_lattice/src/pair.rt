// Pairs of names.

use crate::name::Name;

/// A pair of a lattice file: the lower level is at or below the upper.
#[derive(Drop)]
pub struct Pair {
    pub lower: Name,
    pub upper: Name,
}
