//! Finite lattices of levels: from names and pairs to an order with joins, and the codes of its levels.
//!
//! `Lattice::build` tests the rules on names and pairs in their order, and gives the lattice or the
//! first rule that is broken. The code of a level is the set of the meet-irreducible levels that it
//! is not at or below, as a number with a bit for each of them, so the join of two levels has the
//! `or` of their codes, and a level is at or below another where its code is within the other's.
#![tactic(auto)]

mod build;
mod codes;
pub mod fault;
mod guesses;
pub mod lattice;
pub mod level;
pub mod name;
mod order;
pub mod pair;
mod pairs;
mod relation;
mod rules;
mod set;

pub use fault::LatFault;
pub use lattice::Lattice;
pub use level::Level;
pub use name::Name;
pub use pair::Pair;

/// The largest number of levels of a lattice: at most 64, so that a code has less than 64 bits.
pub const MOST_LEVELS: usize = 64;

/// The largest number of bytes in the name of a level.
pub const MOST_NAME_BYTES: usize = 40;
