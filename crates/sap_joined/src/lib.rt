//! One netlist of the netlists of several parts, each behind its part's name, in which registers feed inputs.
#![tactic(auto)]

mod copies;
mod feeds;
pub mod laws;
mod names;
pub mod parts;
mod ports;
mod registers;
mod sets;
mod whole;

pub use parts::{Feed, NamedNet};
pub use whole::join;
