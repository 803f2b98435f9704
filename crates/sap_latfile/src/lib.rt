//! Lattice files: TOML documents with the two keys `levels` and `below`.
#![tactic(auto)]

pub mod document;
pub mod fault;
pub mod laws;
mod listing;
mod read;

pub use fault::LatFileFault;
pub use read::read_lattice;
