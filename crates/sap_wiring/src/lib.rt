//! Wires between parts, from the texts of a system file: the registers and inputs that they name, by number.
#![tactic(auto)]

mod endpoints;
mod judge;
pub mod laws;
pub mod surroundings;
pub mod wire;
mod wiring;

pub use surroundings::{PartNames, Surroundings};
pub use wire::{Endpoint, Wire};
pub use wiring::wire_up;
