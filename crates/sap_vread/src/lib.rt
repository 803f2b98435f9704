//! Reads the text of a module.
//!
//! `read` answers the netlist of a text, or its fault, with the line and the column of the byte where it stands.
#![tactic(auto)]

pub mod build;
pub mod fault;
pub mod law;
pub mod place;
mod reading;

pub use fault::{ModCode, ModFault};
pub use place::Place;
pub use reading::read;
