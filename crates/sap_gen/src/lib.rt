//! A large run from a number: a design of many registers and states over a lattice of four levels, on a stream of its own.
//!
//! `generated` runs the design in its labelled meaning, and gives the text of the run: its counts and the row of its last cycle.
#![tactic(auto)]

mod checked;
mod design;
pub mod examples;
pub mod laws;
mod levels;
mod row;
mod run;
mod size;
mod stream;
mod text;

pub use text::generated;
