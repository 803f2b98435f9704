//! The netlist that carries the taint of another, as a function of it, and the first name whose tag can't have its own.
#![tactic(auto)]

pub mod fault;
mod joins;
pub mod laws;
pub mod names;
mod ports;
mod registers;
pub mod taint;
mod wires;
mod writes;
