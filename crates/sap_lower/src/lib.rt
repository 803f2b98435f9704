//! From guarded programs to netlists.
#![tactic(auto)]

mod calc;
mod calculation;
mod declare;
mod facts;
mod first;
pub mod lower;
mod lowering;
mod parts;
mod reads;
mod wires;
mod write_ports;
mod writes;
