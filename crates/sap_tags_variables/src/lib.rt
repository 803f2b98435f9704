//! What a plain program declares: inputs, registers, memories and wires, for numbers and for tags.
#![tactic(auto)]

pub mod memories;
pub mod registers;
pub mod wires;
