//! Programs of nested states, whose tags are ordinary variables.

pub mod examples;
pub mod nested;
pub mod program;
pub mod seats;
