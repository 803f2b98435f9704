//! Tag insertion: from a well-formed design to its plain program, nested states whose tags are ordinary variables.
#![tactic(auto)]

mod commands;
pub mod insert;
mod states;
