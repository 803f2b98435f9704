//! Nested states to flat assignments.
#![tactic(auto)]

mod bodies;
mod commands;
mod copies;
pub mod flatten;
mod gates;
mod groups;
mod moves;
