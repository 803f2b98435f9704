//! Runs of commands and of states over a store, in the labelled meaning.
#![tactic(auto)]

mod checks;
mod effects;
pub mod run;
