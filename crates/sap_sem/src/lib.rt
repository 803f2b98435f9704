//! The labelled meaning of a design as a machine that is stepped a cycle at a time.
#![tactic(auto)]

mod asked;
pub mod machine;
mod new;
pub mod pair;
mod readers;
mod step;
mod turn;
