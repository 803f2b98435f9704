//! Intermediate programs: assignments over names, each under a condition.
#![tactic(auto)]

pub mod calc;
pub mod guarded;
pub mod plain;
pub mod program;
