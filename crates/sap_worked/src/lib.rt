//! Worked examples of the labelled meaning and of agreement at a level, by hand from the rules: that the definitions say
//! what they are meant to say.
//!
//! Each stands as a clause on a function that does nothing.
#![tactic(auto)]

pub mod designs;
pub mod pairs;
pub mod runs;
