//! The names and terms of a plain program, as code: the numbers and levels of a design's program as data.
#![tactic(auto)]

pub mod calcs;
pub mod entities;
pub mod names;
pub mod setting;
