//! What every text has: names, numbers, lines and places, and the runs of bytes that tokens are made of.
#![tactic(auto)]

pub mod digits;
pub mod name;
pub mod place;
pub mod scan;
pub mod words;
