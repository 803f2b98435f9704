//! The store of a program in its labelled meaning: what it starts with, what expressions show of it, and the changes that steps make to it.
#![tactic(auto)]

pub mod cell;
pub mod entries;
mod entry;
pub mod environment;
pub mod first;
mod half;
pub mod store;
pub mod terms;
