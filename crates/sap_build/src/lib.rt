//! Netlists made from netlists: copies under other names, copies of parts, and netlists written part by part.
#![tactic(auto)]

pub mod copies;
pub mod counter;
pub mod laws;
pub mod writer;
