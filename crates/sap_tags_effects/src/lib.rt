//! What steps do to numbers and tags, with tags as ordinary variables: effects, raises, resets, and which arm of a `case` is picked.
#![tactic(auto)]

pub mod arms;
pub mod outcomes;
pub mod pushes;
pub mod raises;
