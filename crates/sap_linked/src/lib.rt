//! What netlists that link the netlists of several designs stand for: the composite run, part by part.
#![tactic(auto)]

pub mod examples;
pub mod laws;
