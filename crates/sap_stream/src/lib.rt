//! What the inputs of a design get: in a cycle, and in each cycle of a stream.
//!
//! `agree` says whether two streams agree at a level, and where they first don't.
#![tactic(auto)]

pub mod apart;
pub mod inputs;
pub mod span;

ghost use Rattle.sap_stream.specs.Laws.{AtMostOne};

pub use apart::{Apart, agree};
pub use inputs::{Inputs, Tagged};
pub use span::{Span, Stream};

/// No two answers fit the same streams at a level, and none fits streams that agree.
pub fn at_most_one()
    ensures { AtMostOne }
{}
