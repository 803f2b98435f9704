//! What runs of the module of a system have: there is one on each stream, and they agree where streams do.
//!
//! Each law stands on an empty function, whose clauses a caller in another crate has by calling it.
#![tactic(auto)]

pub mod laws;
