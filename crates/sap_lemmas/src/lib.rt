//! Lemmas over the standard library's words, each of which several crates cite.
#![tactic(auto)]
