//! The interface of a compiled module, and what a cycle of it stands for.
#![tactic(auto)]
