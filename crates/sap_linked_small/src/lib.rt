//! What stands for a system once its netlist is made small.
#![tactic(auto)]

pub mod laws;
