//! The taint of each name over a netlist's run, by cases of right sides; what a netlist with tags keeps that carries it.
#![tactic(auto)]

pub mod examples;
pub mod laws;
