//! A simulator of netlists, one clock cycle a step.
//!
//! `Runner::load` numbers the names once, so a step takes time in proportion to the netlist, and no memory.
#![tactic(auto)]

mod divide;
mod instructions;
mod known;
mod load;
mod operands;
mod order;
mod program;
pub mod runner;
mod runs;
mod sort;
mod steps;
