//! Small netlists: right sides are folded and shared, and wires that nothing reads are dropped.
#![tactic(auto)]

mod build;
mod left;
mod names;
mod needed;
mod replace;
mod stays;
pub mod trim;
mod unwritten;
mod walk;
