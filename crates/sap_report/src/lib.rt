//! The report of a design: the codes of the levels, what hangs on each point, and the check sites.
#![tactic(auto)]

pub mod examples;
pub mod level;
mod point;
pub mod report;
mod site;
mod text;
