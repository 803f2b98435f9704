//! The comment lines with which a module explains itself: its levels, its groups of states and its check sites.
#![tactic(auto)]

pub mod examples;
mod explain;
mod group;
pub mod laws;
mod level;
mod name;
mod site;
mod system;

pub use explain::explained;
pub use system::explained_system;
