//! The shape of a design: closed bodies, targets of transfers, paths of writes, handlers and retagging, and which commands are check sites.
#![tactic(auto)]

mod body;
mod closing;
pub mod examples;
mod falls;
mod paths;
mod place;
mod position;
pub mod shape;
pub mod sites;
mod states;
mod written;
