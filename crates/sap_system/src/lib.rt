//! System files: TOML documents with the two keys `parts` and `wires`.
#![tactic(auto)]

pub mod examples;
pub mod fault;
pub mod file;
pub mod laws;
pub mod link_fault;
mod listing;
mod names;
mod parts;
mod read;

pub use fault::{SysCode, SysFault};
pub use file::{Part, SystemFile, WireText};
pub use link_fault::{LinkCode, LinkFault};
pub use read::read_system;

/// The largest number of parts of a system.
pub const MOST_PARTS: usize = 8;
