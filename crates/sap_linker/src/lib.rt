//! One module of several designs that are clocked together.
#![tactic(auto)]

mod given;
pub mod laws;
pub mod linker;
mod module;
mod named;
pub mod parts;
mod wires;

pub use linker::Linker;
pub use module::link;
pub use parts::LinkedPart;
