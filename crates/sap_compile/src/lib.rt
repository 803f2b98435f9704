//! From a design to the text of its module.
#![tactic(auto)]

mod compiled;
mod compiler;
pub mod examples;
mod fault;
mod module;
mod read;
pub mod stages;

pub use compiled::Compiled;
pub use compiler::compile;
pub use fault::CompileFault;
pub use module::{design_netlist, module_text};
