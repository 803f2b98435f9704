//! The dump of a netlist's run on a stream, written to a file block by block.
#![tactic(auto)]

mod cycles;
mod dump;
mod recording;
mod writing;

pub use recording::Recording;
pub use writing::write_run;
