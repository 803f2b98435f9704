//! The trace of a design: which check sites are refused, in which cycle and at which level.
//!
//! `suppressed` tells the refusals of a runner's last cycle, by the wires of the compiled module; by `steps_show_refused` a
//! runner that is stepped on lines shows them. `Tracing` gives the lines of one cycle after another, and takes all its memory
//! when it is made.
#![tactic(auto)]

pub mod examples;
mod known;
mod line;
mod numbers;
mod refusals;
mod room;
mod trace;
pub mod tracing;
mod wires;

pub use line::site_into;
pub use numbers::take_numbers;
pub use refusals::{steps_show_refused, suppressed};
pub use room::{cycle_room, site_room};
pub use tracing::Tracing;
