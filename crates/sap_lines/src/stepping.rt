//! Stepping on the lines of a stimulus, and writing what each step shows.
//!
//! `print` reads a stimulus through a desk line by line, steps on each line, in each of its cycles, before the next one is
//! read, and writes the texts of the steps. They wait until they are large together, or until more of the stimulus has to be
//! read for the next line: rows come as lines come, and long runs write in large pieces.

mod printing;
mod steps;
mod stopped;
mod waiting;

pub use printing::print;
pub use steps::Steps;
pub use stopped::{FailedCall, Stopped};
