//! Stimulus files, read line by line through a desk.
//!
//! `Lines` reads a channel in pieces, no further than the lines that were asked for need, and gives the
//! inputs of one line after another, and for how many cycles each stands.
#![tactic(auto)]

ghost use Rattle.sap_lines.specs.Follows.{Begins, BeginsSome, Ends, EndsSome, GoesOn, GoesOnSome, Stops, StopsSome};

mod fetch;
mod held;
mod lines;
mod next;
pub mod stepping;
mod taken;

pub use lines::Lines;
pub use next::Next;
use sap_stim::MOST_LINE_BYTES;
pub use stepping::{FailedCall, Steps, Stopped, print};

/// How many bytes are read at a time.
pub const PIECE_BYTES: usize = 4096;

/// How many bytes are held at most: a line that isn't too long, and a piece.
pub const MOST_HELD: usize = MOST_LINE_BYTES + PIECE_BYTES;

/// The answers of a reader, one after another, tell what the whole file gives: the cycles of the lines before the first
/// that is refused, and that one's fault, though nothing behind it was read.
pub fn lines_follow()
    ensures begins { Begins }
    ensures goes_on { GoesOn }
    ensures ends { Ends }
    ensures stops { Stops }
    ensures begins_some { BeginsSome }
    ensures goes_on_some { GoesOnSome }
    ensures ends_some { EndsSome }
    ensures stops_some { StopsSome }
{}
