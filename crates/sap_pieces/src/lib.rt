//! Texts that are written piece by piece.
//!
//! `Pieces` gives a text piece by piece; `write_pieces` makes a file of a text and of the pieces behind it, and
//! `print_pieces` writes them on channel 1.
#![tactic(auto)]

mod pieces;
mod waiting;
mod writing;

pub use pieces::Pieces;
pub use writing::{print_pieces, write_pieces};

/// How many bytes wait at most to be written.
pub const LARGE_BYTES: usize = 65_536;
