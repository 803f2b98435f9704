//! What commands read and write: files by kind, and what their bytes give; texts on channel 1, whole or line by line.
#![tactic(auto)]

mod buffers;
pub mod failure;
pub mod fault;
mod files;
mod inputs;
mod output;
mod printing;
pub mod refusal;
mod rows;
mod traces;

pub use failure::DesignFailure;
pub use fault::DesignFault;
pub use files::{
    checked_of_file, design_of_file, lattice_of_file, lines_of_file, module_of_file,
    stream_of_file, system_of_file, text_of_file, wave_of_file, words_of_file,
};
pub use output::{put, put_bytes, put_pieces, write};
pub use rows::print_rows;
pub use traces::print_trace;
