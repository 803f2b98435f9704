//! The words of a command line as a command.
#![tactic(auto)]

mod fits;
mod number;
mod parser;
mod read;
mod run_number;
mod table;

pub use read::command_of;
pub use run_number::RunNumber;
pub use table::{COMMANDS, Command, DOES};
