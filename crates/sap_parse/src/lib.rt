//! Reads the text of a design.
//!
//! `parse` reads the design of a text, or says where the text goes wrong and how.
#![tactic(auto)]

mod choice;
mod command;
mod counts;
mod cursor;
mod declaration;
mod expr;
pub mod law;
mod read;
mod role;
mod state;
mod tag;

pub use read::parse;
