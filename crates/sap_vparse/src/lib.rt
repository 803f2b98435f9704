//! Reads the text of a module.
//!
//! `parse` reads the file of a text by the module grammar, or says where the text goes wrong and how.
#![tactic(auto)]

mod choice;
mod cursor;
mod file;
mod item;
pub mod items;
pub mod law;
mod operand;
mod port;
mod read;
mod right;
mod row;

pub use read::parse;
