//! What hangs on the points of a design and on its root: the dynamic entities whose tags tell whether the commands there ran.
#![tactic(auto)]

mod body;
pub mod hang;
mod set;
mod simple;
mod standing;
mod states;
pub mod table;

pub use table::HangTable;
