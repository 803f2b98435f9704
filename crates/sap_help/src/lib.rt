//! What the program says of itself: its commands and statuses, and what each code of a fault means.
#![tactic(auto)]

mod asking;
mod assembly;
mod design;
mod explaining;
mod lattice;
mod module;
mod page;
mod stimulus;
mod system;
mod text;
mod wave;

pub use asking::answer;
pub use explaining::explain;
