//! The syntax tree of a design.
#![tactic(auto)]

pub mod design;
pub mod make;
pub mod name;
pub mod place;
pub mod syntax;
pub mod version;
pub mod whole;
pub mod word;
