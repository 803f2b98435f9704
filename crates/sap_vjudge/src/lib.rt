//! The faults of a module, V3 to V7, in the tree of its text.
//!
//! `judge` goes down the ports and items once, with a table of what each name is declared as and whether it is set, and
//! once more over the declarations for what lacks what sets it. It answers the first fault by place, then by code.
#![tactic(auto)]

pub mod code;
mod constants;
mod entry;
pub mod fault;
mod items;
pub mod judging;
mod memories;
mod shape;
mod table;
mod twice;
mod unset;
mod usage;
mod width;
mod widths;
