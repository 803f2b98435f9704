//! The names of a design: what each stands for, the widths of its expressions, and the faults of names and widths.
//!
//! `Names::build` numbers the inputs, registers, memories and states of a design in the order of its text and
//! looks for E3 to E9 in its declarations and bodies. It gives the names, or the first fault by place and then
//! by code. Names are found by a hash map, so a later pass asks for a name in constant time on average.
#![tactic(auto)]

mod collect;
mod command;
mod declaration;
mod design;
mod entities;
pub mod entity;
pub mod examples;
mod expression;
pub mod fault;
pub mod kind;
mod level;
pub mod table;
mod usage;
pub mod width;
