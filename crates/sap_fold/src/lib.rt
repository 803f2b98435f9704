//! Helping wires: right sides fold by the arithmetic of their operators and by the wires that they read, and equal ones are one wire.
#![tactic(auto)]

mod absorb;
pub mod fold;
pub mod folding;
mod order;
mod parts;
pub mod rules;
mod see;
pub mod slices;
mod under;
pub mod wires;
