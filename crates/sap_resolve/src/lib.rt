//! From a checked design to its program, with numbers for names, as data.
#![tactic(auto)]

mod children;
mod commands;
mod entities;
mod names;
mod numbers;
pub mod resolve;
mod rows;
mod standing;
mod states;
mod steps;
mod tags;
mod world;
