//! The program of a design, with numbers for names, as data.
#![tactic(auto)]

mod entities;
pub mod hang;
pub mod home;
mod makers;
pub mod program;
pub mod widths;
