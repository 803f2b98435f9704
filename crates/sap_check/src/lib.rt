//! The check of a design: the first of its faults, or the design as well formed, with its check sites and its points.
#![tactic(auto)]

mod body;
pub mod check;
pub mod checked;
pub mod examples;
pub mod law;
mod parts;
pub mod point;
mod points;
mod readers;
pub mod site;
pub mod site_text;
mod sites;

pub use checked::{Checked, Refused};
