//! The rows of a netlist on a stimulus.
//!
//! `Simulation` reads each line by the netlist's inputs, steps the netlist on it, and appends the registers after the step.
//! `rows_of_run` says of which design the rows are, `read_stimulus` what a stimulus is to a design.
#![tactic(auto)]

mod feed;
mod fields;
pub mod labelled;
mod loading;
mod lookup;
mod ports;
mod shown;
pub mod simulation;
mod sources;
mod steps;

ghost use Rattle.sap_sim.specs.Examples as examples;

pub use labelled::rows_of_run;
pub use labelled::stimulus::{design_fields, read_stimulus};
pub use simulation::Simulation;

/// The fields of a small netlist, the numbers that a line gives its inputs, and the registers that its
/// rows show.
pub fn worked_layout()
    ensures fields { examples.Fields }
    ensures numbers { examples.Numbers }
    ensures registers { examples.Registers }
{}
