//! From the tree of a design to the program of the labelled meaning, as definitions.
//!
//! The definitions stand in `specs/`.
#![tactic(auto)]

pub mod kept;
pub mod premises;
pub mod sized;

ghost use Rattle.sap_resolved.specs.Examples.{Entities, States, Hangs, Children};

/// The program of a small design, worked out.
pub fn worked_program()
    ensures entities { Entities }
    ensures states { States }
    ensures hangs { Hangs }
    ensures children { Children }
{}
