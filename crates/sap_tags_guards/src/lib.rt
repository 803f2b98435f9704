//! Guards and tests of steps, as code: at which level a step is asked for, whether it is accepted, and what it writes.
#![tactic(auto)]

pub mod steps;
