//! Confinement, the one-cycle law and runs that agree, over the labelled meaning of a resolved program.
//!
//! Each law stands on an empty function, whose clause a caller in another crate has by calling it.
#![tactic(auto)]

pub mod check_sites;
pub mod designs;
pub mod examples;
pub mod once;

ghost use Rattle.sap_secure.specs.Confinement.{Confinement};
ghost use Rattle.sap_secure.specs.Laws.{OneCycle, LaterRunsAgree, LabelledRunsAgree};

/// In a context that is not at or below a level, a command on the active path changes nothing that is, under the conditions of `Hidden`.
pub fn confinement()
    ensures { Confinement }
{}

/// One cycle from states that agree at a level, with inputs that agree there, gives states and refusals that do.
pub fn one_cycle()
    ensures { OneCycle }
{}

/// Runs on streams that agree at a level agree there in every cycle.
pub fn runs_agree()
    ensures later { LaterRunsAgree }
    ensures first { LabelledRunsAgree }
{}
