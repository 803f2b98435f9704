//! Linked designs: systems of designs that are clocked together, their composite runs, and what holds of these.
//!
//! The laws stand on functions that do nothing, whose clauses a caller in another crate has by calling them.
#![tactic(auto)]

pub mod designs;
pub mod examples;

ghost use Rattle.sap_link.specs.Laws.{FedInputsReceive, FreeInputsReceive, PartsAreGiven, CompositesRest, CompositesFit, PartsRunAlone, StreamsOfPartsFit, PartInputsAgree, CompositeCyclesAgree, LaterCompositesAgree, CompositesOfStreamsAgree};

/// What a wire carries is what its input receives, and what a stream gives is what the free inputs receive; and a part is given what its inputs receive.
pub fn inputs_receive()
    ensures fed { FedInputsReceive }
    ensures free { FreeInputsReceive }
    ensures given { PartsAreGiven }
{}

/// Between composite cycles each part's state is one between cycles, and what is in it fits.
pub fn states_keep()
    ensures rest { CompositesRest }
    ensures fit { CompositesFit }
{
    sap_meaning::states_keep();
    sap_meaning::numbers_fit()
}

/// In a composite run each part does what it does alone on what its inputs receive; and that fits the part.
pub fn parts_run_alone()
    ensures alone { PartsRunAlone }
    ensures fit { StreamsOfPartsFit }
{
    sap_meaning::numbers_fit()
}

/// Where the states of all parts agree at a level, and what the stream gives, what each part's inputs receive agrees there.
pub fn inputs_agree()
    ensures { PartInputsAgree }
{}

/// One cycle of a system from states that agree at a level, on inputs that agree there, gives states and refusals that do.
pub fn one_cycle()
    ensures { CompositeCyclesAgree }
{
    sap_secure::one_cycle()
}

/// Composite runs on streams that agree at a level agree there in every cycle.
pub fn runs_agree()
    ensures later { LaterCompositesAgree }
    ensures first { CompositesOfStreamsAgree }
{
    one_cycle();
    states_keep()
}
