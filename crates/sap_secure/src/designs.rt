//! The laws of the labelled meaning for designs: confinement, the one-cycle law and runs that agree, refusals that rise,
//! and what every state keeps, over every lattice and every design that is well formed over it.
//!
//! The laws stand on functions that do nothing, whose clauses a caller in another crate has by calling them.

pub mod examples;

ghost use Rattle.sap_secure.specs.Designs.Designs.{DesignsConfine, DesignCyclesAgree, LaterRunsOfDesignsAgree, RunsOfDesignsAgree, RefusalsRise, ListsServeDesigns, DesignStatesRest, DesignNumbersFit};

use sap_resolved::premises::well_formed_serves;

/// In a context that is not at or below a level, a command on the active path changes nothing that is, under the conditions of `Hidden`.
pub fn confinement()
    ensures { DesignsConfine }
{
    well_formed_serves();
    crate::confinement()
}

/// One cycle from states that agree at a level, with inputs that agree there, gives states and refusals that do.
pub fn one_cycle()
    ensures { DesignCyclesAgree }
{
    well_formed_serves();
    crate::one_cycle()
}

/// Runs on streams that agree at a level agree there in every cycle.
pub fn runs_agree()
    ensures later { LaterRunsOfDesignsAgree }
    ensures first { RunsOfDesignsAgree }
{
    well_formed_serves();
    crate::runs_agree()
}

/// In every cycle the refused sites rise in the order of the text.
pub fn refusals_rise()
    ensures { RefusalsRise }
{
    well_formed_serves();
    sap_meaning::refusals_in_order()
}

/// A cycle by the lists in the design's program is the cycle.
pub fn lists_serve()
    ensures { ListsServeDesigns }
{
    well_formed_serves();
    sap_meaning::lists_serve()
}

/// What every state keeps: between cycles the parts of memories are equal, enforced levels are at or above their
/// authorities and current children are there; numbers fit their widths.
pub fn states_keep()
    ensures rest { DesignStatesRest }
    ensures fit { DesignNumbersFit }
{
    well_formed_serves();
    sap_resolved::sized::sizes_fit();
    sap_meaning::states_keep();
    sap_meaning::numbers_fit()
}
