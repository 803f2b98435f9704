//! The laws of composites for linked designs that are well formed, over any lattice.

ghost use Rattle.sap_link.specs.Designs.{LinkedDesignsServe, LaterLinkedRunsAgree, LinkedRunsAgree, PartsOfLinkedRun};

use sap_resolved::premises::well_formed_serves;

/// A system of well-formed designs whose wires break no rule has all that the laws of composites ask for.
pub fn linked_designs_serve()
    ensures { LinkedDesignsServe }
{
    well_formed_serves();
    sap_resolved::sized::sizes_fit()
}

/// Composite runs of such a system on streams that agree at a level agree there in every cycle.
pub fn runs_agree()
    ensures later { LaterLinkedRunsAgree }
    ensures first { LinkedRunsAgree }
{
    linked_designs_serve();
    crate::runs_agree()
}

/// In such a run on a stream that fits, each part has its labelled run on what its inputs receive, which fits it.
pub fn parts_run_alone()
    ensures { PartsOfLinkedRun }
{
    linked_designs_serve();
    crate::states_keep();
    crate::parts_run_alone()
}
