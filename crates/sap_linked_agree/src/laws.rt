//! The laws of runs of modules of systems.

ghost use Rattle.sap_linked_agree.specs.Laws.{ModulesAgree, ModulesHaveOneRun, SystemsAgree};

/// On streams that agree at a level the composite runs of a system of well-formed designs agree there in every cycle, part by part, in states and refusals.
pub fn systems_agree()
    ensures { SystemsAgree }
{
    sap_link::designs::runs_agree()
}

/// On streams that agree at a level the runs of what stands for a system of well-formed designs agree there in every cycle,
/// part by part, in states and refusals and in plain numbers.
pub fn modules_agree()
    ensures { ModulesAgree }
{
    sap_link::designs::runs_agree();
    sap_link::designs::parts_run_alone();
    sap_secure::designs::states_keep();
    sap_resolved::premises::well_formed_serves()
}

/// And on each stream that fits it has exactly one run.
pub fn modules_have_one_run()
    ensures { ModulesHaveOneRun }
{}
