//! Small designs: what hangs on their commands.

ghost use Rattle.sap_resolved.specs.Kept.Examples.{OnBranches, OnFalls, OnDynamicStates};

/// What hangs on each `if`, `otherwise` and `fall`, worked out.
pub fn worked_hangs()
    ensures on_branches { OnBranches }
    ensures on_falls { OnFalls }
    ensures on_dynamic_states { OnDynamicStates }
{}
