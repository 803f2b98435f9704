//! The traces of small designs.

ghost use Rattle.sap_trace.specs.Examples.{InHandler, ByTarget, ByOwnState};

/// The traces of small designs, worked out.
pub fn worked_traces()
    ensures in_handler { InHandler }
    ensures by_target { ByTarget }
    ensures by_own_state { ByOwnState }
{}
