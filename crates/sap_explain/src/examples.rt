//! The lines of small designs.

ghost use Rattle.sap_explain.specs.Examples.{OneState, TwoChildren, TwoParts};

/// The lines that explain the modules of small designs and of a system, worked out.
pub fn worked_explanations()
    ensures one_state { OneState }
    ensures two_children { TwoChildren }
    ensures two_parts { TwoParts }
{}
