//! Linked designs whose composite runs are computed, by hand from the rules, and composites that agree or don't.

ghost use Rattle.sap_link.specs.Comparing.{ComparedComposites};
ghost use Rattle.sap_link.specs.Examples.{FreeInput, Fed, FedThroughLow, FedThroughHigh, NothingThrough, ToItself, Exchanged, FreeInOrder, Formed};

/// Composite runs of small systems.
pub fn composite_runs()
    ensures free_input { FreeInput }
    ensures fed { Fed }
    ensures through_low { FedThroughLow }
    ensures through_high { FedThroughHigh }
    ensures nothing_through { NothingThrough }
    ensures to_itself { ToItself }
    ensures exchanged { Exchanged }
    ensures free_in_order { FreeInOrder }
{}

/// Two designs and a wire meet what the laws of composites ask for.
pub fn premises_are_met()
    ensures { Formed }
{}

/// Composites that differ in high things alone agree at low, and those that differ in a low one don't.
pub fn compared_composites()
    ensures { ComparedComposites }
{}
