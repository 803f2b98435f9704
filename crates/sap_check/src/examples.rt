//! The check sites and points of small designs.

ghost use Rattle.sap_check.specs.Examples.{SmallSites, SmallPoints, NestedSites, NestedPoints, DecidedSites, DecidedPoints};

/// The sites and points of small designs, worked out.
pub fn worked_sites()
    ensures small_sites { SmallSites }
    ensures small_points { SmallPoints }
    ensures nested_sites { NestedSites }
    ensures nested_points { NestedPoints }
    ensures decided_sites { DecidedSites }
    ensures decided_points { DecidedPoints }
{}
