//! Small reports.

ghost use Rattle.sap_report.specs.Examples.{OnePoint, FiveLevels};

/// The reports of small designs, worked out.
pub fn worked_reports()
    ensures one_point { OnePoint }
    ensures five_levels { FiveLevels }
{}
