//! Small texts and their faults.

ghost use Rattle.sap_names.specs.Examples.{LargeStart, WideNumber, UnknownPlain, UnknownInside, UnknownBehind};

/// The faults of small texts, worked out.
pub fn worked_faults()
    ensures large_start { LargeStart }
    ensures wide_number { WideNumber }
    ensures unknown_plain { UnknownPlain }
    ensures unknown_inside { UnknownInside }
    ensures unknown_behind { UnknownBehind }
{}
