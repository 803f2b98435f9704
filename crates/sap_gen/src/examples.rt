//! Small generated runs.

ghost use Rattle.sap_gen.specs.Examples.{OfOne, OfTwo, LargestSize};

/// The generated runs of 1 and of 2, worked out, and how large that of 1000 is.
pub fn worked_runs()
    ensures of_one { OfOne }
    ensures of_two { OfTwo }
    ensures largest_size { LargestSize }
{}
