// Small programs: what their runs show, and that the premises of the laws can be met.

ghost use Rattle.sap_meaning.specs.Examples.{Sum, GuardedWrite, Handler, BranchNotTaken, LoweredTag, PlacedTag, UnderAuthority, EnforcedStates, DynamicStates, FallsTwice, FallsInto, Resets, MemoryRead, MemoryHandler};
ghost use Rattle.sap_meaning.specs.Sample.{SampleIsFine};

/// The runs of small programs on short streams, worked out.
pub fn worked_runs()
    ensures sum { Sum }
    ensures guarded_write { GuardedWrite }
    ensures handler { Handler }
    ensures branch_not_taken { BranchNotTaken }
    ensures lowered_tag { LoweredTag }
    ensures placed_tag { PlacedTag }
    ensures under_authority { UnderAuthority }
    ensures enforced_states { EnforcedStates }
    ensures dynamic_states { DynamicStates }
    ensures falls_twice { FallsTwice }
    ensures falls_into { FallsInto }
    ensures resets { Resets }
    ensures memory_read { MemoryRead }
    ensures memory_handler { MemoryHandler }
{}

/// A program with memories, handlers and nested states of both kinds has all that the laws ask for.
pub fn premises_are_met()
    ensures { SampleIsFine }
{}
