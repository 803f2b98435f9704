//! Worked examples, computed from the definitions.

ghost use Rattle.sap_machine.specs.Machine.{machine};
ghost use Rattle.sap_machine.specs.Examples.{AroundTheEnds, AsmOfTwo, Assembles, Branches, CpuOfTwo, NoEnd, NoForm, Numbers, Refusals, RunOfTwo, Stored, TooMany, TwinsAgree};

/// What single instructions do.
pub fn worked_instructions()
    ensures ends { AroundTheEnds }
    ensures branches { Branches }
    ensures stores { Stored }
{}

/// Texts in assembly, and the words that they give or the rule that they break.
pub fn worked_assembly()
    ensures assembles { Assembles }
    ensures numbers { Numbers }
    ensures no_form { NoForm }
    ensures no_end { NoEnd }
    ensures too_many { TooMany }
{}

/// The texts of two programs, and of refused ones.
pub fn worked_texts()
    ensures stimulus { AsmOfTwo }
    ensures users { CpuOfTwo }
    ensures refusals { Refusals }
{}

/// The run of two slices, and another that agrees with it at the level of the user b.
pub fn worked_runs()
    ensures registers { RunOfTwo machine }
    ensures twins { TwinsAgree machine.world.order }
{}
