//! A small program: what its run shows, and that it has all that the type of programs keeps.

ghost use Rattle.sap_ir.specs.Plain.Examples.{Counts, counting};
ghost use Rattle.sap_ir.specs.Plain.IsPlain.{IsPlain};

/// Four cycles of a program with nested states, worked out.
pub fn worked_run()
    ensures { Counts }
{}

/// It is a program.
pub fn rules_are_met()
    ensures { IsPlain counting }
{}
