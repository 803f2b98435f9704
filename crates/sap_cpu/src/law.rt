//! Laws of the texts of two programs, on empty functions: a caller in another crate has their clauses by calling them.

ghost use Rattle.sap_cpu.specs.Ends.{RunsEndAsPrinted};
ghost use Rattle.sap_cpu.specs.Streams.{AsmBringsPrograms, StimulusBringsPrograms};

/// The stimulus of two programs for N slices is read, without a fault, as a stream of 17 + 6N cycles that fits the machine and brings
/// both users their words. The text that `asm` gives is such a stimulus.
pub fn stimulus_brings_programs()
    ensures words { StimulusBringsPrograms }
    ensures asm { AsmBringsPrograms }
{}

/// A run of the machine's design on the text that `asm` gives ends with what `cpu` prints of the same programs.
pub fn runs_end_as_printed()
    ensures { RunsEndAsPrinted }
{}
