//! Cycles of a module that agree or look alike at a level, and cycles that don't.

ghost use Rattle.sap_compile.specs.Comparing.{ComparedCycles, ComparedNumbers};

/// Cycles that differ in high things alone agree and look alike at low, and those that differ in a low one don't.
pub fn compared_cycles()
    ensures cycles { ComparedCycles }
    ensures numbers { ComparedNumbers }
{}
