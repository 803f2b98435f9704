//! That the premises of the laws can be met.

ghost use Rattle.sap_resolved.specs.Sized.Examples.{Lawful, Whole, NoFault};

/// A design with most kinds of expressions has all that the laws ask for.
pub fn premises_are_met()
    ensures lawful { Lawful }
    ensures whole { Whole }
    ensures no_fault { NoFault }
{}
