//! A design of version 2, and that the premises of the laws can be met by it.

ghost use Rattle.sap_shape.specs.Examples.{DecidedIsWellFormed};
ghost use Rattle.sap_worked.specs.Designs.{DecidedServes};

use sap_resolved::premises::well_formed_serves;
use sap_resolved::sized::examples::premises_are_met;
use sap_shape::examples::worked_faults_of_version_2;

/// A design of version 2 with nested states, a `then` and a `case` is well formed, and so has all that the laws ask for.
pub fn version_two_serves()
    ensures formed { DecidedIsWellFormed }
    ensures serves { DecidedServes }
{
    worked_faults_of_version_2();
    premises_are_met();
    well_formed_serves()
}
