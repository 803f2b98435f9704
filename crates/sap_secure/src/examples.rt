//! Confinement in a small program.

ghost use Rattle.sap_secure.specs.Hiding.{EntersHigh, HiddenAtLow};

use crate::confinement;

/// A command with `then`, in the body of a state that a `fall` entered in a context from above: the conditions of confinement hold
/// of it, and it does what the law says.
pub fn worked_confinement()
    ensures enters { EntersHigh }
    ensures hidden { HiddenAtLow }
{
    confinement()
}
