//! The plain program of a design: nested states whose tags are ordinary variables. It stands for the design, and keeps the
//! rules of plain programs.
//!
//! The laws stand on an empty function, whose clauses a caller in another crate has by calling it.
#![tactic(auto)]

pub mod small;

ghost use Rattle.sap_tagged.specs.Law.{PlainStands, PlainsKeepRules, PlainsWriteOnce};

/// The plain program of a whole and well-formed design over a lattice has the design's interface, and in every cycle of every
/// stream that fits the design its numbers are those of the labelled run. It keeps the rules of its type, and writes no memory
/// twice in a cycle.
pub fn plain_stands()
    ensures stands { PlainStands }
    ensures rules { PlainsKeepRules }
    ensures once { PlainsWriteOnce }
{
    sap_meaning::lists_serve();
    sap_meaning::refusals_in_order()
}
