//! The program of a well-formed design has all that the laws of the labelled meaning ask for.
//!
//! The laws stand on functions that do nothing, whose clauses a caller in another crate has by calling them.

ghost use Rattle.sap_resolved.specs.Premises.Premises.{ProgramsAreFine, ListsAreExact, SitesRise};

use crate::sized::names_fit;

/// Where no fault stands in a design, its program is fine, and its check sites rise in the order of the text; the lists
/// of what hangs are exact in every design's program.
pub fn well_formed_serves()
    ensures fine { ProgramsAreFine }
    ensures exact { ListsAreExact }
    ensures sites { SitesRise }
{
    names_fit()
}
