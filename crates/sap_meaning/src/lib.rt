//! The labelled meaning of a resolved program: what its commands do, cycle for cycle, to numbers and their levels.
//!
//! The definitions stand in `specs/`. The laws stand on functions that do nothing, whose clauses a caller in another crate
//! has by calling them.
#![tactic(auto)]

pub mod examples;

ghost use Rattle.sap_meaning.specs.Laws.{ListsServe, CommandsKeep, StatesRest, NumbersFit, SitesInOrder};

/// Where a program's lists of what hangs are exact, a cycle by them is the cycle.
pub fn lists_serve()
    ensures { ListsServe }
{}

/// In a program that has what those of well-formed designs have, every command keeps what every state keeps, and every
/// cycle leads from a state between cycles to one.
pub fn states_keep()
    ensures commands { CommandsKeep }
    ensures cycles { StatesRest }
{}

/// Where the widths of a program fit and inputs are within theirs, numbers stay within their widths; levels stay levels.
pub fn numbers_fit()
    ensures { NumbersFit }
{}

/// What is refused in a cycle stands in the order of the text.
pub fn refusals_in_order()
    ensures { SitesInOrder }
{}
