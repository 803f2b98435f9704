//! Names, maps from names to numbers, and expressions, as the definitions of several crates cite them.
#![tactic(auto)]

ghost use Rattle.std.specs.Prelude.{ℕ};
ghost use Rattle.sap_maps.specs.Maps.{Name};
ghost use Rattle.sap_maps.specs.Laws.{TermWithin, TermRenamed};

/// The value of an expression whose widths fit is within its width, over numbers and over names.
pub fn term_within()
    ensures numbers { TermWithin ℕ }
    ensures names { TermWithin Name }
{}

/// Names in place of what an expression reads, with the same numbers behind them, keep its value.
pub fn term_renamed()
    ensures { TermRenamed ℕ Name }
{}
