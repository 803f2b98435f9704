//! A walk over the tokens of a text, for any grammar that tells by the next token what it begins, and where the tokens
//! of a text go wrong.
//!
//! The definitions stand in `specs/`. Each law stands on an empty function, whose clause a caller in another crate has
//! by calling it.
#![tactic(auto)]

ghost use Rattle.sap_walk.specs.Laws.{InTurn, ReadsWithin};

/// A walk over several symbols reads what they read, one after another.
pub fn symbols_in_turn<Symbol, Role, Token, Kept, Limit>()
    ensures { InTurn Symbol Role Token Kept Limit }
{}

/// Where no limit is broken, the walk that stops at limits reads what the one that goes past them reads.
pub fn reads_within_limits<Symbol, Role, Token, Counts, Limit>()
    ensures { ReadsWithin Symbol Role Token Counts Limit }
{}
