//! Where the parts of a design stand in its text counts for nothing that it means.
//!
//! The laws stand on an empty function, whose clauses a caller in another crate has by calling it.
#![tactic(auto)]

ghost use Rattle.sap_layout.specs.Layout.{FormedAlike, OneProgram};

/// Designs that are the same, places aside, are well formed together, and have one program.
pub fn layout_is_free()
    ensures formed { FormedAlike }
    ensures program { OneProgram }
{}
