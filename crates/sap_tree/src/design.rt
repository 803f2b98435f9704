//! A whole design.

ghost use Rattle.std.specs.Prelude.{IsTrue};
ghost use Rattle.sap_tree.specs.Parts.{tree_of};
ghost use Rattle.sap_tree.specs.Whole.{is_whole};

use crate::syntax::{Decl, State};
use crate::version::Version;

/// The version of a design, and its declarations and top-level states in the order of its text. They make a tree of
/// the design grammar within the limits.
#[derive(Drop)]
pub struct Design {
    pub version: Version,
    pub declarations: Vec<Decl>,
    pub states: Vec<State>,
    ghost whole: { IsTrue (is_whole (tree_of version declarations.items states.items)) },
}
