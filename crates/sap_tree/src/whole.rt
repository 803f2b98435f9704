//! Makes and reads whole designs.

ghost use Rattle.std.specs.Prelude.{◌≡◌, IsTrue};
ghost use Rattle.sap_tree.specs.Designs.{design_of};
ghost use Rattle.sap_tree.specs.Parts.{tree_of};
ghost use Rattle.sap_tree.specs.Whole.{is_whole};

use crate::design::Design;
use crate::syntax::{Decl, State};
use crate::version::Version;

impl Design {
    /// The design of these declarations and top-level states.
    pub fn new(version: Version, declarations: Vec<Decl>, states: Vec<State>) -> Design
        requires { IsTrue (is_whole (tree_of version declarations.items states.items)) }
        ensures { design_of result ≡ tree_of version declarations.items states.items }
    {
        Design {
            version,
            declarations,
            states,
        }
    }
}

/// The tree of each design is whole.
pub fn design_is_whole(design: &Design)
    ensures { IsTrue (is_whole (design_of design.now)) }
{}
