//! Check sites.

use sap_tree::place::Place;

/// What a command that may be refused does.
#[derive(Clone, Copy, PartialEq, Eq, Debug)]
pub enum SiteKind {
    /// Assigns a register, or writes a cell of a memory.
    Write,
    SetTag,
    Goto,
    Fall,
}

/// A command that may be refused: the place of its first token, what it does, and the number of its target. That of a `fall` is the
/// number of the state in whose body it stands.
#[derive(Clone, Copy, PartialEq, Eq, Debug)]
pub struct Site {
    pub place: Place,
    pub kind: SiteKind,
    pub entity: u32,
}
