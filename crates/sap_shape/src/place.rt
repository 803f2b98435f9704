//! Where a body stands.

use sap_tree::name::Name;
use sap_tree::syntax::{Kind, State};

/// The state of a body: its name and kind, the group that it is of, its children, and the names of the states above it, the nearest first.
#[derive(Drop)]
pub(crate) struct Position<'a> {
    pub name: &'a Name,
    pub kind: &'a Kind,
    pub group: &'a [State],
    pub children: &'a [State],
    pub above: &'a [Name],
}
