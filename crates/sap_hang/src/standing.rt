//! What a walk knows.

use crate::set::Set;
use sap_names::table::Names;
use sap_tree::name::Name;
use sap_tree::syntax::{Decl, Kind, State};
use std::alloc::Global;

/// A design that is walked: its names and declarations, and which of them are dynamic registers or memories.
#[derive(Drop)]
pub(crate) struct Walk<'a> {
    pub alloc: Global,
    pub names: &'a Names,
    pub declarations: &'a [Decl],
    pub stores: Set,
}

/// The body of a state, and what a `fall` of the body touches.
#[derive(Drop)]
pub(crate) struct Standing<'a, 'w> {
    pub walk: &'a Walk<'w>,
    pub state: &'a Name,
    pub kind: &'a Kind,
    pub children: &'a [State],
    pub falls: &'a Set,
}
