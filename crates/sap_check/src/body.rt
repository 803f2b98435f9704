//! Where a body stands.

use sap_tree::name::Name;
use sap_tree::syntax::{Kind, State};

/// The state of a body.
#[derive(Drop)]
pub(crate) struct Body<'a> {
    pub name: &'a Name,
    pub kind: &'a Kind,
    pub children: &'a [State],
}
