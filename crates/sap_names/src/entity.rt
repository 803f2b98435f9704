//! Declared names.

use crate::kind::Declared;
use sap_tree::name::Mention;

/// A declared name: where it is declared, what it is, and whether it is dynamic, as inputs are.
#[derive(Drop)]
pub struct Entity {
    pub name: Mention,
    pub what: Declared,
    pub dynamic: bool,
}
