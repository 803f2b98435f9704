//! What changes while a machine runs.

use crate::entry::Entry;

/// The entities by number, and the places of the current children of all entities and of the root.
#[derive(Drop)]
pub struct Store {
    pub(crate) entries: Vec<Entry>,
    pub(crate) current: Vec<u32>,
}
