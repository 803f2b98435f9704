//! What is kept of an entity.

use crate::cell::Cell;
use crate::half::Half;

/// An entity's own number and level, and, where it is a memory, the memory as the cycle began and as the next one begins.
#[derive(Drop)]
pub(crate) struct Entry {
    pub own: Cell,
    pub start: Half,
    pub next: Half,
}
