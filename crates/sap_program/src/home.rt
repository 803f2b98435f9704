//! Where a body stands.

use crate::program::State;

/// Where a body stands: in this state, with this parent and these children.
#[derive(Drop)]
pub struct Home<'a> {
    pub state: usize,
    pub parent: usize,
    pub children: &'a [State],
}
