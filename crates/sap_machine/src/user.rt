//! The users of the machine.

/// A user of the machine.
#[derive(Clone, Copy, Debug, PartialEq, Eq)]
pub enum User {
    A,
    B,
}
