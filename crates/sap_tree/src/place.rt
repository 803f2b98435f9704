//! Places in a text.

pub use sap_text::place::Place;

/// Where an expression stands: its first token, the parentheses around it included, and the token
/// that it is named after.
#[derive(Clone, Copy, PartialEq, Eq, Debug)]
pub struct Spot {
    pub first: Place,
    pub at: Place,
}
