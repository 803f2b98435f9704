//! Names.

use crate::place::Place;
pub use sap_text::name::Name;

/// A name, and the place where it is written.
#[derive(Debug, Drop)]
pub struct Mention {
    pub place: Place,
    pub name: Name,
}
