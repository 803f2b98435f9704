//! Variables.

use sap_net::parts::Name;

/// A variable of a dump, of a width from 1 to 64.
#[derive(Debug, Drop)]
pub struct Variable {
    pub name: Name,
    pub width: u32,
}
