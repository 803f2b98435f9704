//! The parts of a system.

use sap_check::Checked;
use sap_net::netlist::Netlist;
use sap_text::name::Name;

/// A part's name, its design and a netlist that stands for the design and starts as it does.
#[derive(Clone, Copy, Drop)]
pub struct LinkedPart<'a> {
    pub name: &'a Name,
    pub checked: &'a Checked,
    pub netlist: &'a Netlist,
}

/// The design of a part, and a netlist that stands for it and starts as it does.
#[derive(Clone, Copy, Drop)]
pub struct AddedPart<'a> {
    pub checked: &'a Checked,
    pub netlist: &'a Netlist,
}
