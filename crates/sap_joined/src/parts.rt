//! What is joined.

use sap_net::netlist::Netlist;
use sap_net::parts::Name;

/// A part's name and its netlist.
#[derive(Clone, Copy, Drop)]
pub struct NamedNet<'a> {
    pub name: &'a Name,
    pub netlist: &'a Netlist,
}

/// A register of a part feeds an input of a part, both so wide, through the level of a code where there is one. `from` and `to`
/// are names of a design: for x the netlists have `v_x` and `t_x`.
#[derive(Clone, Copy, Drop)]
pub struct Feed<'a> {
    pub from_part: &'a Name,
    pub from: &'a Name,
    pub to_part: &'a Name,
    pub to: &'a Name,
    pub width: u32,
    pub level: Option<u64>,
}
