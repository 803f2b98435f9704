//! The netlist of a module's text.
//!
//! `build` notes under each name its declared range, its initial number and the item of its `always`, and then goes down
//! the ports and items once for each list of the netlist.

mod building;
mod edges;
mod firsts;
mod names;
mod narrow;
mod noting;
mod operands;
mod shown;
mod tables;
mod wires;

pub use building::build;
