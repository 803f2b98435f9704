//! Netlists: named wires with one operator each, registers and memories, as the small subset of Verilog has them.
#![tactic(auto)]

pub mod laws;
pub mod name_map;
pub mod netlist;
pub mod parts;
pub mod port_names;
