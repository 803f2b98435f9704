//! What several tests are given.

use sap_latfile::read_lattice;
use sap_lattice::lattice::Lattice;
use sap_net::netlist::Netlist;
use sap_net::parts::Name;
use sap_vprint::print;
use std::alloc::{AllocError, Global};

/// `low` below `high`.
pub const TWO: &[u8] = b"levels = [\"low\", \"high\"]\nbelow = [[\"low\", \"high\"]]\n";

/// `low` below `a` and `b`, and these below `high`. Codes have two bits.
pub const DIAMOND: &[u8] =
    b"levels = [\"low\", \"a\", \"b\", \"high\"]\nbelow = [[\"low\", \"a\"], [\"low\", \"b\"], [\"a\", \"high\"], [\"b\", \"high\"]]\n";

/// The lattice of `low` and `high`.
pub fn two(alloc: Global) -> Option<Lattice> {
    read_lattice(alloc, TWO).ok()
}

/// The name of a text.
pub fn name(alloc: Global, text: &str) -> Result<Name, AllocError> {
    Ok(Name::new(String::from_str(alloc, text)?))
}

/// Whether the module of a netlist has this text.
pub fn is_printed_as(alloc: Global, netlist: &Netlist, text: &str) -> bool {
    match print(alloc, netlist) {
        Ok(printed) => printed.as_slice() == text.as_bytes(),
        Err(_) => false,
    }
}
