//! How many wires are left.

ghost use Rattle.std.specs.Prelude.{◌≡◌, ◌≤◌, [], ◌∷◌, filter, length};
ghost use Rattle.sap_share.specs.Sets.{AreSame, holds};
ghost use Rattle.sap_trim.specs.Few.{calculated, most_left};
ghost use Rattle.sap_trim.specs.Names.{port_names};
ghost use Rattle.sap_trim.specs.Needed.{MarksNeeded, marked};

use sap_net::netlist::Netlist;
use sap_net::parts::{Right, Wire};
use sap_share::name_set::NameSet;

/// One for a wire that is kept and no copy.
fn calculates(is_kept: bool, wire: &Wire) -> usize
    ensures same { result ≡ length (calculated (marked (is_kept ∷ []) (wire.now ∷ []))) }
    ensures most { result ≤ 1 }
{
    if !is_kept {
        return 0;
    }
    match wire.right {
        Right::Copy(_) => 0,
        _ => 1,
    }
}

/// How many of the wires that are kept are no copies.
fn count_calculated(kept: &[bool], wires: &[Wire]) -> usize
    requires { length kept.now ≡ length wires.now }
    ensures same { result ≡ length (calculated (marked kept.now wires.now)) }
    ensures most { result ≤ length wires.now }
{
    let mut count = 0;
    for (k, wire) in wires.iter().enumerate() {
        count += calculates(kept[k], wire);
    }
    count
}

/// One for a wire that is a port.
fn shows(shown: &NameSet, wire: &Wire) -> usize
    ensures same { result ≡ length (filter (λ w. holds shown.now w.name) (wire.now ∷ [])) }
    ensures most { result ≤ 1 }
{
    if shown.has(&wire.name) { 1 } else { 0 }
}

/// How many of the wires are ports.
fn count_shown(shown: &NameSet, wires: &[Wire]) -> usize
    ensures same { result ≡ length (filter (λ w. holds shown.now w.name) wires.now) }
    ensures most { result ≤ length wires.now }
{
    let mut count = 0;
    for wire in wires {
        count += shows(shown, wire);
    }
    count
}

/// How many wires are left at most without those that nothing reads.
pub fn wires_left(netlist: &Netlist, shown: &NameSet, kept: &[bool]) -> usize
    requires shown { AreSame shown.now (port_names netlist.now) }
    requires kept { MarksNeeded netlist.now kept.now }
    ensures { result ≡ most_left netlist.now }
{
    netlist.rules();
    let wires = netlist.wires();
    count_calculated(kept, wires) + count_shown(shown, wires)
}
