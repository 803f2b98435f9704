//! Two parts, of which one feeds the other through a level.

ghost use Rattle.sap_linked.specs.Examples.{PortsInOrder, LinkedIsNetlist};

/// The ports of the system in order, and a netlist of it that keeps the rules of netlists.
pub fn two_parts()
    ensures ports { PortsInOrder }
    ensures netlist { LinkedIsNetlist }
{}
