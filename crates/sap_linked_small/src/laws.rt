//! What holds of every netlist of which the same is seen as of the netlist of a system.

ghost use Rattle.sap_linked_small.specs.Laws.{SmallNetsStand, SmallDesignsStand};

/// A netlist that declares the same as the netlist of a system, shows the same numbers in its runs, and has no other wires than
/// helping ones, stands for the system without the ports of what feeds inputs, and starts as it does, for systems of well-formed
/// designs too.
pub fn small_nets_stand()
    ensures all { SmallNetsStand }
    ensures designs { SmallDesignsStand }
{
    sap_link::designs::linked_designs_serve();
    sap_linked::laws::linked_nets_stand();
    sap_linked::laws::linked_net_links();
    sap_linked::laws::linked_net_is_netlist()
}
