//! What holds of every netlist that links the netlists of parts.

ghost use Rattle.sap_linked.specs.Laws.{NamesStayApart, PartsKeepApart, InputsInOrder, LinkedNetsStand, PartsDeclare, LinkedNetLinks, LinkedNetDeclares, AllNamesDiffer, LinkedNetIsNetlist};
ghost use Rattle.sap_linked.specs.Designs.{LinkedDesignsStand, LinkedDesignsAreNetlists};

/// Names of parts stay apart in the module of their system, and so do those of each part's netlist.
pub fn names_stay_apart()
    ensures all { NamesStayApart }
    ensures part { PartsKeepApart }
{}

/// The free inputs of a system come in the order of its ports.
pub fn inputs_in_order()
    ensures { InputsInOrder }
{}

/// A netlist that links those of parts takes every stream that fits the system, and in its run on it each cycle stands for
/// the same cycle of the composite run, part by part: states, refusals, and what each part's inputs receive.
pub fn linked_nets_stand()
    ensures { LinkedNetsStand }
{
    sap_build::laws::parts_run_alike();
    sap_link::states_keep();
    sap_link::parts_run_alone();
    sap_link::inputs_receive()
}

/// So does one that links netlists of well-formed designs, over any lattice, with wires that break no rule.
pub fn linked_designs_stand()
    ensures { LinkedDesignsStand }
{
    sap_link::designs::linked_designs_serve();
    linked_nets_stand()
}

/// A netlist declares what each of its parts declares of a design, under the part's names in it.
pub fn parts_declare()
    ensures { PartsDeclare }
{}

/// The netlist of a system, where it keeps the rules of netlists, links the netlists of the parts, and without the ports of what
/// feeds inputs it declares the ports, inputs, registers, memories and wires of the system's interface.
pub fn linked_net_links()
    ensures links { LinkedNetLinks }
    ensures declares { LinkedNetDeclares }
{}

/// The free inputs, the wires that feed and what stands in the netlists of parts have different names in the netlist of a system.
pub fn all_names_differ()
    ensures { AllNamesDiffer }
{
    inputs_in_order()
}

/// Where the names of parts and the wires break no rule, the netlist of a system keeps the rules of netlists, and so does that
/// of a system of well-formed designs over any lattice.
pub fn linked_net_is_netlist()
    ensures all { LinkedNetIsNetlist }
    ensures designs { LinkedDesignsAreNetlists }
{
    sap_build::laws::copies_are_netlists()
}
