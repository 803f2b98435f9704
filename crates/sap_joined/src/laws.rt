//! What joined netlists are of a system.

ghost use Rattle.sap_joined.specs.Systems.{JoinedIsLinked};

/// The netlists of a system's parts, joined by names, are the netlist of the system.
pub fn joined_is_linked()
    ensures { JoinedIsLinked }
{
    sap_linked::laws::inputs_in_order();
    sap_linked::laws::all_names_differ()
}
