//! What holds of every tainted netlist.

ghost use Rattle.sap_taint_pass.specs.Laws.{HelpIsNamed, TaintedIsNetlist, TaintedCarries};
ghost use Rattle.sap_taint_pass.specs.Small.{TaintedIsSmall};

/// Where tags have names of their own, the tainted netlist is a netlist and carries the taint of the netlist without tags:
/// helping wires have names of their own, each run of it is one of the other with the taint of each name, and is seen as
/// that is.
pub fn tainted_carries()
    ensures helping { HelpIsNamed }
    ensures netlist { TaintedIsNetlist }
    ensures carries { TaintedCarries }
{}

/// Where tags have names of their own, the tainted netlist has few items.
pub fn tainted_is_small()
    ensures { TaintedIsSmall }
{}
