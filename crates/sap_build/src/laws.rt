//! What holds of every copy of a netlist under other names, of netlists side by side in a larger one, and of netlists written part
//! by part.

ghost use Rattle.sap_build.specs.Counting.{CounterIsNetlist};
ghost use Rattle.sap_build.specs.SideBySide.{SideBySide};
ghost use Rattle.sap_build.specs.Written.{BlankIsNetlist, HelpersAreNew, InputsAreAdded, WiresAreAdded, ShownWiresAreAdded, RegistersAreAdded, ShownRegistersAreAdded, MemoriesAreAdded};
ghost use Rattle.sap_build.specs.Waiting.{WiresWait, ShownWiresWait, WaitsEnd, EdgesAreGiven};
ghost use Rattle.sap_build.specs.Laws.{CopiesAreNetlists, CopiesRunAlike, CopiesRunBack, CopiesShowAlike, CopiesAreParts, PartsRun, PartsRunSo, PartsShow};

/// A copy whose names stay apart keeps the rules of netlists.
pub fn copies_are_netlists()
    ensures { CopiesAreNetlists }
{}

/// A run of a copy, read through the names, is a run of the netlist on the same inputs, and every run of the netlist has the
/// numbers of such a run; and where a valuation has the numbers of one of the copy, the same is seen of both, cells included.
pub fn copies_run_alike()
    ensures runs { CopiesRunAlike }
    ensures back { CopiesRunBack }
    ensures shows { CopiesShowAlike }
{}

/// In each run of a larger netlist each part has a run, and only that, on the numbers that feed it, and the same is seen of
/// both, cells included. So where the inputs of parts are wires of the larger netlist, each part runs on what these give.
pub fn parts_run_alike()
    ensures runs { PartsRun }
    ensures only { PartsRunSo }
    ensures shows { PartsShow }
    ensures copies { CopiesAreParts }
{}

/// Two netlists side by side, of which one feeds the other, are parts of a netlist.
pub fn worked_parts()
    ensures { SideBySide }
{}

/// Where a netlist keeps the rules of netlists, so does the netlist with one more part that fits.
pub fn written_nets_are_netlists()
    ensures blank { BlankIsNetlist }
    ensures helpers { HelpersAreNew }
    ensures inputs { InputsAreAdded }
    ensures wires { WiresAreAdded }
    ensures shown_wires { ShownWiresAreAdded }
    ensures registers { RegistersAreAdded }
    ensures shown_registers { ShownRegistersAreAdded }
    ensures memories { MemoriesAreAdded }
{}

/// Wires can be declared before they are assigned, and what registers take and memories are written can be given at the end.
pub fn waiting_nets_are_netlists()
    ensures wires { WiresWait }
    ensures shown_wires { ShownWiresWait }
    ensures assigns { WaitsEnd }
    ensures edges { EdgesAreGiven }
{}

/// A counter, written in the order in which a module declares it, is a netlist.
pub fn worked_counter()
    ensures { CounterIsNetlist }
{}
