//! The last passes joined: from nested states to a netlist.

ghost use Rattle.std.specs.Prelude.{◌≤◌, IfOk};
ghost use Rattle.sap_ir.specs.Plain.Program.{nested_of};
ghost use Rattle.sap_ir.specs.Plain.Writes.{PlainWritesOnce};
ghost use Rattle.sap_size.specs.Items.{items};
ghost use Rattle.sap_size.specs.Nested.{nested_weight};
ghost use Rattle.sap_trim.specs.Reads.{ReadsWires};
ghost use Rattle.sap_share.specs.Copying.{CopiesPorts};
ghost use Rattle.sap_trim.specs.Trimmed.{FoldsWires, SharesWires};
ghost use Rattle.sap_compile.specs.Stages.Stages.{StandsForTheSame, StartsAsTheSame};

use sap_flat::flatten::flatten;
use sap_ir::plain::program::Plain;
use sap_lower::lower::lower;
use sap_net::laws::one_run;
use sap_net::netlist::Netlist;
use sap_trim::trim::trim;
use std::alloc::{AllocError, Global};

/// The small netlist of nested states that write no memory twice in a cycle.
pub fn netlist(alloc: Global, program: &Plain) -> Result<Netlist, AllocError>
    requires once { PlainWritesOnce (nested_of program.now) }
    ensures stands { IfOk result (λ n. StandsForTheSame (nested_of program.now) n) }
    ensures starts { IfOk result (λ n. StartsAsTheSame (nested_of program.now) n) }
    ensures shared { IfOk result (λ n. SharesWires n) }
    ensures folded { IfOk result (λ n. FoldsWires n) }
    ensures read { IfOk result (λ n. ReadsWires n) }
    ensures copies { IfOk result (λ n. CopiesPorts n) }
    ensures small { IfOk result (λ n. items n ≤ nested_weight (nested_of program.now)) }
{
    program.rules();
    let source = flatten(alloc, program)?;
    let lowered = lower(alloc, &source)?;
    lowered.rules();
    one_run(&lowered);
    let net = trim(alloc, lowered)?;
    net.rules();
    Ok(net)
}
