//! The steps of a netlist, and a cycle of them.

ghost use Rattle.std.specs.Prelude.{◌≡◌, length};
ghost use Rattle.sap_cycle.specs.Turned.{CanTurn, values_turned, cells_turned};

use crate::runs::{Run, settle_runs};
use crate::steps::{Part, Slot, Step, WritePort, copy_to, read_all, store_all};

/// The steps of the wires in an order in which each finds what it reads, in runs of one operator; the parts of longer
/// concatenations and the steps that have no instruction of their own; what each register takes at the edge, and the
/// write port of each memory.
#[derive(Drop)]
pub struct Program {
    pub parts: Vec<Part>,
    pub others: Vec<Step>,
    pub runs: Vec<Run>,
    pub nexts: Vec<Slot>,
    pub ports: Vec<WritePort>,
}

/// A cycle: the inputs, the wires, and then the edge. All that registers take is read before any of them changes.
pub fn turn(
    values: &mut [u64],
    cells: &mut [u64],
    edge: &mut [u64],
    inputs: &[u64],
    program: &Program,
)
    requires same { length edge.old ≡ length program.now.nexts.items }
    requires can { CanTurn program.now inputs.now values.old cells.old }
    ensures values { values.new ≡ values_turned program.now inputs.now values.old cells.old }
    ensures cells { cells.new ≡ cells_turned program.now inputs.now values.old cells.old }
{
    copy_to(values, 0, inputs);
    settle_runs(
        values,
        cells,
        &program.parts,
        &program.others,
        &program.runs,
    );
    read_all(edge, values, &program.nexts);
    store_all(cells, values, &program.ports);
    copy_to(values, inputs.len(), edge);
}
