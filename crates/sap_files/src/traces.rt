//! The trace of a design on a stimulus file.

ghost use Rattle.sap_check.specs.Checked.{levels_in, tree_in};
ghost use Rattle.sap_interface.specs.Designs.{StandsForDesign};
ghost use Rattle.sap_sim.specs.Labelled.RunOf.{read_for};
ghost use Rattle.sap_trace.specs.Stepping.{AreLines, IsAfter};
ghost use Rattle.sap_files.specs.Asks.{prints};
ghost use Rattle.sap_files.specs.StimulusTexts.{AreTraceLines};
ghost use Rattle.sap_files.specs.Steps.{Ends, ending_of, seen};

use crate::buffers::take_buffers;
use crate::failure::Failure;
use crate::printing::print_with;
use sap_check::Checked;
use sap_desk::{Desk, RowBuf};
use sap_lattice::Lattice;
use sap_lines::Steps;
use sap_net::netlist::Netlist;
use sap_stream::Inputs;
use sap_trace::Tracing;
use std::alloc::Global;

// A netlist that stands for a checked design and is stepped on lines.
#[derive(Drop)]
struct Traces<'c> {
    tracing: Tracing,
    checked: &'c Checked,
}

impl Steps for Traces<'_> {
    ghost levels = { λ s. levels_in s.checked.now };

    ghost fields = { λ s. s.tracing.fields };

    ghost room = { λ s. s.tracing.room };

    ghost behind = { λ s lines. IsAfter (levels_in s.checked.now) (tree_in s.checked.now) s.tracing.runner.net lines s.tracing };

    ghost shows = { λ s lines text. AreLines (levels_in s.checked.now) (tree_in s.checked.now) s.tracing.runner.net lines text };

    fn lattice(&self) -> &Lattice {
        self.checked.lattice()
    }

    fn room(&self) -> usize {
        self.tracing.room()
    }

    fn step(&mut self, out: &mut RowBuf, cycle: u64, line: &Inputs) {
        self.tracing.lines_add_up(self.checked);
        self.tracing.lines_into(out, self.checked, cycle, line);
    }
}

/// Prints the trace of a design on a stimulus file, by a netlist that stands for it. It takes all its memory before the
/// file is opened.
pub fn print_trace<'a, D: Desk>(
    alloc: Global,
    desk: &mut D,
    checked: &Checked,
    netlist: Netlist,
    stimulus: &'a str,
) -> Result<(), Failure<'a>>
    requires { StandsForDesign (levels_in checked.now) (tree_in checked.now) netlist }
    ensures { Ends (prints stimulus.now (AreTraceLines (levels_in checked.now) (tree_in checked.now)) (λ bytes. (read_for (levels_in checked.now) (tree_in checked.now) bytes).fault))
        (ending_of result) (seen D.told D.faults D.lost D.sure desk.old) (seen D.told D.faults D.lost D.sure desk.new) }
{
    let tracing = Tracing::new(alloc, checked, netlist)?;
    tracing.lines_add_up(checked);
    let held = take_buffers(alloc, tracing.fields(), tracing.room())?;
    let steps = Traces { tracing, checked };
    print_with(desk, stimulus, steps, held)
}
