//! The rows of a netlist on a stimulus file.

ghost use Rattle.sap_sim.specs.Simulated.{read_for};
ghost use Rattle.sap_sim.specs.Stepping.{AreRows, IsAfter};
ghost use Rattle.sap_files.specs.Asks.{prints};
ghost use Rattle.sap_files.specs.StimulusTexts.{AreModuleRows};
ghost use Rattle.sap_files.specs.Steps.{Ends, ending_of, seen};

use crate::buffers::take_buffers;
use crate::failure::Failure;
use crate::printing::print_with;
use sap_desk::{Desk, RowBuf};
use sap_lattice::Lattice;
use sap_lines::Steps;
use sap_net::laws::one_run;
use sap_net::netlist::Netlist;
use sap_sim::Simulation;
use sap_stim::stimulus_fits;
use sap_stream::Inputs;
use std::alloc::Global;

// A netlist that is stepped on lines, over a lattice.
#[derive(Drop)]
struct Rows<'l> {
    simulation: Simulation,
    lattice: &'l Lattice,
}

impl Steps for Rows<'_> {
    ghost levels = { λ s. s.lattice.now };

    ghost fields = { λ s. s.simulation.fields };

    ghost room = { λ s. s.simulation.room };

    ghost behind = { λ s lines. IsAfter s.lattice.now s.simulation.runner.net lines s.simulation };

    ghost shows = { λ s lines text. AreRows s.lattice.now s.simulation.runner.net lines text };

    fn lattice(&self) -> &Lattice {
        self.lattice
    }

    fn room(&self) -> usize {
        self.simulation.room()
    }

    fn step(&mut self, out: &mut RowBuf, cycle: u64, line: &Inputs) {
        self.simulation.rows_add_up(self.lattice);
        self.simulation.row_into(out, self.lattice, cycle, line);
    }
}

/// Prints the rows of a netlist on a stimulus file. It takes all its memory before the file is opened.
pub fn print_rows<'a, D: Desk>(
    alloc: Global,
    desk: &mut D,
    lattice: &Lattice,
    netlist: Netlist,
    stimulus: &'a str,
) -> Result<(), Failure<'a>>
    ensures { Ends (prints stimulus.now (AreModuleRows lattice.now netlist) (λ bytes. (read_for lattice.now netlist bytes).fault))
        (ending_of result) (seen D.told D.faults D.lost D.sure desk.old) (seen D.told D.faults D.lost D.sure desk.new) }
{
    netlist.rules();
    lattice.lawful();
    stimulus_fits();
    one_run(&netlist);
    let simulation = Simulation::new(alloc, lattice, netlist)?;
    simulation.rows_add_up(lattice);
    let held = take_buffers(alloc, simulation.fields(), simulation.room())?;
    let steps = Rows {
        simulation,
        lattice,
    };
    print_with(desk, stimulus, steps, held)
}
