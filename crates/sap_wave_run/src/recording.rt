//! A netlist that is to be stepped, and what writing the dump of its run takes.

ghost use Rattle.std.specs.Prelude.{◌≡◌, IfOk};
ghost use Rattle.sap_wave_run.specs.Ready.{IsReady};

use sap_cycle::runner::Place;
use sap_desk::{Bytes, RowBuf};
use sap_lattice::Lattice;
use sap_net::netlist::Netlist;
use sap_pieces::LARGE_BYTES;
use sap_sim::Simulation;
use sap_stim::Fields;
use sap_wave::Dumper;
use std::alloc::{AllocError, Global};

/// A netlist before its first cycle, and all the memory that writing the dump of its run takes.
#[derive(Drop)]
pub struct Recording {
    pub simulation: Simulation,
    pub dumper: Dumper,
    /// Where the dumper's variables stand in the simulation's runner.
    pub places: Vec<Place>,
    /// The declarations and block 0.
    pub head: Bytes,
    pub waiting: RowBuf,
}

impl Recording {
    /// A netlist before its first cycle, its levels those of a lattice.
    pub fn new(alloc: Global, lattice: &Lattice, netlist: Netlist) -> Result<Recording, AllocError>
        ensures { IfOk result (IsReady lattice.now netlist) }
    {
        let simulation = Simulation::new(alloc, lattice, netlist)?;
        let dumper = Dumper::load(alloc, simulation.netlist())?;
        let places = dumper.places(alloc, simulation.runner())?;
        let head = dumper.head(alloc)?;
        let waiting = RowBuf::new(alloc, LARGE_BYTES)?;
        Ok(Recording {
            simulation,
            dumper,
            places,
            head,
            waiting,
        })
    }

    /// The fields of each line.
    pub fn fields(&self) -> &Fields
        ensures { result.now ≡ self.now.simulation.fields }
    {
        self.simulation.fields()
    }
}
