//! The blocks of the dump of a netlist's run, one after another.

ghost use Rattle.std.specs.Prelude.{◌≡◌, ◌++◌, ◌∷◌, ℕ, List, length};
ghost use Rattle.sap_meaning.specs.Cycle.{Tagged as Given};
ghost use Rattle.sap_wave_run.specs.Ahead.{cycles_ahead};
ghost use Rattle.sap_wave_run.specs.ToCome.{CanGoOn, IsToCome};

use crate::cycles::Cycles;
use sap_cycle::runner::Place;
use sap_lattice::Lattice;
use sap_pieces::Pieces;
use sap_sim::Simulation;
use sap_stream::Tagged;
use sap_wave::Dumper;

/// The blocks of a netlist's run on the cycles of a stream that are still to come.
#[derive(Drop)]
pub struct Dump<'a> {
    pub simulation: Simulation,
    pub dumper: Dumper,
    pub places: Vec<Place>,
    pub lattice: &'a Lattice,
    pub cycles: Cycles<'a>,
}

// Steps on a line, and makes the block of the cycle.
fn step(
    simulation: &mut Simulation,
    dumper: &mut Dumper,
    places: &[Place],
    lattice: &Lattice,
    line: &[Tagged],
)
    requires { (ahead : List (List Given)) × CanGoOn lattice.now simulation.old dumper.old places.now (line.now ∷ ahead) }
    ensures { (ahead : List (List Given)) (text : List ℕ) → IsToCome lattice.now simulation.old dumper.old places.now (line.now ∷ ahead) text
        → (rest : List ℕ) × (text ≡ dumper.new.block ++ rest) × IsToCome lattice.now simulation.new dumper.new places.now ahead rest }
{
    simulation.step(lattice, line);
    dumper.write_block_at(simulation.runner(), places);
}

impl Pieces for Dump<'_> {
    ghost piece = { λ d. d.dumper.block };

    ghost comes = { λ d text. IsToCome d.lattice.now d.simulation d.dumper d.places.items (cycles_ahead d.cycles) text };

    ghost left = { λ d. length (cycles_ahead d.cycles) };

    fn advance(&mut self) -> bool {
        match self.cycles.next() {
            Some(line) => {
                step(
                    &mut self.simulation,
                    &mut self.dumper,
                    &self.places,
                    self.lattice,
                    line,
                );
                true
            }
            None => false,
        }
    }

    fn piece(&self) -> &[u8] {
        self.dumper.block()
    }
}
