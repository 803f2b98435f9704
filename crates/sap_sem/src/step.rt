//! Steps of machines.

ghost use Rattle.std.specs.Prelude.{◌≡◌, ℕ};
ghost use Rattle.sap_meaning.specs.Cycle.{cycle};
ghost use Rattle.sap_meaning.specs.State.{InputsFit};
ghost use Rattle.sap_sem.specs.Machine.{IsSite, levels_of, program_of, refusal_of, refusals_of, refused_at, site_count_of, state_of};

use crate::machine::Machine;
use crate::turn::turn;
use sap_meaning::{lists_serve, refusals_in_order, states_keep};
use sap_store::environment::Environment;
use sap_stream::inputs::Inputs;

impl Machine {
    /// A cycle on these inputs.
    pub fn step(&mut self, inputs: &Inputs)
        requires { InputsFit (program_of self.old).world inputs.now }
        ensures levels { levels_of self.new ≡ levels_of self.old }
        ensures program { program_of self.new ≡ program_of self.old }
        ensures sites { site_count_of self.new ≡ site_count_of self.old }
        ensures state { state_of self.new ≡ (cycle (program_of self.old) inputs.now (state_of self.old)).store }
        ensures refusals { refusals_of self.new ≡ (cycle (program_of self.old) inputs.now (state_of self.old)).refused }
        ensures refused { (k : ℕ) → IsSite self.old k → refused_at self.new k ≡ refusal_of (cycle (program_of self.old) inputs.now (state_of self.old)).refused k }
    {
        lists_serve();
        refusals_in_order();
        states_keep();
        let environment = Environment {
            lattice: &self.lattice,
            program: &self.program,
        };
        turn(&environment, &mut self.store, &mut self.refusals, inputs);
    }
}
