//! A cycle of a program.

ghost use Rattle.std.specs.Prelude.{◌≡◌, None, length, replicate};
ghost use Rattle.sap_meaning.specs.Cycle.{cycle_listed};
ghost use Rattle.sap_meaning.specs.State.{InputsFit};
ghost use Rattle.sap_run.specs.Runs.{GroupAble, marked};
ghost use Rattle.sap_sem.specs.Falls.{fallen};
ghost use Rattle.sap_store.specs.Code.{program_of, store_in, world_in};
ghost use Rattle.sap_store.specs.Kept.{Ready};

use sap_lattice::level::Level;
use sap_run::run::body;
use sap_store::entries::{child, own, raise, set_inputs, settle};
use sap_store::environment::Environment;
use sap_store::store::Store;
use sap_stream::inputs::Inputs;

/// The root's fall into its current child.
#[tactic(auto, using(crate::proofs::Falls::falls))]
fn fall(environment: &Environment<'_>, store: &mut Store, marks: &mut [Option<Level>])
    requires ready { Ready (world_in environment.now) store.old }
    requires able { GroupAble environment.now environment.now.program.now.states.items }
    ensures store { store_in environment.now store.new ≡ (fallen environment.now (store_in environment.now store.old)).store }
    ensures marks { marks.new ≡ marked (fallen environment.now (store_in environment.now store.old)).refused marks.old }
    ensures ready { Ready (world_in environment.now) store.new }
{
    let program = environment.program;
    let root = program.entities.len();
    let place = child(environment, store, root) as usize;
    if place < program.states.len() {
        let state = &program.states[place];
        let level = own(environment, store, state.number).level;
        raise(environment, store, program.hang.numbers(), level);
        body(environment, store, marks, root, state, level);
    }
}

/// A cycle. The sites that it refuses are marked.
#[tactic(auto, unfolding(sap_meaning::specs::Cycle::cycle_listed, crate::specs::Falls::fallen))]
pub(crate) fn turn(
    environment: &Environment<'_>,
    store: &mut Store,
    marks: &mut [Option<Level>],
    inputs: &Inputs,
)
    requires ready { Ready (world_in environment.now) store.old }
    requires able { GroupAble environment.now environment.now.program.now.states.items }
    requires fit { InputsFit (world_in environment.now) inputs.now }
    ensures store { store_in environment.now store.new ≡ (cycle_listed (program_of environment.now) inputs.now (store_in environment.now store.old)).store }
    ensures marks { marks.new ≡ marked (cycle_listed (program_of environment.now) inputs.now (store_in environment.now store.old)).refused (replicate (length marks.old) None) }
    ensures ready { Ready (world_in environment.now) store.new }
{
    marks.fill(None);
    set_inputs(environment, store, inputs);
    fall(environment, store, marks);
    settle(environment, store);
}
