//! The effects of steps that enter no child.

ghost use Rattle.std.specs.Prelude.{◌≡◌, ◌<◌, ◌≤◌, IsTrue, false, nat_eq, if◌then◌else◌};
ghost use Rattle.sap_lattice.specs.Levels.{order_of};
ghost use Rattle.sap_meaning.specs.Program as program;
ghost use Rattle.sap_meaning.specs.Store as meaning;
ghost use Rattle.sap_program.specs.Hangs.{rises};
ghost use Rattle.sap_program.specs.Views as views;
ghost use Rattle.sap_run.specs.Runs.{IsEffect, acted};
ghost use Rattle.sap_store.specs.Able.{AbleStep, AbleIndex, AbleLevel, AbleTarget, AbleValue};
ghost use Rattle.sap_store.specs.Code.{entities_in, store_in, world_in};
ghost use Rattle.sap_store.specs.Kept.{Ready};

use crate::checks::register_level;
use sap_lattice::level::Level;
use sap_program::home::Home;
use sap_program::program::{Number, Step, TagOf};
use sap_store::cell::Cell;
use sap_store::entries::{
    own, put_cell_level, put_cell_number, put_child, put_level, put_number, raise, raise_one,
    reset, start_cell,
};
use sap_store::environment::Environment;
use sap_store::store::Store;
use sap_store::terms::{new_level, see};

/// How a step acts whose test held: in the body at a home, in a context, behind what hangs, which a level raises.
#[derive(Clone, Copy, Drop)]
pub(crate) struct Situation<'a> {
    pub at: &'a Home<'a>,
    pub context: Level,
    pub hang: &'a [usize],
    pub level: Level,
}

#[tactic(auto, unfolding(sap_meaning::specs::Does::effect))]
fn set(
    environment: &Environment<'_>,
    store: &mut Store,
    here: &Situation<'_>,
    register: usize,
    value: &Number,
)
    requires ready { Ready (world_in environment.now) store.old }
    requires rising { IsTrue (rises here.now.hang.now) }
    requires able { AbleValue (world_in environment.now) register (views.term_of value.now) }
    ensures store { let step = program.assign 0 register (views.term_of value.now) in
        store_in environment.now store.new ≡ acted environment.now here.now step (store_in environment.now store.old) }
    ensures ready { Ready (world_in environment.now) store.new }
{
    let seen = see(environment, store, value);
    let level = environment.lattice.join(here.context, seen.level);
    raise(environment, store, here.hang, here.level);
    let level = register_level(environment, store, register, level);
    put_number(environment, store, register, seen.number);
    put_level(environment, store, register, level);
}

/// Raises a memory, if it is dynamic, for the next cycle.
fn raise_dynamic(environment: &Environment<'_>, store: &mut Store, memory: usize, level: Level)
    requires ready { Ready (world_in environment.now) store.old }
    requires within { memory < program.root (world_in environment.now) }
    ensures store { let w = world_in environment.now in let s = store_in environment.now store.old in
        store_in environment.now store.new ≡ (if program.is_dynamic w memory then meaning.raise w.order (λ x. nat_eq x memory) level s else s) }
    ensures ready { Ready (world_in environment.now) store.new }
{
    if environment.program.is_dynamic(memory) {
        raise_one(environment, store, memory, level);
    }
}

#[tactic(auto, unfolding(sap_meaning::specs::Does::effect))]
fn write(
    environment: &Environment<'_>,
    store: &mut Store,
    here: &Situation<'_>,
    memory: usize,
    index: &Number,
    value: &Number,
)
    requires ready { Ready (world_in environment.now) store.old }
    requires rising { IsTrue (rises here.now.hang.now) }
    requires index { AbleIndex (world_in environment.now) memory (views.term_of index.now) }
    requires value { AbleValue (world_in environment.now) memory (views.term_of value.now) }
    ensures store { let step = program.write 0 memory (views.term_of index.now) (views.term_of value.now) in
        store_in environment.now store.new ≡ acted environment.now here.now step (store_in environment.now store.old) }
    ensures ready { Ready (world_in environment.now) store.new }
{
    let index = see(environment, store, index);
    let value = see(environment, store, value);
    let both = environment.lattice.join(index.level, value.level);
    let level = environment.lattice.join(here.context, both);
    raise(environment, store, here.hang, here.level);
    raise_dynamic(environment, store, memory, level);
    put_cell_number(environment, store, memory, index.number, value.number);
}

#[tactic(auto, unfolding(sap_meaning::specs::Does::effect))]
fn retag(
    environment: &Environment<'_>,
    store: &mut Store,
    here: &Situation<'_>,
    entity: usize,
    tag: &TagOf,
)
    requires ready { Ready (world_in environment.now) store.old }
    requires rising { IsTrue (rises here.now.hang.now) }
    requires within { entity < program.root (world_in environment.now) }
    requires able { AbleLevel (world_in environment.now) (views.level_of tag.now) }
    ensures store { let step = program.retag 0 entity (views.level_of tag.now) in
        store_in environment.now store.new ≡ acted environment.now here.now step (store_in environment.now store.old) }
    ensures ready { Ready (world_in environment.now) store.new }
{
    let level = new_level(environment, store, tag);
    let cell = own(environment, store, entity);
    let number = kept(environment, cell, level);
    raise(environment, store, here.hang, here.level);
    put_number(environment, store, entity, number);
    put_level(environment, store, entity, level);
}

/// The number of a cell that gets a level: 0 where its own isn't at or below that one.
fn kept(environment: &Environment<'_>, cell: Cell, level: Level) -> u64
    ensures { result ≡ (if (order_of environment.now.lattice.now).le cell.level level then cell.number else 0) }
{
    if environment.lattice.le(cell.level, level) {
        cell.number
    } else {
        0
    }
}

#[tactic(auto, unfolding(sap_meaning::specs::Does::effect))]
fn retag_cell(
    environment: &Environment<'_>,
    store: &mut Store,
    here: &Situation<'_>,
    memory: usize,
    index: &Number,
    tag: &TagOf,
)
    requires ready { Ready (world_in environment.now) store.old }
    requires rising { IsTrue (rises here.now.hang.now) }
    requires index { AbleIndex (world_in environment.now) memory (views.term_of index.now) }
    requires enforced { program.is_dynamic (world_in environment.now) memory ≡ false }
    requires able { AbleLevel (world_in environment.now) (views.level_of tag.now) }
    ensures store { let step = program.retag_cell 0 memory (views.term_of index.now) (views.level_of tag.now) in
        store_in environment.now store.new ≡ acted environment.now here.now step (store_in environment.now store.old) }
    ensures ready { Ready (world_in environment.now) store.new }
{
    let level = new_level(environment, store, tag);
    let index = see(environment, store, index);
    let cell = start_cell(environment, store, memory, index.number);
    let number = kept(environment, cell, level);
    raise(environment, store, here.hang, here.level);
    put_cell_number(environment, store, memory, index.number, number);
    put_cell_level(environment, store, memory, index.number, level);
}

#[tactic(auto, unfolding(sap_meaning::specs::Does::effect))]
fn goto(environment: &Environment<'_>, store: &mut Store, here: &Situation<'_>, target: usize)
    requires ready { Ready (world_in environment.now) store.old }
    requires rising { IsTrue (rises here.now.hang.now) }
    requires parent { here.now.at.now.parent ≤ program.root (world_in environment.now) }
    requires able { AbleTarget (world_in environment.now) target }
    ensures store { store_in environment.now store.new ≡ acted environment.now here.now (program.go_to 0 target) (store_in environment.now store.old) }
    ensures ready { Ready (world_in environment.now) store.new }
{
    raise(environment, store, here.hang, here.level);
    put_child(
        environment,
        store,
        here.at.parent,
        environment.program.place(target) as u32,
    );
    reset(environment, store, target);
    if environment.program.is_dynamic(target) {
        put_level(environment, store, target, here.context);
    }
}

/// The effect of a step whose test held, behind what is raised. A fall, which enters a child, does nothing here.
#[tactic(auto, unfolding(sap_meaning::specs::Does::effect))]
pub(crate) fn act(
    environment: &Environment<'_>,
    store: &mut Store,
    here: &Situation<'_>,
    step: &Step,
)
    requires ready { Ready (world_in environment.now) store.old }
    requires rising { IsTrue (rises here.now.hang.now) }
    requires able { AbleStep (world_in environment.now) (views.step_of (entities_in environment.now) step.now) }
    requires parent { here.now.at.now.parent ≤ program.root (world_in environment.now) }
    ensures store { let k = views.step_of (entities_in environment.now) step.now in
        IsEffect step.now → store_in environment.now store.new ≡ acted environment.now here.now k (store_in environment.now store.old) }
    ensures ready { Ready (world_in environment.now) store.new }
{
    match step {
        Step::Set {
            register,
            value,
            ..
        } => set(environment, store, here, *register, value),
        Step::Write {
            memory,
            index,
            value,
            ..
        } => write(environment, store, here, *memory, index, value),
        Step::Retag { entity, tag, .. } => retag(environment, store, here, *entity, tag),
        Step::RetagCell {
            memory,
            index,
            tag,
            ..
        } => retag_cell(environment, store, here, *memory, index, tag),
        Step::Goto { target, .. } => goto(environment, store, here, *target),
        Step::Fall { .. } => {}
    }
}
