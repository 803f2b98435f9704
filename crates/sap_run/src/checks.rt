//! The tests and the guards of steps.

ghost use Rattle.std.specs.Prelude.{◌≡◌, ◌&&◌, ◌||◌, if◌then◌else◌};
ghost use Rattle.sap_meaning.specs.Checks as checks;
ghost use Rattle.sap_meaning.specs.Expressions as expressions;
ghost use Rattle.sap_meaning.specs.Program as program;
ghost use Rattle.sap_meaning.specs.Store as meaning;
ghost use Rattle.sap_program.specs.Views as views;
ghost use Rattle.sap_store.specs.Able.{AbleLevel, AbleStep, AbleTerm};
ghost use Rattle.sap_store.specs.Code.{entities_in, home_in, store_in, world_in};
ghost use Rattle.sap_store.specs.Kept.{Ready};

use sap_lattice::level::Level;
use sap_program::home::Home;
use sap_program::program::{Number, State, Step, TagOf};
use sap_store::entries::{child, own, start_cell};
use sap_store::environment::Environment;
use sap_store::store::Store;
use sap_store::terms::{new_level, see, told};

/// The level of the child at a place, the bottom where there is none.
#[tactic(auto, using(crate::proofs::Children::levels))]
pub(crate) fn child_level(
    environment: &Environment<'_>,
    store: &Store,
    children: &[State],
    n: usize,
) -> Level
    ensures { result ≡ checks.child_level (world_in environment.now) (views.group_of (entities_in environment.now) children.now) n (store_in environment.now store.now) }
{
    if n < children.len() {
        own(environment, store, children[n].number).level
    } else {
        environment.lattice.bottom()
    }
}

/// Whether a state may be entered in a context.
fn opens(environment: &Environment<'_>, store: &Store, state: usize, context: Level) -> bool
    ensures { result ≡ checks.opens (world_in environment.now) state context (store_in environment.now store.now) }
{
    environment.program.is_dynamic(state)
        || environment
            .lattice
            .le(context, own(environment, store, state).level)
}

/// Whether the child at a place may; where there is none, it may.
#[tactic(auto, using(crate::proofs::Children::opening))]
fn child_opens(
    environment: &Environment<'_>,
    store: &Store,
    children: &[State],
    n: usize,
    context: Level,
) -> bool
    ensures { result ≡ checks.child_opens (world_in environment.now) (views.group_of (entities_in environment.now) children.now) n context (store_in environment.now store.now) }
{
    n >= children.len() || opens(environment, store, children[n].number, context)
}

/// The level of a register that is enforced, and this one where it is dynamic.
pub(crate) fn register_level(
    environment: &Environment<'_>,
    store: &Store,
    register: usize,
    level: Level,
) -> Level
    ensures { let w = world_in environment.now in
        result ≡ (if program.is_dynamic w register then level else meaning.level w (meaning.own register) (store_in environment.now store.now)) }
{
    if environment.program.is_dynamic(register) {
        level
    } else {
        own(environment, store, register).level
    }
}

/// The level of the cell of a memory that is enforced, with that of its index; the bottom where the memory is dynamic.
fn cell_guard(environment: &Environment<'_>, store: &Store, memory: usize, index: &Number) -> Level
    requires ready { Ready (world_in environment.now) store.now }
    requires able { AbleTerm (world_in environment.now) (views.term_of index.now) }
    ensures { let w = world_in environment.now in let s = store_in environment.now store.now in let i = views.term_of index.now in
        result ≡ (if program.is_dynamic w memory then w.order.bottom else w.order.join (expressions.tag w i s) (meaning.level w (meaning.start memory (expressions.value w i s)) s)) }
{
    if environment.program.is_dynamic(memory) {
        environment.lattice.bottom()
    } else {
        let index = see(environment, store, index);
        let cell = start_cell(environment, store, memory, index.number);
        environment.lattice.join(index.level, cell.level)
    }
}

/// The guard of a step: the level of what it overwrites, and of what decides that.
pub(crate) fn guard(
    environment: &Environment<'_>,
    at: &Home<'_>,
    store: &Store,
    step: &Step,
) -> Level
    requires ready { Ready (world_in environment.now) store.now }
    requires able { AbleStep (world_in environment.now) (views.step_of (entities_in environment.now) step.now) }
    ensures { result ≡ checks.guard (world_in environment.now) (home_in environment.now at.now) (views.step_of (entities_in environment.now) step.now) (store_in environment.now store.now) }
{
    match step {
        Step::Set { register, .. } => {
            let bottom = environment.lattice.bottom();
            register_level(environment, store, *register, bottom)
        }
        Step::Write { memory, index, .. } => cell_guard(environment, store, *memory, index),
        Step::Retag { entity, .. } => environment.program.authority(*entity),
        Step::RetagCell { memory, .. } => environment.program.authority(*memory),
        Step::Goto { target, .. } => environment.program.entry(environment.lattice, *target),
        Step::Fall { .. } => {
            let place = child(environment, store, at.state) as usize;
            child_level(environment, store, at.children, place)
        }
    }
}

/// Whether a register takes a number in a context.
fn takes_number(
    environment: &Environment<'_>,
    store: &Store,
    register: usize,
    value: &Number,
    context: Level,
) -> bool
    requires ready { Ready (world_in environment.now) store.now }
    requires able { AbleTerm (world_in environment.now) (views.term_of value.now) }
    ensures { let w = world_in environment.now in let s = store_in environment.now store.now in
        result ≡ (program.is_dynamic w register || w.order.le (w.order.join context (expressions.tag w (views.term_of value.now) s)) (meaning.level w (meaning.own register) s)) }
{
    if environment.program.is_dynamic(register) {
        true
    } else {
        let value = see(environment, store, value);
        let level = environment.lattice.join(context, value.level);
        environment
            .lattice
            .le(level, own(environment, store, register).level)
    }
}

/// Whether a memory takes a number at an index in a context.
fn takes_cell(
    environment: &Environment<'_>,
    store: &Store,
    memory: usize,
    index: &Number,
    value: &Number,
    context: Level,
) -> bool
    requires ready { Ready (world_in environment.now) store.now }
    requires index { AbleTerm (world_in environment.now) (views.term_of index.now) }
    requires value { AbleTerm (world_in environment.now) (views.term_of value.now) }
    ensures { let w = world_in environment.now in let s = store_in environment.now store.now in let i = views.term_of index.now in
        result ≡ (program.is_dynamic w memory || w.order.le (w.order.join context (w.order.join (expressions.tag w i s) (expressions.tag w (views.term_of value.now) s))) (meaning.level w (meaning.start memory (expressions.value w i s)) s)) }
{
    if environment.program.is_dynamic(memory) {
        true
    } else {
        let lattice = environment.lattice;
        let index = see(environment, store, index);
        let value = see(environment, store, value);
        let level = lattice.join(context, lattice.join(index.level, value.level));
        let cell = start_cell(environment, store, memory, index.number);
        lattice.le(level, cell.level)
    }
}

/// Whether an authority sets a tag, where so much is told.
fn sets_tag(
    environment: &Environment<'_>,
    store: &Store,
    told: Level,
    authority: Level,
    tag: &TagOf,
) -> bool
    requires ready { Ready (world_in environment.now) store.now }
    requires able { AbleLevel (world_in environment.now) (views.level_of tag.now) }
    ensures { let w = world_in environment.now in
        result ≡ (w.order.le told authority && w.order.le authority (expressions.new_level w (views.level_of tag.now) (store_in environment.now store.now))) }
{
    let lattice = environment.lattice;
    lattice.le(told, authority) && lattice.le(authority, new_level(environment, store, tag))
}

/// Whether a state may be entered from another one in a context, and that one left.
fn may_go(
    environment: &Environment<'_>,
    store: &Store,
    state: usize,
    target: usize,
    context: Level,
) -> bool
    ensures { let w = world_in environment.now in let s = store_in environment.now store.now in
        result ≡ (checks.opens w target context s && (program.is_dynamic w state || w.order.le (w.order.join context (checks.entry w target)) (meaning.level w (meaning.own state) s))) }
{
    let lattice = environment.lattice;
    let leaves = environment.program.is_dynamic(state)
        || {
            let told = lattice.join(context, environment.program.entry(lattice, target));
            lattice.le(told, own(environment, store, state).level)
        };
    opens(environment, store, target, context) && leaves
}

/// Whether a step passes its test in a context.
pub(crate) fn test(
    environment: &Environment<'_>,
    at: &Home<'_>,
    store: &Store,
    step: &Step,
    context: Level,
) -> bool
    requires ready { Ready (world_in environment.now) store.now }
    requires able { AbleStep (world_in environment.now) (views.step_of (entities_in environment.now) step.now) }
    ensures { result ≡ checks.test (world_in environment.now) (home_in environment.now at.now) (views.step_of (entities_in environment.now) step.now) context (store_in environment.now store.now) }
{
    let lattice = environment.lattice;
    match step {
        Step::Set {
            register,
            value,
            ..
        } => takes_number(environment, store, *register, value, context),
        Step::Write {
            memory,
            index,
            value,
            ..
        } => takes_cell(environment, store, *memory, index, value, context),
        Step::Retag { entity, tag, .. } => {
            let authority = environment.program.authority(*entity);
            let told = lattice.join(context, told(environment, store, tag));
            sets_tag(environment, store, told, authority, tag)
        }
        Step::RetagCell {
            memory,
            index,
            tag,
            ..
        } => {
            let authority = environment.program.authority(*memory);
            let index = see(environment, store, index);
            let both = lattice.join(told(environment, store, tag), index.level);
            let told = lattice.join(context, both);
            sets_tag(environment, store, told, authority, tag)
        }
        Step::Goto { target, .. } => may_go(environment, store, at.state, *target, context),
        Step::Fall { .. } => {
            let place = child(environment, store, at.state) as usize;
            child_opens(environment, store, at.children, place, context)
        }
    }
}
