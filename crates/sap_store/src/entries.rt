//! Reading a store, and the changes that steps make to it.

ghost use Rattle.std.specs.Prelude.{◌≡◌, ◌+◌, ◌<◌, ◌≤◌, ◌^◌, IsTrue, false, suc};
ghost use Rattle.sap_meaning.specs.Cycle as cycle;
ghost use Rattle.sap_meaning.specs.Program as program;
ghost use Rattle.sap_meaning.specs.Sized.{depth};
ghost use Rattle.sap_meaning.specs.State.{InputsFit};
ghost use Rattle.sap_meaning.specs.Store as meaning;
ghost use Rattle.sap_program.specs.Hangs.{flags, rises};
ghost use Rattle.sap_store.specs.Code.{entities_in, store_in, world_in};
ghost use Rattle.sap_store.specs.Kept.{Ready, input_in};
ghost use Rattle.sap_store.specs.Passes.{raised_one, reset_one, given_one, settled_one};

use crate::cell::Cell;
use crate::environment::Environment;
use crate::store::Store;
use sap_lattice::level::Level;
use sap_stream::inputs::{Inputs, Tagged};

/// An entity's own number and level.
#[tactic(auto, using(std::proofs::lemmas::List::get_or_past), unfolding(crate::specs::Kept::store_of))]
pub fn own(environment: &Environment<'_>, store: &Store, x: usize) -> Cell
    ensures number { result.number ≡ meaning.number (meaning.own x) (store_in environment.now store.now) }
    ensures level { result.level ≡ meaning.level (world_in environment.now) (meaning.own x) (store_in environment.now store.now) }
{
    match store.entries.get(x) {
        Some(entry) => entry.own,
        None => Cell {
            number: 0,
            level: environment.lattice.bottom(),
        },
    }
}

/// A memory's cell as the cycle began.
#[tactic(auto, using(crate::proofs::Stored::absent_level), unfolding(crate::specs::Kept::store_of))]
pub fn start_cell(environment: &Environment<'_>, store: &Store, memory: usize, i: u64) -> Cell
    ensures number { result.number ≡ meaning.number (meaning.start memory i) (store_in environment.now store.now) }
    ensures level { result.level ≡ meaning.level (world_in environment.now) (meaning.start memory i) (store_in environment.now store.now) }
{
    match store.entries.get(memory) {
        Some(entry) => {
            let cell = entry.start.cell(
                i,
                environment.program.first_level(environment.lattice, memory),
            );
            if environment.program.is_dynamic(memory) {
                Cell {
                    number: cell.number,
                    level: entry.start.whole(),
                }
            } else {
                cell
            }
        }
        None => Cell {
            number: 0,
            level: environment.program.first_level(environment.lattice, memory),
        },
    }
}

/// The place of the current child of an entity or the root.
#[tactic(auto, using(std::proofs::lemmas::List::get_or_past), unfolding(crate::specs::Kept::store_of))]
pub fn child(environment: &Environment<'_>, store: &Store, parent: usize) -> u32
    ensures { result ≡ meaning.child parent (store_in environment.now store.now) }
{
    match store.current.get(parent) {
        Some(place) => *place,
        None => 0,
    }
}

/// A new number of an entity.
pub fn put_number(environment: &Environment<'_>, store: &mut Store, x: usize, number: u64)
    requires ready { Ready (world_in environment.now) store.old }
    requires within { x < program.root (world_in environment.now) }
    requires fits { number < 2 ^ program.width (world_in environment.now) x }
    ensures store { store_in environment.now store.new ≡ meaning.put_number (meaning.own x) number (store_in environment.now store.old) }
    ensures ready { Ready (world_in environment.now) store.new }
{
    let entry = &mut store.entries[x];
    entry.own.number = number;
}

/// A new level of an entity.
pub fn put_level(environment: &Environment<'_>, store: &mut Store, x: usize, level: Level)
    requires ready { Ready (world_in environment.now) store.old }
    requires within { x < program.root (world_in environment.now) }
    ensures store { store_in environment.now store.new ≡ meaning.put_level (world_in environment.now) (meaning.own x) level (store_in environment.now store.old) }
    ensures ready { Ready (world_in environment.now) store.new }
{
    let entry = &mut store.entries[x];
    entry.own.level = level;
}

/// A new number of a memory's cell, for the next cycle.
pub fn put_cell_number(
    environment: &Environment<'_>,
    store: &mut Store,
    memory: usize,
    i: u64,
    number: u64,
)
    requires ready { Ready (world_in environment.now) store.old }
    requires within { memory < program.root (world_in environment.now) }
    requires below { i < depth (world_in environment.now) memory }
    requires fits { number < 2 ^ program.width (world_in environment.now) memory }
    ensures store { store_in environment.now store.new ≡ meaning.put_number (meaning.next memory i) number (store_in environment.now store.old) }
    ensures ready { Ready (world_in environment.now) store.new }
{
    let entry = &mut store.entries[memory];
    entry.next.set_number(i, number);
}

/// A new level of an enforced memory's cell, for the next cycle.
pub fn put_cell_level(
    environment: &Environment<'_>,
    store: &mut Store,
    memory: usize,
    i: u64,
    level: Level,
)
    requires ready { Ready (world_in environment.now) store.old }
    requires within { memory < program.root (world_in environment.now) }
    requires enforced { program.is_dynamic (world_in environment.now) memory ≡ false }
    requires below { i < depth (world_in environment.now) memory }
    ensures store { store_in environment.now store.new ≡ meaning.put_level (world_in environment.now) (meaning.next memory i) level (store_in environment.now store.old) }
    ensures ready { Ready (world_in environment.now) store.new }
{
    let entry = &mut store.entries[memory];
    entry.next.set_level(i, level);
}

/// Another current child of an entity or the root, by its place.
pub fn put_child(environment: &Environment<'_>, store: &mut Store, parent: usize, place: u32)
    requires ready { Ready (world_in environment.now) store.old }
    requires within { parent ≤ program.root (world_in environment.now) }
    ensures store { store_in environment.now store.new ≡ meaning.put_child parent place (store_in environment.now store.old) }
    ensures ready { Ready (world_in environment.now) store.new }
{
    store.current[parent] = place;
}

/// Raises an entity, or a memory for the next cycle.
pub fn raise_one(environment: &Environment<'_>, store: &mut Store, x: usize, level: Level)
    requires { Ready (world_in environment.now) store.old }
    ensures store { store_in environment.now store.new ≡ raised_one (world_in environment.now) x level (store_in environment.now store.old) }
    ensures ready { Ready (world_in environment.now) store.new }
{
    if x < store.entries.len() {
        let entry = &mut store.entries[x];
        entry.own.level = environment.lattice.join(entry.own.level, level);
        let whole = environment.lattice.join(entry.next.whole(), level);
        entry.next.set_whole(whole);
    }
}

/// Raises all that hangs.
pub fn raise(environment: &Environment<'_>, store: &mut Store, hang: &[usize], level: Level)
    requires ready { Ready (world_in environment.now) store.old }
    requires rising { IsTrue (rises hang.now) }
    ensures store { store_in environment.now store.new ≡ meaning.raise (world_in environment.now).order (program.listed (flags (entities_in environment.now) hang.now)) level (store_in environment.now store.old) }
    ensures ready { Ready (world_in environment.now) store.new }
{
    for x in hang {
        raise_one(environment, store, *x, level);
    }
}

/// Resets one entity, where it is a state.
fn reset_state(environment: &Environment<'_>, store: &mut Store, x: usize)
    requires ready { Ready (world_in environment.now) store.old }
    requires within { x < program.root (world_in environment.now) }
    ensures store { store_in environment.now store.new ≡ reset_one (world_in environment.now) x (store_in environment.now store.old) }
    ensures ready { Ready (world_in environment.now) store.new }
{
    if environment.program.is_state(x) {
        if environment.program.is_dynamic(x) {
            put_level(environment, store, x, environment.lattice.bottom());
        }
        put_child(environment, store, x, 0);
    }
}

/// Resets what is below a state.
pub fn reset(environment: &Environment<'_>, store: &mut Store, target: usize)
    requires ready { Ready (world_in environment.now) store.old }
    requires itself { target ≤ program.last (world_in environment.now) target }
    requires within { program.last (world_in environment.now) target < program.root (world_in environment.now) }
    ensures store { store_in environment.now store.new ≡ meaning.reset (world_in environment.now) target (store_in environment.now store.old) }
    ensures ready { Ready (world_in environment.now) store.new }
{
    put_child(environment, store, target, 0);
    let last = environment.program.last(target);
    for x in target + 1..last + 1 {
        reset_state(environment, store, x);
    }
}

/// The next part of a memory becomes its start part.
fn settle_one(environment: &Environment<'_>, store: &mut Store, x: usize)
    requires ready { Ready (world_in environment.now) store.old }
    requires within { x < program.root (world_in environment.now) }
    ensures store { store_in environment.now store.new ≡ settled_one x (store_in environment.now store.old) }
    ensures ready { Ready (world_in environment.now) store.new }
{
    let entry = &mut store.entries[x];
    entry.start.take(&entry.next);
}

/// The next parts of memories become the start parts.
pub fn settle(environment: &Environment<'_>, store: &mut Store)
    requires { Ready (world_in environment.now) store.old }
    ensures store { store_in environment.now store.new ≡ meaning.settle (store_in environment.now store.old) }
    ensures ready { Ready (world_in environment.now) store.new }
{
    for x in 0..store.entries.len() {
        settle_one(environment, store, x);
    }
}

/// What the k-th input gets.
fn input_at(environment: &Environment<'_>, inputs: &Inputs, k: usize) -> Tagged
    ensures { result ≡ input_in (world_in environment.now) inputs.now k }
{
    match inputs.values().get(k) {
        Some(value) => *value,
        None => Tagged::new(0, environment.lattice.bottom()),
    }
}

/// Gives an entity what it gets, where it is the input that so many stand before; how many stand before the next entity.
fn set_input(
    environment: &Environment<'_>,
    store: &mut Store,
    inputs: &Inputs,
    k: usize,
    x: usize,
) -> usize
    requires ready { Ready (world_in environment.now) store.old }
    requires fit { InputsFit (world_in environment.now) inputs.now }
    requires within { x < program.root (world_in environment.now) }
    requires before { k ≡ cycle.inputs_before (world_in environment.now).entities x }
    requires few { k ≤ x }
    ensures store { store_in environment.now store.new ≡ given_one (world_in environment.now) inputs.now x (store_in environment.now store.old) }
    ensures ready { Ready (world_in environment.now) store.new }
    ensures before { result ≡ cycle.inputs_before (world_in environment.now).entities (suc x) }
    ensures few { result ≤ x + 1 }
{
    if environment.program.is_input(x) {
        let given = input_at(environment, inputs, k);
        put_number(environment, store, x, given.number());
        put_level(environment, store, x, given.level());
        k + 1
    } else {
        k
    }
}

/// Gives the inputs what they get.
pub fn set_inputs(environment: &Environment<'_>, store: &mut Store, inputs: &Inputs)
    requires ready { Ready (world_in environment.now) store.old }
    requires fit { InputsFit (world_in environment.now) inputs.now }
    ensures store { store_in environment.now store.new ≡ cycle.set_inputs (world_in environment.now) inputs.now (store_in environment.now store.old) }
    ensures ready { Ready (world_in environment.now) store.new }
{
    let mut k = 0;
    for x in 0..store.entries.len() {
        k = set_input(environment, store, inputs, k, x);
    }
}
