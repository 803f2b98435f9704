//! The first state of a program.

ghost use Rattle.std.specs.Prelude.{◌≡◌, ◌<◌, ◌^◌, ◌+◌, ℕ, map, replicate, IfOk};
ghost use Rattle.sap_meaning.specs.Program as program;
ghost use Rattle.sap_meaning.specs.State.{first};
ghost use Rattle.sap_store.specs.Code.{store_in, world_in};
ghost use Rattle.sap_store.specs.First.{started};
ghost use Rattle.sap_store.specs.Kept.{Ready};

use crate::cell::Cell;
use crate::entry::Entry;
use crate::environment::Environment;
use crate::half::Half;
use crate::store::Store;
use sap_lattice::level::Level;
use sap_program::program::Entity;
use std::alloc::{AllocError, Global};

/// What an entity starts with.
fn first_entry(alloc: Global, bottom: Level, entity: &Entity) -> Result<Entry, AllocError>
    ensures { IfOk result (λ e. e ≡ started bottom entity.now) }
{
    let level = if entity.dynamic {
        bottom
    } else {
        entity.declared
    };
    let depth = entity.sort.depth();
    let start = Half::new(alloc, depth, level)?;
    let next = Half::new(alloc, depth, level)?;
    Ok(Entry {
        own: Cell {
            number: entity.initial,
            level,
        },
        start,
        next,
    })
}

fn entries(alloc: Global, environment: &Environment<'_>) -> Result<Vec<Entry>, AllocError>
    ensures { IfOk result (λ v. v.items ≡ map (started (world_in environment.now).order.bottom) environment.now.program.now.entities.items) }
{
    let mut entries = Vec::new(alloc);
    for entity in &environment.program.entities {
        let entry = first_entry(alloc, environment.lattice.bottom(), entity)?;
        entries.push(entry)?;
    }
    Ok(entries)
}

/// Each group at its first child.
fn seats(alloc: Global, count: usize) -> Result<Vec<u32>, AllocError>
    ensures { IfOk result (λ v. v.items ≡ replicate count 0) }
{
    let mut seats = Vec::new(alloc);
    seats.resize(count, 0)?;
    Ok(seats)
}

/// The store that a program starts with.
pub fn first_store(alloc: Global, environment: &Environment<'_>) -> Result<Store, AllocError>
    requires { (x : ℕ) → (program.entity (world_in environment.now) x).initial < 2 ^ program.width (world_in environment.now) x }
    ensures store { IfOk result (λ s. store_in environment.now s ≡ first (world_in environment.now)) }
    ensures ready { IfOk result (λ s. Ready (world_in environment.now) s) }
{
    let entries = entries(alloc, environment)?;
    let current = seats(alloc, environment.program.entities.len() + 1)?;
    Ok(Store { entries, current })
}
