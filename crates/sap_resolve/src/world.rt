//! What is declared, with numbers for levels.

ghost use Rattle.std.specs.Prelude.{◌≡◌, IfOk};
ghost use Rattle.sap_names.specs.Entities as names;
ghost use Rattle.sap_program.specs.Views.{entity_of};
ghost use Rattle.sap_resolved.specs.Worlds as worlds;

use crate::names::level_named;
use sap_lattice::lattice::Lattice;
use sap_lattice::level::Level;
use sap_program::program::{Entity, Sort};
use sap_tree::syntax::{Decl, Kind, Numeral, Under};
use std::alloc::{AllocError, Global};

pub(crate) fn declared_level(lattice: &Lattice, kind: &Kind) -> Level
    ensures { result ≡ worlds.declared_level lattice.now kind.now }
{
    match kind {
        Kind::Dynamic(_) => lattice.bottom(),
        Kind::Enforced(level, _) => level_named(lattice, level),
    }
}

fn authority_level(lattice: &Lattice, under: &Option<Under>) -> Level
    ensures { result ≡ worlds.authority_level lattice.now under.now }
{
    match under {
        Some(written) => level_named(lattice, &written.level),
        None => lattice.bottom(),
    }
}

pub(crate) fn authority(lattice: &Lattice, kind: &Kind) -> Level
    ensures { result ≡ worlds.authority_of lattice.now kind.now }
{
    match kind {
        Kind::Dynamic(_) => lattice.bottom(),
        Kind::Enforced(_, under) => authority_level(lattice, under),
    }
}

fn initial(start: &Option<Numeral>) -> u64
    ensures { result ≡ worlds.initial_of start.now }
{
    match start {
        Some(written) => written.value,
        None => 0,
    }
}

/// The entity that a declaration declares.
pub(crate) fn declared(
    alloc: Global,
    lattice: &Lattice,
    declaration: &Decl,
) -> Result<Entity, AllocError>
    ensures entity { IfOk result (λ e. entity_of e ≡ worlds.declared lattice.now declaration.now) }
    ensures name { IfOk result (λ e. e.name ≡ (names.entity_of declaration.now).name.name) }
{
    match declaration {
        Decl::Input(_, name, width) => Ok(Entity {
            name: name.name.copy(alloc)?,
            sort: Sort::Input,
            width: width.value,
            dynamic: true,
            declared: lattice.bottom(),
            authority: lattice.bottom(),
            initial: 0,
        }),
        Decl::Register(_, name, width, kind, start) => Ok(Entity {
            name: name.name.copy(alloc)?,
            sort: Sort::Register,
            width: width.value,
            dynamic: kind.is_dynamic(),
            declared: declared_level(lattice, kind),
            authority: authority(lattice, kind),
            initial: initial(start),
        }),
        Decl::Memory(_, name, width, depth, kind) => Ok(Entity {
            name: name.name.copy(alloc)?,
            sort: Sort::Memory(depth.value),
            width: width.value,
            dynamic: kind.is_dynamic(),
            declared: declared_level(lattice, kind),
            authority: authority(lattice, kind),
            initial: 0,
        }),
    }
}
