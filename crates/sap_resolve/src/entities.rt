//! The entities of a design.

ghost use Rattle.std.specs.Prelude.{◌≡◌, ◌+◌, ◌++◌, ◌<◌, ◌^◌, IfOk, OnOk, length, map};
ghost use Rattle.sap_names.specs.Entities as names;
ghost use Rattle.sap_names.specs.Entities.{entities_of};
ghost use Rattle.sap_resolve.specs.Lists as lists;
ghost use Rattle.sap_resolve.specs.Lists.{names_of, own_names};
ghost use Rattle.sap_program.specs.Views.{entity_of};
ghost use Rattle.sap_resolved.specs.Worlds as worlds;
ghost use Rattle.sap_tree.specs.Designs.{design_of};
ghost use Rattle.sap_tree.specs.Trees as trees;

use crate::world::{authority, declared, declared_level};
use sap_lattice::lattice::Lattice;
use sap_program::program::{Entity, Sort};
use sap_tree::design::Design;
use sap_tree::syntax::{Decl, State};
use std::alloc::{AllocError, Global};

fn add_declared(
    alloc: Global,
    lattice: &Lattice,
    declarations: &[Decl],
    made: &mut Vec<Entity>,
) -> Result<(), AllocError>
    ensures entities { OnOk result (map entity_of made.new.items ≡ map entity_of made.old.items ++ worlds.all_declared lattice.now declarations.now) }
    ensures names { OnOk result (own_names made.new.items ≡ own_names made.old.items ++ names_of (names.declared_in declarations.now)) }
{
    for declaration in declarations {
        made.push(declared(alloc, lattice, declaration)?)?;
    }
    Ok(())
}

/// How many states there are in a state, itself included.
#[cycle(count)]
#[tactic(auto, using(crate::proofs::Groups::states))]
fn states_in(s: &State) -> usize
    requires { worlds.states_in (trees.state_of s.now) < 2 ^ 32 }
    ensures { result ≡ worlds.states_in (trees.state_of s.now) }
{
    1 + states_below(s.children.as_slice())
}

#[cycle(count)]
fn states_below(group: &[State]) -> usize
    requires { lists.states_below group.now < 2 ^ 32 }
    ensures { result ≡ lists.states_below group.now }
{
    let mut count = 0;
    for s in group {
        count += states_in(s);
    }
    count
}

/// Adds a state with this place in its group and those inside it; `number` is that of the next state.
#[cycle(states)]
fn add_state(
    alloc: Global,
    lattice: &Lattice,
    place: usize,
    number: &mut usize,
    s: &State,
    made: &mut Vec<Entity>,
) -> Result<(), AllocError>
    requires { number.old + worlds.states_in (trees.state_of s.now) < 2 ^ 32 }
    ensures entities { OnOk result (map entity_of made.new.items ≡ map entity_of made.old.items ++ worlds.state_entities lattice.now place number.old (trees.state_of s.now)) }
    ensures names { OnOk result (own_names made.new.items ≡ own_names made.old.items ++ names_of (names.state_entities (trees.state_of s.now))) }
    ensures number { OnOk result (number.new ≡ number.old + worlds.states_in (trees.state_of s.now)) }
{
    let last = *number + states_below(s.children.as_slice());
    *number += 1;
    made.push(Entity {
        name: s.name.name.copy(alloc)?,
        sort: Sort::State { place, last },
        width: 0,
        dynamic: s.kind.is_dynamic(),
        declared: declared_level(lattice, &s.kind),
        authority: authority(lattice, &s.kind),
        initial: 0,
    })?;
    add_states(alloc, lattice, number, s.children.as_slice(), made)
}

/// Adds the states of a group and those inside them.
#[cycle(states)]
fn add_states(
    alloc: Global,
    lattice: &Lattice,
    number: &mut usize,
    group: &[State],
    made: &mut Vec<Entity>,
) -> Result<(), AllocError>
    requires { number.old + lists.states_below group.now < 2 ^ 32 }
    ensures entities { OnOk result (map entity_of made.new.items ≡ map entity_of made.old.items ++ lists.group_entities lattice.now 0 number.old group.now) }
    ensures names { OnOk result (own_names made.new.items ≡ own_names made.old.items ++ lists.group_names group.now) }
    ensures number { OnOk result (number.new ≡ number.old + lists.states_below group.now) }
{
    for (place, s) in group.iter().enumerate() {
        add_state(alloc, lattice, place, number, s, made)?;
    }
    Ok(())
}

/// The entities of a design over a lattice.
pub(crate) fn entities(
    alloc: Global,
    design: &Design,
    lattice: &Lattice,
) -> Result<Vec<Entity>, AllocError>
    requires { length design.now.declarations.items + worlds.states_below (design_of design.now).states < 2 ^ 32 }
    ensures entities { IfOk result (λ es. map entity_of es.items ≡ (worlds.world_of lattice.now (design_of design.now)).entities) }
    ensures names { IfOk result (λ es. own_names es.items ≡ names_of (entities_of (design_of design.now))) }
{
    let mut made = Vec::new(alloc);
    add_declared(alloc, lattice, design.declarations.as_slice(), &mut made)?;
    let mut number = design.declarations.len();
    add_states(
        alloc,
        lattice,
        &mut number,
        design.states.as_slice(),
        &mut made,
    )?;
    Ok(made)
}
