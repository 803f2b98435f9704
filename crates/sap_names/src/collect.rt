//! Collects the entities of a design.

ghost use Rattle.std.specs.Prelude.{◌≡◌, ◌++◌, IfOk, OnOk};
ghost use Rattle.sap_names.specs.Entities as spec;
ghost use Rattle.sap_names.specs.Lists as lists;
ghost use Rattle.sap_tree.specs.Designs.{design_of};
ghost use Rattle.sap_tree.specs.Trees.{state_of};

use crate::entity::Entity;
use crate::kind::Declared;
use sap_tree::design::Design;
use sap_tree::name::Mention;
use sap_tree::syntax::{Decl, State};
use std::alloc::{AllocError, Global};

fn copy(alloc: Global, mention: &Mention) -> Result<Mention, AllocError>
    ensures { IfOk result (λ m. m ≡ mention.now) }
{
    let name = mention.name.copy(alloc)?;
    Ok(Mention {
        place: mention.place,
        name,
    })
}

fn entity(
    alloc: Global,
    name: &Mention,
    what: Declared,
    dynamic: bool,
) -> Result<Entity, AllocError>
    ensures { IfOk result (λ e. e ≡ record { name = name.now; what = what; dynamic = dynamic }) }
{
    let name = copy(alloc, name)?;
    Ok(Entity {
        name,
        what,
        dynamic,
    })
}

fn declared(alloc: Global, declaration: &Decl) -> Result<Entity, AllocError>
    ensures { IfOk result (λ e. e ≡ spec.entity_of declaration.now) }
{
    match declaration {
        Decl::Input(_, name, width) => entity(alloc, name, Declared::Input(width.value), true),
        Decl::Register(_, name, width, kind, _) => entity(
            alloc,
            name,
            Declared::Register(width.value),
            kind.is_dynamic(),
        ),
        Decl::Memory(_, name, width, depth, kind) => entity(
            alloc,
            name,
            Declared::Memory(width.value, depth.value),
            kind.is_dynamic(),
        ),
    }
}

#[tactic(auto, using(crate::proofs::Groups::groups))]
fn add_declarations(
    alloc: Global,
    declarations: &[Decl],
    list: &mut Vec<Entity>,
) -> Result<(), AllocError>
    ensures { OnOk result (list.new.items ≡ list.old.items ++ spec.declared_in declarations.now) }
{
    for declaration in declarations {
        list.push(declared(alloc, declaration)?)?;
    }
    Ok(())
}

#[cycle(states)]
#[tactic(auto, using(sap_tree::proofs::Views::views, crate::proofs::Groups::groups))]
fn add_state(alloc: Global, state: &State, list: &mut Vec<Entity>) -> Result<(), AllocError>
    ensures { OnOk result (list.new.items ≡ list.old.items ++ spec.state_entities (state_of state.now)) }
{
    list.push(entity(alloc, &state.name, Declared::State, state.kind.is_dynamic())?)?;
    add_states(alloc, state.children.as_slice(), list)
}

#[cycle(states)]
#[tactic(auto, using(sap_tree::proofs::Weights::weights, crate::proofs::Groups::groups))]
fn add_states(alloc: Global, states: &[State], list: &mut Vec<Entity>) -> Result<(), AllocError>
    ensures { OnOk result (list.new.items ≡ list.old.items ++ lists.states_entities states.now) }
{
    for state in states {
        add_state(alloc, state, list)?;
    }
    Ok(())
}

/// The entities of a design, in the order of its text.
#[tactic(auto, using(crate::proofs::Groups::groups))]
pub fn entities_of(alloc: Global, design: &Design) -> Result<Vec<Entity>, AllocError>
    ensures { IfOk result (λ v. v.items ≡ spec.entities_of (design_of design.now)) }
{
    let mut list = Vec::new(alloc);
    add_declarations(alloc, design.declarations.as_slice(), &mut list)?;
    add_states(alloc, design.states.as_slice(), &mut list)?;
    Ok(list)
}
