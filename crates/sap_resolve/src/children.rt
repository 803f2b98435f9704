//! How many children each entity of a design has.

ghost use Rattle.std.specs.Prelude.{◌≡◌, ◌++◌, IfOk, OnOk};
ghost use Rattle.sap_resolve.specs.Lists as lists;
ghost use Rattle.sap_resolved.specs.Worlds as worlds;
ghost use Rattle.sap_lattice.specs.Levels.{Levels};
ghost use Rattle.sap_tree.specs.Designs.{design_of};
ghost use Rattle.sap_tree.specs.Trees as trees;

use sap_tree::design::Design;
use sap_tree::syntax::{Decl, State};
use std::alloc::{AllocError, Global};

fn add_none(declarations: &[Decl], made: &mut Vec<usize>) -> Result<(), AllocError>
    ensures { OnOk result (made.new.items ≡ made.old.items ++ worlds.no_children declarations.now) }
{
    for _declaration in declarations {
        made.push(0)?;
    }
    Ok(())
}

#[cycle(states)]
fn add_state(s: &State, made: &mut Vec<usize>) -> Result<(), AllocError>
    ensures { OnOk result (made.new.items ≡ made.old.items ++ worlds.state_children (trees.state_of s.now)) }
{
    made.push(s.children.len())?;
    add_states(s.children.as_slice(), made)
}

#[cycle(states)]
fn add_states(group: &[State], made: &mut Vec<usize>) -> Result<(), AllocError>
    ensures { OnOk result (made.new.items ≡ made.old.items ++ lists.group_children group.now) }
{
    for s in group {
        add_state(s, made)?;
    }
    Ok(())
}

/// How many children each entity has, and the root's last.
pub(crate) fn children(alloc: Global, design: &Design) -> Result<Vec<usize>, AllocError>
    ensures { IfOk result (λ v. (ls : Levels) → v.items ≡ (worlds.world_of ls (design_of design.now)).children) }
{
    let mut made = Vec::new(alloc);
    add_none(design.declarations.as_slice(), &mut made)?;
    add_states(design.states.as_slice(), &mut made)?;
    made.push(design.states.len())?;
    Ok(made)
}
