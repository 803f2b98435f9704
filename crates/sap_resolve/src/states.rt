//! States with their numbers and the numbers of their check sites, and with what hangs on their commands.

ghost use Rattle.std.specs.Prelude.{◌≡◌, ◌+◌, ◌<◌, ◌^◌, IfOk, OnOk, length};
ghost use Rattle.sap_resolve.specs.Surroundings.{known_rows};
ghost use Rattle.sap_resolve.specs.Lists as lists;
ghost use Rattle.sap_resolve.specs.Rows.{group_points, group_with, state_points, state_with};
ghost use Rattle.sap_program.specs.Views as views;
ghost use Rattle.sap_resolved.specs.Resolve as resolve;
ghost use Rattle.sap_shape.specs.Sites as sites;
ghost use Rattle.sap_resolved.specs.Worlds as worlds;
ghost use Rattle.sap_tree.specs.Trees as trees;

use crate::commands::commands;
use crate::standing::{Known, Standing};
use sap_program::program::State;
use sap_tree::syntax::State as StateTree;
use std::alloc::{AllocError, Global};

/// A state; `next` is the number of the next site, `point` that of the next point, `number` that of the next state.
#[cycle(states)]
#[tactic(auto, using(sap_program::proofs::Shown::states, crate::proofs::Groups::states))]
fn state(
    alloc: Global,
    known: &Known<'_>,
    next: &mut u32,
    point: &mut u32,
    number: &mut usize,
    s: &StateTree,
) -> Result<State, AllocError>
    requires sites { next.old + length (sites.state_sites known.now.names.now (trees.state_of s.now)) < 2 ^ 32 }
    requires points { point.old + state_points (resolve.state_of known.now.lattice.now known.now.names.now next.old number.old (trees.state_of s.now)) < 2 ^ 32 }
    requires states { number.old + worlds.states_in (trees.state_of s.now) < 2 ^ 32 }
    ensures state { IfOk result (λ r. views.state_of (length known.now.names.now) r
        ≡ state_with (known_rows known.now) point.old (resolve.state_of known.now.lattice.now known.now.names.now next.old number.old (trees.state_of s.now))) }
    ensures next { OnOk result (next.new ≡ next.old + length (sites.state_sites known.now.names.now (trees.state_of s.now))) }
    ensures point { OnOk result (point.new ≡ point.old + state_points (resolve.state_of known.now.lattice.now known.now.names.now next.old number.old (trees.state_of s.now))) }
    ensures number { OnOk result (number.new ≡ number.old + worlds.states_in (trees.state_of s.now)) }
{
    let own = *number;
    *number += 1;
    let standing = Standing {
        names: known.names,
        lattice: known.lattice,
        table: known.table,
        name: &s.name.name,
        kind: &s.kind,
        children: s.children.as_slice(),
    };
    let body = commands(alloc, &standing, next, point, s.body.commands.as_slice())?;
    let children = states(alloc, known, next, point, number, s.children.as_slice())?;
    Ok(State {
        number: own,
        body,
        children,
    })
}

/// The states of a group.
#[cycle(states)]
#[tactic(auto, using(sap_program::proofs::Shown::states))]
pub(crate) fn states(
    alloc: Global,
    known: &Known<'_>,
    next: &mut u32,
    point: &mut u32,
    number: &mut usize,
    group: &[StateTree],
) -> Result<Vec<State>, AllocError>
    requires sites { next.old + lists.group_site_count known.now.names.now group.now < 2 ^ 32 }
    requires points { point.old + group_points (lists.group_from known.now.lattice.now known.now.names.now next.old number.old group.now) < 2 ^ 32 }
    requires states { number.old + lists.states_below group.now < 2 ^ 32 }
    ensures states { IfOk result (λ r. views.group_of (length known.now.names.now) r.items
        ≡ group_with (known_rows known.now) point.old (lists.group_from known.now.lattice.now known.now.names.now next.old number.old group.now)) }
    ensures next { OnOk result (next.new ≡ next.old + lists.group_site_count known.now.names.now group.now) }
    ensures point { OnOk result (point.new ≡ point.old + group_points (lists.group_from known.now.lattice.now known.now.names.now next.old number.old group.now)) }
    ensures number { OnOk result (number.new ≡ number.old + lists.states_below group.now) }
{
    let mut made = Vec::new(alloc);
    for s in group {
        let one = state(alloc, known, next, point, number, s)?;
        made.push(one)?;
    }
    Ok(made)
}
