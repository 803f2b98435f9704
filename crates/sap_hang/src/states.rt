//! One walk of states, from the last to the first, and from the lowest to the highest.

ghost use Rattle.std.specs.Prelude.{◌≡◌, ◌++◌, IfOk, OnOk};
ghost use Rattle.sap_hang.specs.Walks.{Adds, Knows, Stands, stored, table_of, touched_on};
ghost use Rattle.sap_tree.specs.Points as points;
ghost use Rattle.sap_tree.specs.Touches as tree;
ghost use Rattle.sap_tree.specs.Trees.{state_of, states_of};

use crate::body::add_list;
use crate::set::Set;
use crate::simple::add_dynamic;
use crate::standing::{Standing, Walk};
use sap_tree::syntax::State;
use std::alloc::AllocError;

/// Of sibling states: what a `fall` into them touches, and which dynamic registers and memories they or their descendants assign.
#[derive(Drop)]
pub(crate) struct Below {
    pub falls: Set,
    assigned: Set,
}

#[cycle(states)]
fn add_state(
    walk: &Walk<'_>,
    state: &State,
    rows: &mut Vec<Set>,
    assigned: &mut Set,
) -> Result<(), AllocError>
    requires { Knows walk.now }
    ensures rows { OnOk result (table_of walk.now.names.now rows.new.items ≡ touched_on walk.now.names.now walk.now.declarations.now (points.state_points (state_of state.now)) ++ table_of walk.now.names.now rows.old.items) }
    ensures assigned { OnOk result (Adds walk.now.names.now (stored walk.now.declarations.now (λ x. tree.state_assigns (state_of state.now) x)) assigned.old assigned.new) }
{
    let below = add_states(walk, state.children.as_slice(), rows)?;
    assigned.union(&below.assigned)?;
    let standing = Standing {
        walk: &*walk,
        state: &state.name.name,
        kind: &state.kind,
        children: state.children.as_slice(),
        falls: &below.falls,
    };
    let mut touched = Set::new(walk.alloc);
    add_list(
        &standing,
        state.body.commands.as_slice(),
        rows,
        assigned,
        &mut touched,
    )
}

#[cycle(states)]
pub(crate) fn add_states(
    walk: &Walk<'_>,
    states: &[State],
    rows: &mut Vec<Set>,
) -> Result<Below, AllocError>
    requires { Knows walk.now }
    ensures rows { OnOk result (table_of walk.now.names.now rows.new.items ≡ touched_on walk.now.names.now walk.now.declarations.now (points.states_points (states_of states.now)) ++ table_of walk.now.names.now rows.old.items) }
    ensures falls { IfOk result (λ b. Stands walk.now.names.now (λ x. tree.fall_touches walk.now.declarations.now (states_of states.now) x) b.falls) }
    ensures assigned { IfOk result (λ b. Stands walk.now.names.now (stored walk.now.declarations.now (λ x. tree.states_assign (states_of states.now) x)) b.assigned) }
{
    let mut assigned = Set::new(walk.alloc);
    let mut falls = Set::new(walk.alloc);
    for at in (0..states.len()).rev() {
        let state = &states[at];
        add_dynamic(walk.names, &state.name.name, &state.kind, &mut falls)?;
        add_state(walk, state, rows, &mut assigned)?;
    }
    falls.union(&assigned)?;
    Ok(Below { falls, assigned })
}
