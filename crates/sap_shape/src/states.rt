//! The faults of states and of those below them.

ghost use Rattle.std.specs.Prelude.{◌≡◌, ◌∷◌, IfOk, OnOk};
ghost use Rattle.sap_names.specs.Best.{best_of};
ghost use Rattle.sap_shape.specs.Lists as lists;
ghost use Rattle.sap_shape.specs.Lists.{written_in};
ghost use Rattle.sap_shape.specs.Walk as paths;
ghost use Rattle.sap_shape.specs.ShapeFaults as shape;
ghost use Rattle.sap_tree.specs.Trees.{state_of, states_of};

use crate::body::list_shape;
use crate::closing::closing_list;
use crate::falls::has_fall;
use crate::paths::list_paths;
use crate::place::Position;
use crate::written::Written;
use sap_names::fault::Fault;
use sap_names::table::Names;
use sap_text::name::copy_names;
use sap_tree::name::Name;
use sap_tree::syntax::State;
use std::alloc::{AllocError, Global};

// The names of a state and of those above it.
fn below(alloc: Global, name: &Name, above: &[Name]) -> Result<Vec<Name>, AllocError>
    ensures { IfOk result (λ v. v.items ≡ name.now ∷ above.now) }
{
    let mut names = Vec::new(alloc);
    names.push(name.copy(alloc)?)?;
    names.append(&mut copy_names(alloc, above)?)?;
    Ok(names)
}

#[cycle(shape)]
#[tactic(auto, using(crate::proofs::Groups::states, sap_tree::proofs::Weights::weights, sap_names::proofs::Faults::noting))]
fn state_shape(
    alloc: Global,
    names: &Names,
    group: &[State],
    above: &[Name],
    state: &State,
    best: &mut Option<Fault>,
) -> Result<(), AllocError>
    ensures { OnOk result (best.new ≡ best_of best.old (shape.state_shape names.now (states_of group.now) above.now (state_of state.now))) }
{
    let commands = state.body.commands.as_slice();
    closing_list(commands, state.body.after, best);
    let position = Position {
        name: &state.name.name,
        kind: &state.kind,
        group,
        children: state.children.as_slice(),
        above,
    };
    list_shape(names, &position, commands, best);
    let below = below(alloc, &state.name.name, above)?;
    group_shape(
        alloc,
        names,
        state.children.as_slice(),
        below.as_slice(),
        best,
    )
}

/// Notes the faults of the states of a group and of those below them, but for E14. `above` has the names of the states
/// above the group, the nearest first.
#[cycle(shape)]
#[tactic(auto, using(crate::proofs::Groups::groups, sap_tree::proofs::Weights::weights, sap_names::proofs::Faults::noting))]
pub(crate) fn group_shape(
    alloc: Global,
    names: &Names,
    group: &[State],
    above: &[Name],
    best: &mut Option<Fault>,
) -> Result<(), AllocError>
    ensures { OnOk result (best.new ≡ best_of best.old (lists.group_shape names.now group.now above.now group.now)) }
{
    for state in group {
        state_shape(alloc, names, group, above, state, best)?;
    }
    Ok(())
}

#[cycle(paths)]
#[tactic(auto, using(crate::proofs::Groups::states, crate::proofs::Sets::sets, sap_names::proofs::Faults::noting))]
fn state_paths(
    alloc: Global,
    state: &State,
    entered: &Written,
    best: &mut Option<Fault>,
) -> Result<(), AllocError>
    ensures { OnOk result (best.new ≡ best_of best.old (paths.second_state (state_of state.now) (written_in entered.now))) }
{
    let commands = state.body.commands.as_slice();
    let mut here = entered.copy(alloc)?;
    let mut inside = Written::new(alloc);
    list_paths(alloc, commands, &mut here, &mut inside, best)?;
    if has_fall(commands) {
        group_paths(alloc, state.children.as_slice(), &inside, best)?;
    }
    Ok(())
}

/// Notes E14 in states that are entered after some writes, and in those that they may fall into.
#[cycle(paths)]
#[tactic(auto, using(crate::proofs::Groups::groups, sap_names::proofs::Faults::noting))]
pub(crate) fn group_paths(
    alloc: Global,
    states: &[State],
    entered: &Written,
    best: &mut Option<Fault>,
) -> Result<(), AllocError>
    ensures { OnOk result (best.new ≡ best_of best.old (lists.second_states states.now (written_in entered.now))) }
{
    for state in states {
        state_paths(alloc, state, entered, best)?;
    }
    Ok(())
}
