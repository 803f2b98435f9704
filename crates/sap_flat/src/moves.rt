//! What a goto does.

ghost use Rattle.std.specs.Prelude.{◌≡◌, ◌++◌, OnOk};
ghost use Rattle.sap_ir.specs.Calcs.{commands_of};
ghost use Rattle.sap_flat.specs.Lists.{first_commands, goto_commands, place_in, restart_commands, restart_one};

use crate::commands::set_seat;
use sap_ir::guarded::GuardedCmd;
use sap_ir::plain::nested::PlainState;
use sap_ir::plain::seats;
use sap_net::parts::Name;
use std::alloc::{AllocError, Global};

/// A state returns to its first child, where it has children.
#[tactic(auto, using(crate::proofs::Makes::firsts))]
fn first_child(
    alloc: Global,
    out: &mut Vec<GuardedCmd>,
    j: usize,
    state: &Name,
    children: &[PlainState],
) -> Result<(), AllocError>
    ensures { OnOk result (commands_of out.new.items ≡ commands_of out.old.items ++ first_commands j state.now children.now) }
{
    if children.is_empty() {
        return Ok(());
    }
    let seat = seats::of_state(alloc, state)?;
    set_seat(out, j, seat, children.len(), 0)?;
    Ok(())
}

#[cycle(restart)]
#[tactic(auto, using(sap_ir::proofs::plain::Views::views, crate::proofs::Makes::restarts, crate::proofs::Weights::weights))]
fn restart_state(
    alloc: Global,
    out: &mut Vec<GuardedCmd>,
    j: usize,
    state: &PlainState,
) -> Result<(), AllocError>
    ensures { OnOk result (commands_of out.new.items ≡ commands_of out.old.items ++ restart_one j state.now) }
{
    first_child(alloc, out, j, &state.name, state.children.as_slice())?;
    restart(alloc, out, j, state.children.as_slice())?;
    Ok(())
}

/// Each group below some states returns to its first state.
#[cycle(restart)]
#[tactic(auto, using(crate::proofs::Makes::restarts, crate::proofs::Weights::weights))]
fn restart(
    alloc: Global,
    out: &mut Vec<GuardedCmd>,
    j: usize,
    states: &[PlainState],
) -> Result<(), AllocError>
    ensures { OnOk result (commands_of out.new.items ≡ commands_of out.old.items ++ restart_commands j states.now) }
{
    for state in states {
        restart_state(alloc, out, j, state)?;
    }
    Ok(())
}

/// The number of a state in its group.
fn place(states: &[PlainState], target: &Name) -> usize
    ensures { result ≡ place_in states.now target.now }
{
    states
        .iter()
        .position(|state| state.name.same(target))
        .unwrap_or(states.len())
}

/// A state of a group becomes the current one, and each group below it returns to its first state.
#[tactic(auto, using(crate::proofs::Makes::gotos))]
pub fn goto(
    alloc: Global,
    out: &mut Vec<GuardedCmd>,
    seat: &Name,
    group: &[PlainState],
    j: usize,
    target: &Name,
) -> Result<(), AllocError>
    ensures { OnOk result (commands_of out.new.items ≡ commands_of out.old.items ++ goto_commands seat.now group.now j target.now) }
{
    let n = place(group, target);
    let own = seat.copy(alloc)?;
    set_seat(out, j, own, group.len(), n)?;
    match group.get(n) {
        Some(state) => {
            first_child(alloc, out, j, target, state.children.as_slice())?;
            restart(alloc, out, j, state.children.as_slice())?;
            Ok(())
        }
        None => Ok(()),
    }
}
