//! Groups of states.

ghost use Rattle.std.specs.Prelude.{◌≡◌, ◌<◌, ◌≤◌, ◌+◌, ◌^◌, ◌++◌, OnOk, length};
ghost use Rattle.sap_ir.specs.Calcs.{commands_of, term_of};
ghost use Rattle.sap_ir.specs.Plain.Nested.{seat_width};
ghost use Rattle.sap_flat.specs.Lists.{gates_commands, state_flat, states_flat};

use crate::bodies::commands;
use crate::commands::{is_equal, is_open};
use crate::gates;
use crate::gates::Gates;
use sap_ir::guarded::{Act, Calc, GuardedCmd};
use sap_ir::plain::nested::PlainState;
use sap_ir::plain::seats;
use sap_net::parts::Name;
use std::alloc::{AllocError, Global};

/// The gates from `first` on of a group: where `when` holds, that of the current state becomes 1.
#[tactic(auto, using(crate::proofs::Makes::marks))]
pub fn mark(
    alloc: Global,
    out: &mut Vec<GuardedCmd>,
    when: &Calc,
    seat: &Name,
    states: &[PlainState],
    first: usize,
) -> Result<(), AllocError>
    requires { first + length states.now < 2 ^ 64 }
    ensures { OnOk result (commands_of out.new.items ≡ commands_of out.old.items ++ gates_commands (term_of when.now) seat.now (seat_width (length states.now)) states.now 0 first) }
{
    let width = seats::width(states.len());
    for i in 0..states.len() {
        let when = when.copy(alloc)?;
        let current = Calc::Read(seat.copy(alloc)?);
        let value = is_equal(alloc, current, width, i as u64)?;
        let name = gates::name(first + i);
        out.push(GuardedCmd {
            when,
            act: Act::Set(name, value),
        })?;
    }
    Ok(())
}

/// A state of a group, whose gate is `j`, and all below it.
#[cycle(group)]
#[tactic(auto, using(crate::proofs::Weights::weights))]
fn state(
    alloc: Global,
    out: &mut Vec<GuardedCmd>,
    gates: &mut Gates,
    seat: &Name,
    group: &[PlainState],
    state: &PlainState,
    j: usize,
) -> Result<(), AllocError>
    ensures commands { OnOk result (commands_of out.new.items ≡ commands_of out.old.items ++ (state_flat seat.now group.now state.now j gates.old).commands) }
    ensures gates { OnOk result (gates.new ≡ (state_flat seat.now group.now state.now j gates.old).next) }
{
    let children = state.children.as_slice();
    let fell = gates.add()?;
    let first = gates.len();
    gates.add_all(children.len())?;
    let _end = gates.len();
    commands(
        alloc,
        out,
        gates,
        seat,
        group,
        fell,
        state.cmds.as_slice(),
        j,
    )?;
    let has_fallen = is_open(fell);
    let own_seat = seats::of_state(alloc, &state.name)?;
    mark(alloc, out, &has_fallen, &own_seat, children, first)?;
    states(alloc, out, gates, &own_seat, children, first)?;
    Ok(())
}

/// The states of a group, whose gates are those from `first` on, and all below them.
#[cycle(group)]
#[tactic(auto, using(crate::proofs::Weights::weights))]
pub fn states(
    alloc: Global,
    out: &mut Vec<GuardedCmd>,
    gates: &mut Gates,
    seat: &Name,
    group: &[PlainState],
    first: usize,
) -> Result<(), AllocError>
    requires { first + length group.now ≤ gates.old }
    ensures commands { OnOk result (commands_of out.new.items ≡ commands_of out.old.items ++ (states_flat seat.now group.now group.now first gates.old).commands) }
    ensures gates { OnOk result (gates.new ≡ (states_flat seat.now group.now group.now first gates.old).next) }
{
    let _end = gates.len();
    for (i, one) in group.iter().enumerate() {
        state(alloc, out, gates, seat, group, one, first + i)?;
    }
    Ok(())
}
