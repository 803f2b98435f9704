//! Bodies of states.

ghost use Rattle.std.specs.Prelude.{◌≡◌, ◌++◌, OnOk};
ghost use Rattle.sap_ir.specs.Calcs.{commands_of, term_of};
ghost use Rattle.sap_flat.specs.Lists.{choice_commands, command_flat, commands_flat};

use crate::commands::{add, is_equal, is_open, set_gate};
use crate::copies;
use crate::gates::Gates;
use crate::moves::goto;
use sap_ir::guarded::{Calc, GuardedCmd};
use sap_ir::plain::nested::{PlainCmd, PlainState};
use sap_net::parts::Name;
use std::alloc::{AllocError, Global};

/// A choice's two gates, under the gate `j`: one is 1 where the test isn't 0, the other where it is.
#[tactic(auto, using(crate::proofs::Makes::choices))]
fn choose(
    alloc: Global,
    out: &mut Vec<GuardedCmd>,
    j: usize,
    test: &Calc,
    first: usize,
    second: usize,
) -> Result<(), AllocError>
    ensures { OnOk result (commands_of out.new.items ≡ commands_of out.old.items ++ choice_commands j (term_of test.now) first second) }
{
    let test = test.copy(alloc)?;
    set_gate(out, j, first, test)?;
    let taken = is_open(first);
    let not_taken = is_equal(alloc, taken, 1, 0)?;
    set_gate(out, j, second, not_taken)?;
    Ok(())
}

/// A command under the gate `j`, in the body of a state of a group; `fell` is the gate that a fall sets.
#[cycle(body)]
#[tactic(auto, using(crate::proofs::Weights::weights))]
fn command(
    alloc: Global,
    out: &mut Vec<GuardedCmd>,
    gates: &mut Gates,
    seat: &Name,
    group: &[PlainState],
    fell: usize,
    command: &PlainCmd,
    j: usize,
) -> Result<(), AllocError>
    ensures commands { OnOk result (commands_of out.new.items ≡ commands_of out.old.items ++ (command_flat seat.now group.now fell command.now j gates.old).commands) }
    ensures gates { OnOk result (gates.new ≡ (command_flat seat.now group.now fell command.now j gates.old).next) }
{
    match command {
        PlainCmd::Do(act) => {
            let act = copies::act(alloc, act)?;
            add(out, j, act)?;
            Ok(())
        }
        PlainCmd::If { test, yes, no } => {
            let first = gates.add()?;
            let second = gates.add()?;
            choose(alloc, out, j, test, first, second)?;
            commands(alloc, out, gates, seat, group, fell, yes.as_slice(), first)?;
            commands(alloc, out, gates, seat, group, fell, no.as_slice(), second)?;
            Ok(())
        }
        PlainCmd::Goto(target) => {
            goto(alloc, out, seat, group, j, target)?;
            Ok(())
        }
        PlainCmd::Fall => {
            let one = Calc::Constant { width: 1, value: 1 };
            set_gate(out, j, fell, one)?;
            Ok(())
        }
    }
}

/// Commands under the gate `j`, in order.
#[cycle(body)]
#[tactic(auto, using(crate::proofs::Weights::weights))]
pub fn commands(
    alloc: Global,
    out: &mut Vec<GuardedCmd>,
    gates: &mut Gates,
    seat: &Name,
    group: &[PlainState],
    fell: usize,
    commands: &[PlainCmd],
    j: usize,
) -> Result<(), AllocError>
    ensures commands { OnOk result (commands_of out.new.items ≡ commands_of out.old.items ++ (commands_flat seat.now group.now fell commands.now j gates.old).commands) }
    ensures gates { OnOk result (gates.new ≡ (commands_flat seat.now group.now fell commands.now j gates.old).next) }
{
    for cmd in commands {
        command(alloc, out, gates, seat, group, fell, cmd, j)?;
    }
    Ok(())
}
