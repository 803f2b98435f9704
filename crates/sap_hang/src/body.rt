//! One walk of a body, from its end to its beginning: the rows of its points, and what it assigns and touches.

ghost use Rattle.std.specs.Prelude.{OnOk};
ghost use Rattle.sap_hang.specs.Walks.{Sees, Walked, arms_part, command_part, else_part, list_part};
ghost use Rattle.sap_tree.specs.Trees.{arms_of, block_of, command_of, commands_of, else_of};

use crate::set::Set;
use crate::simple::{add_fall, add_point, add_simple};
use crate::standing::Standing;
use sap_tree::syntax::{Arm, Block, Cmd};
use std::alloc::AllocError;

#[cycle(body)]
#[tactic(auto, using(sap_tree::proofs::Views::views, sap_tree::proofs::Weights::weights))]
fn add_command(
    standing: &Standing<'_, '_>,
    command: &Cmd,
    rows: &mut Vec<Set>,
    assigned: &mut Set,
    touched: &mut Set,
) -> Result<(), AllocError>
    requires { Sees standing.now }
    ensures { OnOk result (Walked standing.now (command_part standing.now (command_of command.now)) rows.old.items assigned.old touched.old rows.new.items assigned.new touched.new) }
{
    match command {
        Cmd::Do(simple) => {
            add_simple(standing, simple, assigned, touched)?;
            add_fall(standing, simple, rows)
        }
        Cmd::Try(simple, _, handler) => {
            let mut here = Set::new(standing.walk.alloc);
            add_list(
                standing,
                handler.commands.as_slice(),
                rows,
                assigned,
                &mut here,
            )?;
            add_simple(standing, simple, assigned, &mut here)?;
            add_point(here, rows, touched)?;
            add_fall(standing, simple, rows)
        }
        Cmd::If(_, _, one, other) => {
            let mut here = Set::new(standing.walk.alloc);
            add_else(standing, other, rows, assigned, &mut here)?;
            add_list(standing, one.commands.as_slice(), rows, assigned, &mut here)?;
            add_point(here, rows, touched)
        }
        Cmd::TryThen(simple, _, accepted, refused) => {
            let mut here = Set::new(standing.walk.alloc);
            add_list(
                standing,
                refused.commands.as_slice(),
                rows,
                assigned,
                &mut here,
            )?;
            add_list(
                standing,
                accepted.commands.as_slice(),
                rows,
                assigned,
                &mut here,
            )?;
            add_simple(standing, simple, assigned, &mut here)?;
            add_point(here, rows, touched)?;
            add_fall(standing, simple, rows)
        }
        Cmd::Case(_, _, arms, last) => {
            let mut here = Set::new(standing.walk.alloc);
            add_arms(standing, arms.as_slice(), last, rows, assigned, &mut here)?;
            add_point(here, rows, touched)
        }
    }
}

#[cycle(body)]
fn add_arms(
    standing: &Standing<'_, '_>,
    arms: &[Arm],
    last: &Block,
    rows: &mut Vec<Set>,
    assigned: &mut Set,
    touched: &mut Set,
) -> Result<(), AllocError>
    requires { Sees standing.now }
    ensures { OnOk result (Walked standing.now (arms_part standing.now (arms_of arms.now (block_of last.now))) rows.old.items assigned.old touched.old rows.new.items assigned.new touched.new) }
{
    add_list(standing, last.commands.as_slice(), rows, assigned, touched)?;
    for at in (0..arms.len()).rev() {
        let commands = arms[at].block.commands.as_slice();
        add_list(standing, commands, rows, assigned, touched)?;
    }
    Ok(())
}

#[cycle(body)]
fn add_else(
    standing: &Standing<'_, '_>,
    other: &Option<Block>,
    rows: &mut Vec<Set>,
    assigned: &mut Set,
    touched: &mut Set,
) -> Result<(), AllocError>
    requires { Sees standing.now }
    ensures { OnOk result (Walked standing.now (else_part standing.now (else_of other.now)) rows.old.items assigned.old touched.old rows.new.items assigned.new touched.new) }
{
    match other {
        Some(block) => add_list(standing, block.commands.as_slice(), rows, assigned, touched),
        None => Ok(()),
    }
}

#[cycle(body)]
#[tactic(auto, using(sap_tree::proofs::Weights::weights))]
pub(crate) fn add_list(
    standing: &Standing<'_, '_>,
    commands: &[Cmd],
    rows: &mut Vec<Set>,
    assigned: &mut Set,
    touched: &mut Set,
) -> Result<(), AllocError>
    requires { Sees standing.now }
    ensures { OnOk result (Walked standing.now (list_part standing.now (commands_of commands.now)) rows.old.items assigned.old touched.old rows.new.items assigned.new touched.new) }
{
    for at in (0..commands.len()).rev() {
        add_command(standing, &commands[at], rows, assigned, touched)?;
    }
    Ok(())
}
