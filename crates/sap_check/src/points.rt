//! The points of a design.

ghost use Rattle.std.specs.Prelude.{◌≡◌, ◌++◌, ◌∷◌, [], OnOk};
ghost use Rattle.sap_check.specs.Lists as lists;
ghost use Rattle.sap_check.specs.Points.{point, words_of, words_at};
ghost use Rattle.sap_tree.specs.Points as tree;
ghost use Rattle.sap_tree.specs.Trees.{command_of, else_of, simple_of, state_of};

use crate::point::{Point, PointKind};
use sap_tree::place::Place;
use sap_tree::syntax::{Arm, Block, Cmd, Simple, State};
use std::alloc::AllocError;

fn add_point(kind: PointKind, place: Place, points: &mut Vec<Point>) -> Result<(), AllocError>
    ensures { OnOk result (points.new.items ≡ points.old.items ++ point kind place ∷ []) }
{
    points.push(Point { kind, place })?;
    Ok(())
}

fn add_simple(command: &Simple, points: &mut Vec<Point>) -> Result<(), AllocError>
    ensures { OnOk result (points.new.items ≡ points.old.items ++ words_of (tree.simple_points (simple_of command.now))) }
{
    if let Simple::Fall(place) = command {
        add_point(PointKind::Fall, *place, points)?;
    }
    Ok(())
}

#[cycle(body)]
#[tactic(auto, using(sap_tree::proofs::Views::views, crate::proofs::PointLists::blocks))]
fn add_command(command: &Cmd, points: &mut Vec<Point>) -> Result<(), AllocError>
    ensures { OnOk result (points.new.items ≡ points.old.items ++ words_of (tree.command_points (command_of command.now))) }
{
    match command {
        Cmd::Do(simple) => add_simple(simple, points),
        Cmd::If(place, _, one, other) => {
            add_point(PointKind::If, *place, points)?;
            add_list(one.commands.as_slice(), points)?;
            add_else(other, points)?;
            Ok(())
        }
        Cmd::Try(simple, place, handler) => {
            add_simple(simple, points)?;
            add_point(PointKind::Otherwise, *place, points)?;
            add_list(handler.commands.as_slice(), points)
        }
        Cmd::TryThen(simple, place, accepted, refused) => {
            add_simple(simple, points)?;
            add_point(PointKind::Then, *place, points)?;
            add_list(accepted.commands.as_slice(), points)?;
            add_list(refused.commands.as_slice(), points)?;
            Ok(())
        }
        Cmd::Case(place, _, arms, last) => {
            add_point(PointKind::Case, *place, points)?;
            add_arms(arms.as_slice(), points)?;
            add_list(last.commands.as_slice(), points)?;
            Ok(())
        }
    }
}

/// The arms of a `case`, without the block after `else`.
#[cycle(body)]
#[tactic(auto, using(crate::proofs::PointLists::lists))]
fn add_arms(arms: &[Arm], points: &mut Vec<Point>) -> Result<(), AllocError>
    ensures { OnOk result (points.new.items ≡ points.old.items ++ lists.arms_points arms.now) }
{
    for arm in arms {
        add_list(arm.block.commands.as_slice(), points)?;
    }
    Ok(())
}

#[cycle(body)]
#[tactic(auto, using(crate::proofs::PointLists::blocks))]
fn add_else(other: &Option<Block>, points: &mut Vec<Point>) -> Result<(), AllocError>
    ensures { OnOk result (points.new.items ≡ points.old.items ++ words_of (tree.else_points (else_of other.now))) }
{
    match other {
        Some(block) => add_list(block.commands.as_slice(), points),
        None => Ok(()),
    }
}

#[cycle(body)]
#[tactic(auto, using(crate::proofs::PointLists::lists))]
fn add_list(commands: &[Cmd], points: &mut Vec<Point>) -> Result<(), AllocError>
    ensures { OnOk result (points.new.items ≡ points.old.items ++ lists.list_points commands.now) }
{
    for command in commands {
        add_command(command, points)?;
    }
    Ok(())
}

#[cycle(states)]
#[tactic(auto, using(crate::proofs::PointLists::states))]
fn add_state(state: &State, points: &mut Vec<Point>) -> Result<(), AllocError>
    ensures { OnOk result (points.new.items ≡ points.old.items ++ words_at (tree.state_points (state_of state.now))) }
{
    add_list(state.body.commands.as_slice(), points)?;
    add_states(state.children.as_slice(), points)
}

/// Adds the points of states and of those below them.
#[cycle(states)]
#[tactic(auto, using(crate::proofs::PointLists::lists))]
pub(crate) fn add_states(states: &[State], points: &mut Vec<Point>) -> Result<(), AllocError>
    ensures { OnOk result (points.new.items ≡ points.old.items ++ lists.group_points states.now) }
{
    for state in states {
        add_state(state, points)?;
    }
    Ok(())
}
