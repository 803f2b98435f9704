//! E11, E12, E15, E16 and E17: the commands of a body.

ghost use Rattle.std.specs.Prelude.{◌≡◌};
ghost use Rattle.sap_names.specs.Best.{best_of};
ghost use Rattle.sap_shape.specs.Positions.{body_of};
ghost use Rattle.sap_shape.specs.Lists as lists;
ghost use Rattle.sap_shape.specs.ShapeFaults as shape;
ghost use Rattle.sap_tree.specs.Trees.{command_of, else_of, simple_of};

use crate::closing::is_transfer;
use crate::place::Position;
use crate::position::{is_among, is_comparable, is_leaf};
use crate::sites::is_site;
use sap_names::fault::{Fault, note};
use sap_names::kind::Code;
use sap_names::table::Names;
use sap_tree::place::Place;
use sap_tree::syntax::{Arm, Block, Cmd, Simple};

#[tactic(auto, using(sap_names::proofs::Faults::noting))]
fn simple_shape(names: &Names, position: &Position<'_>, command: &Simple, best: &mut Option<Fault>)
    ensures { best.new ≡ best_of best.old (shape.simple_shape names.now (body_of position.now) (simple_of command.now)) }
{
    match command {
        Simple::Assign(_, _) => (),
        Simple::Write(_, _, _) => (),
        Simple::SetTag(_, target, _) => {
            note(
                best,
                names.is_dynamic(&target.name),
                Code::E16,
                target.place,
            );
            note(
                best,
                is_comparable(position, &target.name),
                Code::E17,
                target.place,
            );
        }
        Simple::SetCellTag(_, target, _, _) => note(
            best,
            names.is_dynamic(&target.name),
            Code::E16,
            target.place,
        ),
        Simple::Goto(_, target) => note(
            best,
            !is_among(position.group, &target.name),
            Code::E11,
            target.place,
        ),
        Simple::Fall(place) => note(best, is_leaf(position.children), Code::E12, *place),
    }
}

#[cycle(body)]
#[tactic(auto, using(sap_tree::proofs::Views::views, crate::proofs::Bodies::blocks, sap_names::proofs::Faults::noting))]
fn command_shape(names: &Names, position: &Position<'_>, command: &Cmd, best: &mut Option<Fault>)
    ensures { best.new ≡ best_of best.old (shape.command_shape names.now (body_of position.now) (command_of command.now)) }
{
    match command {
        Cmd::Do(simple) => simple_shape(names, position, simple, best),
        Cmd::Try(simple, otherwise, handler) => {
            simple_shape(names, position, simple, best);
            note(
                best,
                !is_site(names, position.kind, position.children, simple),
                Code::E15,
                *otherwise,
            );
            list_shape(names, position, handler.commands.as_slice(), best);
        }
        Cmd::If(_, _, one, other) => {
            list_shape(names, position, one.commands.as_slice(), best);
            else_shape(names, position, other, best);
        }
        Cmd::TryThen(simple, then, accepted, refused) => {
            then_shape(names, position, simple, *then, best);
            list_shape(names, position, accepted.commands.as_slice(), best);
            list_shape(names, position, refused.commands.as_slice(), best);
        }
        Cmd::Case(_, _, arms, last) => {
            arms_shape(names, position, arms.as_slice(), best);
            list_shape(names, position, last.commands.as_slice(), best);
        }
    }
}

/// A command with `then`, without its blocks.
#[tactic(auto, using(sap_names::proofs::Faults::noting))]
fn then_shape(
    names: &Names,
    position: &Position<'_>,
    command: &Simple,
    then: Place,
    best: &mut Option<Fault>,
)
    ensures { best.new ≡ best_of best.old (shape.then_shape names.now (body_of position.now) (simple_of command.now) then) }
{
    simple_shape(names, position, command, best);
    let may_have_then = is_transfer(command)
        || is_site(names, position.kind, position.children, command);
    note(best, !may_have_then, Code::E15, then);
}

/// The arms of a `case`, without the block after `else`.
#[cycle(body)]
#[tactic(auto, using(crate::proofs::Bodies::bodies, sap_names::proofs::Faults::noting))]
fn arms_shape(names: &Names, position: &Position<'_>, arms: &[Arm], best: &mut Option<Fault>)
    ensures { best.new ≡ best_of best.old (lists.arms_shape names.now (body_of position.now) arms.now) }
{
    for arm in arms {
        list_shape(names, position, arm.block.commands.as_slice(), best);
    }
}

#[cycle(body)]
#[tactic(auto, using(crate::proofs::Bodies::blocks, sap_names::proofs::Faults::noting))]
fn else_shape(
    names: &Names,
    position: &Position<'_>,
    other: &Option<Block>,
    best: &mut Option<Fault>,
)
    ensures { best.new ≡ best_of best.old (shape.else_shape names.now (body_of position.now) (else_of other.now)) }
{
    match other {
        Some(block) => list_shape(names, position, block.commands.as_slice(), best),
        None => (),
    }
}

/// Notes the faults of commands, but for E10 and E14.
#[cycle(body)]
#[tactic(auto, using(crate::proofs::Bodies::bodies, sap_names::proofs::Faults::noting))]
pub(crate) fn list_shape(
    names: &Names,
    position: &Position<'_>,
    commands: &[Cmd],
    best: &mut Option<Fault>,
)
    ensures { best.new ≡ best_of best.old (lists.list_shape names.now (body_of position.now) commands.now) }
{
    for command in commands {
        command_shape(names, position, command, best);
    }
}
