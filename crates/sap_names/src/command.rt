//! Faults of tag expressions, commands and states.

ghost use Rattle.std.specs.Prelude.{◌≡◌};
ghost use Rattle.sap_names.specs.NameFaults as faults;
ghost use Rattle.sap_names.specs.Best.{best_of};
ghost use Rattle.sap_names.specs.Entities.{what_is};
ghost use Rattle.sap_names.specs.Lists as lists;
ghost use Rattle.sap_tree.specs.Trees.{tag_of, simple_of, command_of, else_of};

use crate::entities::Entities;
use crate::expression::expression_faults;
use crate::fault::Fault;
use crate::kind::Use;
use crate::level::note_level;
use crate::usage::note_use;
use crate::width::{cell_width, index_width, own, register_width};
use sap_lattice::lattice::Lattice;
use sap_tree::syntax::{Arm, Block, Cmd, Expr, Simple, TagExpr};

#[cycle(tags)]
#[tactic(auto, using(sap_tree::proofs::Views::views, crate::proofs::Lists::blocks, crate::proofs::Faults::noting))]
fn tag_faults(lattice: &Lattice, names: &Entities, tag: &TagExpr, best: &mut Option<Fault>)
    ensures { best.new ≡ best_of best.old (faults.tag_faults lattice.now.names (what_is names.now) (tag_of tag.now)) }
{
    match tag {
        TagExpr::Level(level) => note_level(best, lattice, level),
        TagExpr::TagOf(_, e) => expression_faults(names, e, None, best),
        TagExpr::LevelAt(_, e) => expression_faults(names, e, None, best),
        TagExpr::Join(_, parts) => tags_faults(lattice, names, parts.as_slice(), best),
    }
}

#[cycle(tags)]
#[tactic(auto, using(crate::proofs::Lists::tags, sap_tree::proofs::Weights::weights, crate::proofs::Faults::noting))]
fn tags_faults(lattice: &Lattice, names: &Entities, parts: &[TagExpr], best: &mut Option<Fault>)
    ensures { best.new ≡ best_of best.old (lists.tags_faults lattice.now.names (what_is names.now) parts.now) }
{
    for tag in parts {
        tag_faults(lattice, names, tag, best);
    }
}

#[tactic(auto, using(crate::proofs::Faults::noting))]
fn simple_faults(lattice: &Lattice, names: &Entities, command: &Simple, best: &mut Option<Fault>)
    ensures { best.new ≡ best_of best.old (faults.simple_faults lattice.now.names (what_is names.now) (simple_of command.now)) }
{
    match command {
        Simple::Assign(target, e) => {
            let what = names.look(&target.name);
            note_use(best, Use::Assigned, what, target.place);
            expression_faults(names, e, register_width(what), best);
        }
        Simple::Write(target, index, e) => {
            let what = names.look(&target.name);
            note_use(best, Use::Indexed, what, target.place);
            expression_faults(names, index, index_width(what), best);
            expression_faults(names, e, cell_width(what), best);
        }
        Simple::SetTag(_, target, tag) => {
            note_use(best, Use::Retagged, names.look(&target.name), target.place);
            tag_faults(lattice, names, tag, best);
        }
        Simple::SetCellTag(_, target, index, tag) => {
            let what = names.look(&target.name);
            note_use(best, Use::Indexed, what, target.place);
            expression_faults(names, index, index_width(what), best);
            tag_faults(lattice, names, tag, best);
        }
        Simple::Goto(_, target) => note_use(
            best,
            Use::Entered,
            names.look(&target.name),
            target.place,
        ),
        Simple::Fall(_) => (),
    }
}

#[cycle(commands)]
#[tactic(auto, using(sap_tree::proofs::Views::views, crate::proofs::Lists::blocks, sap_tree::proofs::Weights::weights, crate::proofs::Faults::noting))]
fn command_faults(lattice: &Lattice, names: &Entities, command: &Cmd, best: &mut Option<Fault>)
    ensures { best.new ≡ best_of best.old (faults.command_faults lattice.now.names (what_is names.now) (command_of command.now)) }
{
    match command {
        Cmd::Do(simple) => simple_faults(lattice, names, simple, best),
        Cmd::Try(simple, _, handler) => {
            simple_faults(lattice, names, simple, best);
            commands_faults(lattice, names, handler.commands.as_slice(), best);
        }
        Cmd::If(_, condition, one, other) => {
            expression_faults(names, condition, Some(1), best);
            commands_faults(lattice, names, one.commands.as_slice(), best);
            else_faults(lattice, names, other, best);
        }
        Cmd::TryThen(simple, _, accepted, refused) => {
            simple_faults(lattice, names, simple, best);
            commands_faults(lattice, names, accepted.commands.as_slice(), best);
            commands_faults(lattice, names, refused.commands.as_slice(), best);
        }
        Cmd::Case(_, number, arms, last) => {
            expression_faults(names, number, None, best);
            arms_faults(lattice, names, own(names, number), arms.as_slice(), best);
            commands_faults(lattice, names, last.commands.as_slice(), best);
        }
    }
}

/// Constants, each of which is asked for this width.
#[tactic(auto, using(crate::proofs::Lists::constants, crate::proofs::Faults::noting))]
fn constants_faults(
    names: &Entities,
    asked: Option<u64>,
    constants: &[Expr],
    best: &mut Option<Fault>,
)
    ensures { best.new ≡ best_of best.old (lists.constants_faults (what_is names.now) asked constants.now) }
{
    for constant in constants {
        expression_faults(names, constant, asked, best);
    }
}

/// The arms of a `case`, without the block after `else`.
#[cycle(commands)]
#[tactic(auto, using(crate::proofs::Lists::arms, sap_tree::proofs::Weights::weights, crate::proofs::Faults::noting))]
fn arms_faults(
    lattice: &Lattice,
    names: &Entities,
    asked: Option<u64>,
    arms: &[Arm],
    best: &mut Option<Fault>,
)
    ensures { best.new ≡ best_of best.old (lists.arms_faults lattice.now.names (what_is names.now) asked arms.now) }
{
    for arm in arms {
        constants_faults(names, asked, arm.constants.as_slice(), best);
        commands_faults(lattice, names, arm.block.commands.as_slice(), best);
    }
}

#[cycle(commands)]
#[tactic(auto, using(crate::proofs::Lists::blocks, sap_tree::proofs::Weights::weights, crate::proofs::Faults::noting))]
fn else_faults(lattice: &Lattice, names: &Entities, other: &Option<Block>, best: &mut Option<Fault>)
    ensures { best.new ≡ best_of best.old (faults.else_faults lattice.now.names (what_is names.now) (else_of other.now)) }
{
    match other {
        Some(block) => commands_faults(lattice, names, block.commands.as_slice(), best),
        None => (),
    }
}

#[cycle(commands)]
#[tactic(auto, using(crate::proofs::Lists::commands, sap_tree::proofs::Weights::weights, crate::proofs::Faults::noting))]
pub fn commands_faults(
    lattice: &Lattice,
    names: &Entities,
    commands: &[Cmd],
    best: &mut Option<Fault>,
)
    ensures { best.new ≡ best_of best.old (lists.commands_faults lattice.now.names (what_is names.now) commands.now) }
{
    for command in commands {
        command_faults(lattice, names, command, best);
    }
}
