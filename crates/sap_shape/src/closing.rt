//! E10: bodies close.

ghost use Rattle.std.specs.Prelude.{◌≡◌, []};
ghost use Rattle.sap_names.specs.Best.{best_of};
ghost use Rattle.sap_shape.specs.Closing as closing;
ghost use Rattle.sap_shape.specs.Lists as lists;
ghost use Rattle.sap_tree.specs.Trees.{block_of, command_of, else_of, simple_of};

use sap_names::fault::{Fault, note};
use sap_names::kind::Code;
use sap_tree::place::Place;
use sap_tree::syntax::{Arm, Block, Cmd, Simple};

/// A `goto` or a `fall`.
pub(crate) fn is_transfer(command: &Simple) -> bool
    ensures { result ≡ closing.is_transfer (simple_of command.now) }
{
    matches!(command, Simple::Goto(_, _) | Simple::Fall(_))
}

#[tactic(auto, using(sap_names::proofs::Faults::noting))]
fn transfer_faults(command: &Simple, best: &mut Option<Fault>)
    ensures { best.new ≡ best_of best.old (closing.transfer_faults (simple_of command.now)) }
{
    match command {
        Simple::Goto(place, _) => note(best, true, Code::E10, *place),
        Simple::Fall(place) => note(best, true, Code::E10, *place),
        Simple::Assign(_, _) => (),
        Simple::Write(_, _, _) => (),
        Simple::SetTag(_, _, _) => (),
        Simple::SetCellTag(_, _, _, _) => (),
    }
}

/// Notes E10 at the `then` of a transfer, and says whether it stands there. The blocks of any other command count.
#[tactic(auto, using(sap_names::proofs::Faults::noting))]
fn has_then_fault(command: &Simple, then: Place, best: &mut Option<Fault>) -> bool
    ensures test { result ≡ closing.is_transfer (simple_of command.now) }
    ensures fault { best.new ≡ best_of best.old (closing.then_faults (simple_of command.now) then []) }
{
    let found = is_transfer(command);
    note(best, found, Code::E10, then);
    found
}

#[cycle(open)]
#[tactic(auto, using(sap_tree::proofs::Views::views, crate::proofs::Opens::blocks, sap_names::proofs::Faults::noting))]
fn open_faults(command: &Cmd, best: &mut Option<Fault>)
    ensures { best.new ≡ best_of best.old (closing.open_faults (command_of command.now)) }
{
    match command {
        Cmd::Do(simple) => transfer_faults(simple, best),
        Cmd::Try(simple, _, handler) => {
            transfer_faults(simple, best);
            open_list(handler.commands.as_slice(), best);
        }
        Cmd::If(_, _, one, other) => {
            open_list(one.commands.as_slice(), best);
            open_else(other, best);
        }
        Cmd::TryThen(simple, then, accepted, refused) => {
            if !has_then_fault(simple, *then, best) {
                open_list(accepted.commands.as_slice(), best);
                open_list(refused.commands.as_slice(), best);
            }
        }
        Cmd::Case(_, _, arms, last) => {
            open_arms(arms.as_slice(), best);
            open_list(last.commands.as_slice(), best);
        }
    }
}

/// The arms of a `case`, without the block after `else`.
#[cycle(open)]
#[tactic(auto, using(crate::proofs::Opens::opens, sap_names::proofs::Faults::noting))]
fn open_arms(arms: &[Arm], best: &mut Option<Fault>)
    ensures { best.new ≡ best_of best.old (lists.open_arms arms.now) }
{
    for arm in arms {
        open_list(arm.block.commands.as_slice(), best);
    }
}

#[cycle(open)]
#[tactic(auto, using(crate::proofs::Opens::blocks, sap_names::proofs::Faults::noting))]
fn open_else(other: &Option<Block>, best: &mut Option<Fault>)
    ensures { best.new ≡ best_of best.old (closing.open_else_faults (else_of other.now)) }
{
    match other {
        Some(block) => open_list(block.commands.as_slice(), best),
        None => (),
    }
}

#[cycle(open)]
#[tactic(auto, using(crate::proofs::Opens::opens, sap_names::proofs::Faults::noting))]
fn open_list(commands: &[Cmd], best: &mut Option<Fault>)
    ensures { best.new ≡ best_of best.old (lists.open_list commands.now) }
{
    for command in commands {
        open_faults(command, best);
    }
}

#[tactic(auto, using(sap_names::proofs::Faults::noting))]
fn last_simple(command: &Simple, after: Place, best: &mut Option<Fault>)
    ensures { best.new ≡ best_of best.old (closing.last_simple_faults (simple_of command.now) after) }
{
    match command {
        Simple::Goto(_, _) => (),
        Simple::Fall(_) => (),
        Simple::Assign(_, _) => note(best, true, Code::E10, after),
        Simple::Write(_, _, _) => note(best, true, Code::E10, after),
        Simple::SetTag(_, _, _) => note(best, true, Code::E10, after),
        Simple::SetCellTag(_, _, _, _) => note(best, true, Code::E10, after),
    }
}

#[cycle(closing)]
#[tactic(auto, using(crate::proofs::Opens::blocks, sap_names::proofs::Faults::noting))]
fn last_handler(command: &Simple, handler: &Block, best: &mut Option<Fault>)
    ensures { best.new ≡ best_of best.old (closing.last_handler_faults (simple_of command.now)
        (closing.open_block_faults (block_of handler.now)) (closing.closing_faults (block_of handler.now))) }
{
    match command {
        Simple::Goto(_, _) => closing_list(handler.commands.as_slice(), handler.after, best),
        Simple::Fall(_) => closing_list(handler.commands.as_slice(), handler.after, best),
        Simple::Assign(_, _) => open_list(handler.commands.as_slice(), best),
        Simple::Write(_, _, _) => open_list(handler.commands.as_slice(), best),
        Simple::SetTag(_, _, _) => open_list(handler.commands.as_slice(), best),
        Simple::SetCellTag(_, _, _, _) => open_list(handler.commands.as_slice(), best),
    }
}

#[cycle(closing)]
#[tactic(auto, using(sap_tree::proofs::Views::views, crate::proofs::Opens::blocks, sap_names::proofs::Faults::noting))]
fn last_faults(command: &Cmd, after: Place, best: &mut Option<Fault>)
    ensures { best.new ≡ best_of best.old (closing.last_faults (command_of command.now) after) }
{
    match command {
        Cmd::Do(simple) => last_simple(simple, after, best),
        Cmd::Try(simple, _, handler) => {
            last_simple(simple, after, best);
            last_handler(simple, handler, best);
        }
        Cmd::If(place, _, one, other) => {
            closing_list(one.commands.as_slice(), one.after, best);
            closing_else(other, *place, best);
        }
        Cmd::TryThen(simple, then, accepted, refused) => {
            if !has_then_fault(simple, *then, best) {
                closing_list(accepted.commands.as_slice(), accepted.after, best);
                closing_list(refused.commands.as_slice(), refused.after, best);
            }
        }
        Cmd::Case(_, _, arms, last) => {
            closing_arms(arms.as_slice(), best);
            closing_list(last.commands.as_slice(), last.after, best);
        }
    }
}

/// The arms of a `case`, without the block after `else`.
#[cycle(closing)]
#[tactic(auto, using(crate::proofs::Opens::opens, sap_names::proofs::Faults::noting))]
fn closing_arms(arms: &[Arm], best: &mut Option<Fault>)
    ensures { best.new ≡ best_of best.old (lists.closing_arms arms.now) }
{
    for arm in arms {
        closing_list(arm.block.commands.as_slice(), arm.block.after, best);
    }
}

#[cycle(closing)]
#[tactic(auto, using(crate::proofs::Opens::blocks, sap_names::proofs::Faults::noting))]
fn closing_else(other: &Option<Block>, place: Place, best: &mut Option<Fault>)
    ensures { best.new ≡ best_of best.old (closing.closing_else_faults (else_of other.now) place) }
{
    match other {
        Some(block) => closing_list(block.commands.as_slice(), block.after, best),
        None => note(best, true, Code::E10, place),
    }
}

/// Notes the faults of a list that must close, where `after` is the place of the token after it.
#[cycle(closing)]
#[tactic(auto, using(crate::proofs::Opens::opens, sap_names::proofs::Faults::noting))]
pub(crate) fn closing_list(commands: &[Cmd], after: Place, best: &mut Option<Fault>)
    ensures { best.new ≡ best_of best.old (lists.closing_list commands.now after) }
{
    match commands {
        [before @ .., last] => {
            open_list(before, best);
            last_faults(last, after, best);
        }
        [] => note(best, true, Code::E10, after),
    }
}
