//! Whether a body may fall into a child.

ghost use Rattle.std.specs.Prelude.{◌≡◌};
ghost use Rattle.sap_shape.specs.Lists.{falls_arms, falls_list};
ghost use Rattle.sap_shape.specs.Walk as walk;
ghost use Rattle.sap_tree.specs.Trees.{command_of, else_of, simple_of};

use sap_tree::syntax::{Arm, Block, Cmd, Simple};

fn is_fall(command: &Simple) -> bool
    ensures { result ≡ walk.is_fall (simple_of command.now) }
{
    matches!(command, Simple::Fall(_))
}

#[cycle(falls)]
#[tactic(auto, using(sap_tree::proofs::Views::views, crate::proofs::Falling::falling))]
fn command_falls(command: &Cmd) -> bool
    ensures { result ≡ walk.falls (command_of command.now) }
{
    match command {
        Cmd::Do(simple) => is_fall(simple),
        Cmd::Try(simple, _, handler) => is_fall(simple) || has_fall(handler.commands.as_slice()),
        Cmd::If(_, _, one, other) => has_fall(one.commands.as_slice()) || else_falls(other),
        Cmd::TryThen(simple, _, accepted, refused) => {
            is_fall(simple)
                || has_fall(accepted.commands.as_slice())
                || has_fall(refused.commands.as_slice())
        }
        Cmd::Case(_, _, arms, last) => {
            arms_fall(arms.as_slice()) || has_fall(last.commands.as_slice())
        }
    }
}

/// The arms of a `case`, without the block after `else`.
#[cycle(falls)]
#[tactic(auto, using(crate::proofs::Falling::falling))]
fn arms_fall(arms: &[Arm]) -> bool
    ensures { result ≡ falls_arms arms.now }
{
    for arm in arms {
        if has_fall(arm.block.commands.as_slice()) {
            return true;
        }
    }
    false
}

#[cycle(falls)]
#[tactic(auto, using(crate::proofs::Falling::falling))]
fn else_falls(other: &Option<Block>) -> bool
    ensures { result ≡ walk.falls_else (else_of other.now) }
{
    match other {
        Some(block) => has_fall(block.commands.as_slice()),
        None => false,
    }
}

/// Whether a `fall` stands in the commands, in their blocks or in their handlers.
#[cycle(falls)]
#[tactic(auto, using(crate::proofs::Falling::falling))]
pub(crate) fn has_fall(commands: &[Cmd]) -> bool
    ensures { result ≡ falls_list commands.now }
{
    for command in commands {
        if command_falls(command) {
            return true;
        }
    }
    false
}
