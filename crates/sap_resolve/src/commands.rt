//! Commands with the numbers of their check sites, and with what hangs on them.

ghost use Rattle.std.specs.Prelude.{◌≡◌, ◌+◌, ◌<◌, ◌^◌, IfOk, None, OnOk, Some, length};
ghost use Rattle.sap_meaning.specs.Program as meaning;
ghost use Rattle.sap_program.specs.Hangs.{flags};
ghost use Rattle.sap_resolve.specs.Surroundings.{surroundings_of, rows_of};
ghost use Rattle.sap_resolve.specs.Lists as lists;
ghost use Rattle.sap_resolve.specs.Rows.{arms_points, arms_with, command_points, command_with, block_points, block_with, step_points, step_with};
ghost use Rattle.sap_program.specs.Views as views;
ghost use Rattle.sap_resolved.specs.Resolve as resolve;
ghost use Rattle.sap_resolved.specs.Terms as terms;
ghost use Rattle.sap_shape.specs.Sites as sites;
ghost use Rattle.sap_tree.specs.Trees as trees;

use crate::numbers::number;
use crate::rows::row;
use crate::standing::Standing;
use crate::steps::{step, take_site};
use sap_program::hang::Hang;
use sap_program::program::{Arm, Command, Step};
use sap_tree::syntax::{Arm as ArmTree, Block, Cmd, Expr, Simple};
use std::alloc::{AllocError, Global};

/// The number of the next point. That of the point behind it is kept.
fn take_point(point: &mut u32) -> u32
    requires { point.old + 1 < 2 ^ 32 }
    ensures number { result ≡ point.old }
    ensures point { point.new ≡ point.old + 1 }
{
    let taken = *point;
    *point += 1;
    taken
}

/// The number of the first point of a step that may be refused. That of the point behind its last one is kept.
fn take_points(standing: &Standing<'_>, point: &mut u32, site: u32, command: &Simple) -> u32
    requires { point.old + (step_points (resolve.step_of standing.now.lattice.now (surroundings_of standing.now) site (trees.simple_of command.now)) + 1) < 2 ^ 32 }
    ensures number { result ≡ point.old }
    ensures point { point.new ≡ point.old + step_points (resolve.step_of standing.now.lattice.now (surroundings_of standing.now) site (trees.simple_of command.now)) + 1 }
{
    let taken = *point;
    match command {
        Simple::Fall(_) => *point += 2,
        Simple::Assign(..)
        | Simple::Write(..)
        | Simple::SetTag(..)
        | Simple::SetCellTag(..)
        | Simple::Goto(..) => *point += 1,
    }
    taken
}

/// A step that may be refused, and what hangs on the point behind it.
#[derive(Drop)]
struct Attempt {
    step: Step,
    hang: Hang,
}

/// The number of its first point is `point`.
fn refusable_step(
    alloc: Global,
    standing: &Standing<'_>,
    site: u32,
    mut point: u32,
    command: &Simple,
) -> Result<Attempt, AllocError>
    requires { point + step_points (resolve.step_of standing.now.lattice.now (surroundings_of standing.now) site (trees.simple_of command.now)) < 2 ^ 32 }
    ensures step { IfOk result (λ a. views.step_of (length standing.now.names.now) a.step ≡ step_with (rows_of standing.now) point (resolve.step_of standing.now.lattice.now (surroundings_of standing.now) site (trees.simple_of command.now))) }
    ensures hang { IfOk result (λ a. flags (length standing.now.names.now) a.hang ≡ rows_of standing.now (point + step_points (resolve.step_of standing.now.lattice.now (surroundings_of standing.now) site (trees.simple_of command.now)))) }
{
    let step = step(alloc, standing, site, &mut point, command)?;
    let hang = row(alloc, standing.table, standing.names.count(), point)?;
    Ok(Attempt { step, hang })
}

/// The commands of an `otherwise` are made: the step with its handler; `point` is the number of its first point.
#[tactic(auto, using(sap_program::proofs::Shown::commands))]
fn handled(
    alloc: Global,
    standing: &Standing<'_>,
    site: u32,
    point: u32,
    command: &Simple,
    handler: Vec<Command>,
) -> Result<Command, AllocError>
    requires { point + step_points (resolve.step_of standing.now.lattice.now (surroundings_of standing.now) site (trees.simple_of command.now)) < 2 ^ 32 }
    ensures { let count = length standing.now.names.now in
        let step = resolve.step_of standing.now.lattice.now (surroundings_of standing.now) site (trees.simple_of command.now) in
        IfOk result (λ r. views.command_of count r ≡ meaning.try (step_with (rows_of standing.now) point step) (rows_of standing.now (point + step_points step)) (views.block_of count handler.items)) }
{
    let made = refusable_step(alloc, standing, site, point, command)?;
    Ok(Command::Try {
        step: made.step,
        hang: made.hang,
        handler,
    })
}

/// The commands of a `then` are made: the step with both; `point` is the number of its first point.
#[tactic(auto, using(sap_program::proofs::Shown::commands))]
fn decided(
    alloc: Global,
    standing: &Standing<'_>,
    site: u32,
    point: u32,
    command: &Simple,
    accepted: Vec<Command>,
    refused: Vec<Command>,
) -> Result<Command, AllocError>
    requires { point + step_points (resolve.step_of standing.now.lattice.now (surroundings_of standing.now) site (trees.simple_of command.now)) < 2 ^ 32 }
    ensures { let count = length standing.now.names.now in
        let step = resolve.step_of standing.now.lattice.now (surroundings_of standing.now) site (trees.simple_of command.now) in
        IfOk result (λ r. views.command_of count r ≡ meaning.try_then (step_with (rows_of standing.now) point step) (rows_of standing.now (point + step_points step)) (views.block_of count accepted.items) (views.block_of count refused.items)) }
{
    let made = refusable_step(alloc, standing, site, point, command)?;
    Ok(Command::TryThen {
        step: made.step,
        hang: made.hang,
        accepted,
        refused,
    })
}

/// The commands of an `if` are made: the `if`, whose point has this number.
#[tactic(auto, using(sap_program::proofs::Shown::commands))]
fn conditional(
    alloc: Global,
    standing: &Standing<'_>,
    point: u32,
    e: &Expr,
    yes: Vec<Command>,
    no: Vec<Command>,
) -> Result<Command, AllocError>
    ensures { let count = length standing.now.names.now in
        IfOk result (λ r. views.command_of count r ≡ meaning.if_else (rows_of standing.now point) (terms.term_of standing.now.names.now (trees.expression_of e.now) (Some 1)) (views.block_of count yes.items) (views.block_of count no.items)) }
{
    let condition = number(alloc, standing.names, e, Some(1))?;
    let hang = row(alloc, standing.table, standing.names.count(), point)?;
    Ok(Command::If {
        hang,
        condition,
        yes,
        no,
    })
}

/// The commands of a `case` are made: the `case`, whose point has this number.
#[tactic(auto, using(sap_program::proofs::Shown::commands))]
fn choice(
    alloc: Global,
    standing: &Standing<'_>,
    point: u32,
    e: &Expr,
    arms: Vec<Arm>,
    last: Vec<Command>,
) -> Result<Command, AllocError>
    ensures { let count = length standing.now.names.now in
        IfOk result (λ r. views.command_of count r ≡ meaning.case_of (rows_of standing.now point) (terms.term_of standing.now.names.now (trees.expression_of e.now) None) (views.arms_before count arms.items (meaning.last_arm (views.block_of count last.items)))) }
{
    let number = number(alloc, standing.names, e, None)?;
    let hang = row(alloc, standing.table, standing.names.count(), point)?;
    Ok(Command::Case {
        hang,
        number,
        arms,
        last,
    })
}

/// A command of a body; `next` is the number of the next site, and `point` that of the next point.
#[cycle(body)]
#[tactic(auto, using(sap_tree::proofs::Views::views, sap_program::proofs::Shown::commands, crate::proofs::Lists::blocks))]
fn command(
    alloc: Global,
    standing: &Standing<'_>,
    next: &mut u32,
    point: &mut u32,
    c: &Cmd,
) -> Result<Command, AllocError>
    requires sites { next.old + length (sites.command_sites (surroundings_of standing.now) (trees.command_of c.now)) < 2 ^ 32 }
    requires points { point.old + command_points (resolve.command_of standing.now.lattice.now (surroundings_of standing.now) next.old (trees.command_of c.now)) < 2 ^ 32 }
    ensures command { IfOk result (λ r. views.command_of (length standing.now.names.now) r
        ≡ command_with (rows_of standing.now) point.old (resolve.command_of standing.now.lattice.now (surroundings_of standing.now) next.old (trees.command_of c.now))) }
    ensures next { OnOk result (next.new ≡ next.old + length (sites.command_sites (surroundings_of standing.now) (trees.command_of c.now))) }
    ensures point { OnOk result (point.new ≡ point.old + command_points (resolve.command_of standing.now.lattice.now (surroundings_of standing.now) next.old (trees.command_of c.now))) }
{
    match c {
        Cmd::Do(simple) => {
            let site = take_site(standing, next, simple);
            Ok(Command::Do(step(alloc, standing, site, point, simple)?))
        }
        Cmd::Try(simple, _, handler) => {
            let site = take_site(standing, next, simple);
            let at = take_points(standing, point, site, simple);
            let handler = commands(alloc, standing, next, point, handler.commands.as_slice())?;
            handled(alloc, standing, site, at, simple, handler)
        }
        Cmd::If(_, e, one, other) => {
            let at = take_point(point);
            let yes = commands(alloc, standing, next, point, one.commands.as_slice())?;
            let no = otherwise(alloc, standing, next, point, other)?;
            conditional(alloc, standing, at, e, yes, no)
        }
        Cmd::TryThen(simple, _, accepted, refused) => {
            let site = take_site(standing, next, simple);
            let at = take_points(standing, point, site, simple);
            let accepted = commands(alloc, standing, next, point, accepted.commands.as_slice())?;
            let refused = commands(alloc, standing, next, point, refused.commands.as_slice())?;
            decided(alloc, standing, site, at, simple, accepted, refused)
        }
        Cmd::Case(_, e, branches, other) => {
            let at = take_point(point);
            let arms = arms(alloc, standing, next, point, branches.as_slice())?;
            let last = commands(alloc, standing, next, point, other.commands.as_slice())?;
            choice(alloc, standing, at, e, arms, last)
        }
    }
}

/// The number of a constant of an arm.
#[tactic(auto, using(sap_tree::proofs::Views::views))]
fn constant(e: &Expr) -> u64
    ensures { result ≡ resolve.number_of (trees.expression_of e.now) }
{
    match e {
        Expr::Number(_, value) => *value,
        Expr::Sized(_, _, value) => *value,
        Expr::Read(..)
        | Expr::Cell(..)
        | Expr::Unary(..)
        | Expr::Binary(..)
        | Expr::Choose(..)
        | Expr::Slice(..)
        | Expr::Concat(..)
        | Expr::Zext(..) => 0,
    }
}

fn constants(alloc: Global, list: &[Expr]) -> Result<Vec<u64>, AllocError>
    ensures { IfOk result (λ r. r.items ≡ lists.numbers_of list.now) }
{
    let mut made = Vec::new(alloc);
    for e in list {
        made.push(constant(e))?;
    }
    Ok(made)
}

/// The arms of a `case`, without the block after `else`.
#[cycle(body)]
#[tactic(auto, using(sap_program::proofs::Shown::commands))]
fn arms(
    alloc: Global,
    standing: &Standing<'_>,
    next: &mut u32,
    point: &mut u32,
    list: &[ArmTree],
) -> Result<Vec<Arm>, AllocError>
    requires sites { next.old + lists.arms_site_count (surroundings_of standing.now) list.now < 2 ^ 32 }
    requires points { point.old + arms_points (lists.arms_from standing.now.lattice.now (surroundings_of standing.now) next.old list.now meaning.end_block) < 2 ^ 32 }
    ensures arms { IfOk result (λ r. (last : meaning.Block) → views.arms_before (length standing.now.names.now) r.items (meaning.last_arm (block_with (rows_of standing.now) point.new last))
        ≡ arms_with (rows_of standing.now) point.old (lists.arms_from standing.now.lattice.now (surroundings_of standing.now) next.old list.now last)) }
    ensures next { OnOk result (next.new ≡ next.old + lists.arms_site_count (surroundings_of standing.now) list.now) }
    ensures point { OnOk result (point.new ≡ point.old + arms_points (lists.arms_from standing.now.lattice.now (surroundings_of standing.now) next.old list.now meaning.end_block)) }
{
    let mut made = Vec::new(alloc);
    for arm in list {
        let constants = constants(alloc, arm.constants.as_slice())?;
        let block = commands(alloc, standing, next, point, arm.block.commands.as_slice())?;
        made.push(Arm { constants, block })?;
    }
    Ok(made)
}

#[cycle(body)]
#[tactic(auto, using(sap_program::proofs::Shown::commands, crate::proofs::Lists::blocks))]
fn otherwise(
    alloc: Global,
    standing: &Standing<'_>,
    next: &mut u32,
    point: &mut u32,
    other: &Option<Block>,
) -> Result<Vec<Command>, AllocError>
    requires sites { next.old + length (sites.else_sites (surroundings_of standing.now) (trees.else_of other.now)) < 2 ^ 32 }
    requires points { point.old + block_points (resolve.else_of standing.now.lattice.now (surroundings_of standing.now) next.old (trees.else_of other.now)) < 2 ^ 32 }
    ensures commands { IfOk result (λ r. views.block_of (length standing.now.names.now) r.items
        ≡ block_with (rows_of standing.now) point.old (resolve.else_of standing.now.lattice.now (surroundings_of standing.now) next.old (trees.else_of other.now))) }
    ensures next { OnOk result (next.new ≡ next.old + length (sites.else_sites (surroundings_of standing.now) (trees.else_of other.now))) }
    ensures point { OnOk result (point.new ≡ point.old + block_points (resolve.else_of standing.now.lattice.now (surroundings_of standing.now) next.old (trees.else_of other.now))) }
{
    match other {
        Some(block) => commands(alloc, standing, next, point, block.commands.as_slice()),
        None => Ok(Vec::new(alloc)),
    }
}

/// The commands of a body or of a block.
#[cycle(body)]
#[tactic(auto, using(sap_program::proofs::Shown::commands))]
pub(crate) fn commands(
    alloc: Global,
    standing: &Standing<'_>,
    next: &mut u32,
    point: &mut u32,
    list: &[Cmd],
) -> Result<Vec<Command>, AllocError>
    requires sites { next.old + lists.list_site_count (surroundings_of standing.now) list.now < 2 ^ 32 }
    requires points { point.old + block_points (lists.list_from standing.now.lattice.now (surroundings_of standing.now) next.old list.now) < 2 ^ 32 }
    ensures commands { IfOk result (λ r. views.block_of (length standing.now.names.now) r.items
        ≡ block_with (rows_of standing.now) point.old (lists.list_from standing.now.lattice.now (surroundings_of standing.now) next.old list.now)) }
    ensures next { OnOk result (next.new ≡ next.old + lists.list_site_count (surroundings_of standing.now) list.now) }
    ensures point { OnOk result (point.new ≡ point.old + block_points (lists.list_from standing.now.lattice.now (surroundings_of standing.now) next.old list.now)) }
{
    let mut made = Vec::new(alloc);
    for c in list {
        let one = command(alloc, standing, next, point, c)?;
        made.push(one)?;
    }
    Ok(made)
}
