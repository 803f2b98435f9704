//! E14: no path of one cycle writes a memory twice.

ghost use Rattle.std.specs.Prelude.{◌≡◌, OnOk};
ghost use Rattle.sap_names.specs.Best.{best_of};
ghost use Rattle.sap_shape.specs.Lists as lists;
ghost use Rattle.sap_shape.specs.Lists.{written_in};
ghost use Rattle.sap_shape.specs.Walk as paths;
ghost use Rattle.sap_shape.specs.Walk.{either, writing};
ghost use Rattle.sap_names.specs.NameFaults.{fault_if};
ghost use Rattle.sap_names.specs.declared.kind.Code.TheVariants.{E14};
ghost use Rattle.sap_tree.specs.Trees.{block_of, command_of, else_of, simple_of};

use crate::written::Written;
use sap_names::fault::{Fault, note};
use sap_names::kind::Code;
use sap_tree::name::Name;
use sap_tree::place::Place;
use sap_tree::syntax::{Arm, Block, Cmd, Simple};
use std::alloc::{AllocError, Global};
use std::mem;

// A cell of a memory is written.
fn cell_paths(
    alloc: Global,
    memory: &Name,
    place: Place,
    here: &mut Written,
    best: &mut Option<Fault>,
) -> Result<(), AllocError>
    ensures past { OnOk result (written_in here.new ≡ writing memory.now (written_in here.old)) }
    ensures second { OnOk result (best.new ≡ best_of best.old (fault_if (written_in here.old memory.now) E14 place)) }
{
    note(best, here.contains(memory), Code::E14, place);
    here.add(alloc, memory)
}

// `here` goes past the command, and `entered` takes in the paths that enter a child in it.
#[tactic(auto, using(crate::proofs::Sets::sets, sap_names::proofs::Faults::noting))]
fn simple_paths(
    alloc: Global,
    command: &Simple,
    here: &mut Written,
    entered: &mut Written,
    best: &mut Option<Fault>,
) -> Result<(), AllocError>
    ensures past { OnOk result (written_in here.new ≡ paths.past_simple (simple_of command.now) (written_in here.old)) }
    ensures entering { OnOk result (written_in entered.new
        ≡ either (written_in entered.old) (paths.entering_simple (simple_of command.now) (written_in here.old))) }
    ensures second { OnOk result (best.new ≡ best_of best.old (paths.second_simple (simple_of command.now) (written_in here.old))) }
{
    match command {
        Simple::Write(target, _, _) => cell_paths(alloc, &target.name, target.place, here, best),
        Simple::SetCellTag(place, target, _, _) => cell_paths(
            alloc,
            &target.name,
            *place,
            here,
            best,
        ),
        Simple::Fall(_) => entered.join(alloc, here),
        Simple::Assign(_, _) => Ok(()),
        Simple::SetTag(_, _, _) => Ok(()),
        Simple::Goto(_, _) => Ok(()),
    }
}

#[cycle(paths)]
#[tactic(auto, using(sap_tree::proofs::Views::views, crate::proofs::Walks::blocks, crate::proofs::Sets::sets, sap_names::proofs::Faults::noting))]
fn command_paths(
    alloc: Global,
    command: &Cmd,
    here: &mut Written,
    entered: &mut Written,
    best: &mut Option<Fault>,
) -> Result<(), AllocError>
    ensures past { OnOk result (written_in here.new ≡ (paths.found (command_of command.now) (written_in here.old)).past) }
    ensures entering { OnOk result (written_in entered.new ≡ either (written_in entered.old) (paths.found (command_of command.now) (written_in here.old)).entering) }
    ensures second { OnOk result (best.new ≡ best_of best.old (paths.found (command_of command.now) (written_in here.old)).again) }
{
    match command {
        Cmd::Do(simple) => simple_paths(alloc, simple, here, entered, best),
        Cmd::Try(simple, _, handler) => {
            simple_paths(alloc, simple, here, entered, best)?;
            let refused = here.copy(alloc)?;
            beside_paths(alloc, handler, refused, here, entered, best)
        }
        Cmd::If(_, _, one, other) => {
            let beside = here.copy(alloc)?;
            list_paths(alloc, one.commands.as_slice(), here, entered, best)?;
            else_paths(alloc, other, beside, here, entered, best)
        }
        Cmd::TryThen(simple, _, accepted, refused) => {
            simple_paths(alloc, simple, here, entered, best)?;
            let beside = here.copy(alloc)?;
            list_paths(alloc, accepted.commands.as_slice(), here, entered, best)?;
            beside_paths(alloc, refused, beside, here, entered, best)
        }
        Cmd::Case(_, _, arms, last) => {
            let mut past = Written::new(alloc);
            arms_paths(alloc, arms.as_slice(), here, &mut past, entered, best)?;
            let start = mem::replace(here, past);
            beside_paths(alloc, last, start, here, entered, best)
        }
    }
}

// A block that begins at `start`: `past` takes in where it ends.
#[cycle(paths)]
#[tactic(auto, using(crate::proofs::Walks::blocks, crate::proofs::Sets::sets, sap_names::proofs::Faults::noting))]
fn beside_paths(
    alloc: Global,
    block: &Block,
    mut start: Written,
    past: &mut Written,
    entered: &mut Written,
    best: &mut Option<Fault>,
) -> Result<(), AllocError>
    ensures past { OnOk result (written_in past.new ≡ either (written_in past.old) (paths.found_in_block (block_of block.now) (written_in start)).past) }
    ensures entering { OnOk result (written_in entered.new ≡ either (written_in entered.old) (paths.found_in_block (block_of block.now) (written_in start)).entering) }
    ensures second { OnOk result (best.new ≡ best_of best.old (paths.found_in_block (block_of block.now) (written_in start)).again) }
{
    list_paths(alloc, block.commands.as_slice(), &mut start, entered, best)?;
    past.join(alloc, &start)
}

// The arms of a `case`, without the block after `else`: each begins at `start`, and `past` takes in where they end.
#[cycle(paths)]
#[tactic(auto, using(crate::proofs::Walks::walks, crate::proofs::Sets::sets, sap_names::proofs::Faults::noting))]
fn arms_paths(
    alloc: Global,
    arms: &[Arm],
    start: &Written,
    past: &mut Written,
    entered: &mut Written,
    best: &mut Option<Fault>,
) -> Result<(), AllocError>
    ensures past { OnOk result (written_in past.new ≡ either (written_in past.old) (lists.found_in_arms arms.now (written_in start.now)).past) }
    ensures entering { OnOk result (written_in entered.new ≡ either (written_in entered.old) (lists.found_in_arms arms.now (written_in start.now)).entering) }
    ensures second { OnOk result (best.new ≡ best_of best.old (lists.found_in_arms arms.now (written_in start.now)).again) }
{
    for arm in arms {
        let here = start.copy(alloc)?;
        beside_paths(alloc, &arm.block, here, past, entered, best)?;
    }
    Ok(())
}

// The block after an `else`, or none.
#[cycle(paths)]
#[tactic(auto, using(crate::proofs::Walks::blocks, crate::proofs::Sets::sets, sap_names::proofs::Faults::noting))]
fn else_paths(
    alloc: Global,
    other: &Option<Block>,
    start: Written,
    past: &mut Written,
    entered: &mut Written,
    best: &mut Option<Fault>,
) -> Result<(), AllocError>
    ensures past { OnOk result (written_in past.new ≡ either (written_in past.old) (paths.found_in_else (else_of other.now) (written_in start)).past) }
    ensures entering { OnOk result (written_in entered.new ≡ either (written_in entered.old) (paths.found_in_else (else_of other.now) (written_in start)).entering) }
    ensures second { OnOk result (best.new ≡ best_of best.old (paths.found_in_else (else_of other.now) (written_in start)).again) }
{
    match other {
        Some(block) => beside_paths(alloc, block, start, past, entered, best),
        None => past.join(alloc, &start),
    }
}

#[cycle(paths)]
#[tactic(auto, using(crate::proofs::Walks::walks, crate::proofs::Sets::sets, sap_names::proofs::Faults::noting))]
pub(crate) fn list_paths(
    alloc: Global,
    commands: &[Cmd],
    here: &mut Written,
    entered: &mut Written,
    best: &mut Option<Fault>,
) -> Result<(), AllocError>
    ensures past { OnOk result (written_in here.new ≡ (lists.found_in_list commands.now (written_in here.old)).past) }
    ensures entering { OnOk result (written_in entered.new ≡ either (written_in entered.old) (lists.found_in_list commands.now (written_in here.old)).entering) }
    ensures second { OnOk result (best.new ≡ best_of best.old (lists.found_in_list commands.now (written_in here.old)).again) }
{
    for command in commands {
        command_paths(alloc, command, here, entered, best)?;
    }
    Ok(())
}
