//! Steps in runs of one operator.

ghost use Rattle.std.specs.Prelude.{◌≡◌, List, map, IfOk, IfSome};
ghost use Rattle.sap_cycle.specs.declared.steps.Step.{Step as Whole};
ghost use Rattle.sap_cycle.specs.Instructions.{placed_step};
ghost use Rattle.sap_cycle.specs.Runs.{operands_step, run_steps, steps_of_runs};

use crate::instructions::Placed;
use crate::operands::{Operands, Operator, short_of};
use crate::runs::Run;
use crate::sort::operator;
use std::alloc::{AllocError, Global};

// From how many steps a run on a loop for each run costs less than one loop over all steps.
const LONG_RUN: usize = 3;

/// Steps in their short form, where they have one and all do this.
fn alike(
    alloc: Global,
    operator: Operator,
    steps: &[Placed],
) -> Result<Option<Vec<Operands>>, AllocError>
    ensures { IfOk result (λ o. IfSome o (λ v. (others : List Whole) → map (operands_step operator) v.items ≡ map (placed_step others) steps.now)) }
{
    let mut short = Vec::new(alloc);
    for step in steps {
        match short_of(step) {
            Some(next) if next.operator == operator => short.push(next.operands)?,
            _ => return Ok(None),
        }
    }
    Ok(Some(short))
}

/// Some steps as a run.
fn run_of(alloc: Global, steps: &[Placed]) -> Result<Run, AllocError>
    ensures { IfOk result (λ r. (others : List Whole) → run_steps others r ≡ map (placed_step others) steps.now) }
{
    if let Some(first) = steps.first() {
        if let Some(short) = short_of(first) {
            if let Some(list) = alike(alloc, short.operator, steps)? {
                return Ok(Run::Alike(short.operator, list));
            }
        }
    }
    Ok(Run::Other(steps.to_vec(alloc)?))
}

/// Where the runs of one operator end, but for the last, or nothing where they are short.
fn run_ends(alloc: Global, steps: &[Placed]) -> Result<Vec<usize>, AllocError> {
    let mut ends = Vec::new(alloc);
    let mut last = 0;
    for (i, step) in steps.iter().enumerate() {
        let this = operator(&step.instruction);
        if this != last {
            ends.push(i)?;
        }
        last = this;
    }
    if ends.len() >= steps.len() / LONG_RUN {
        ends.truncate(0);
    }
    Ok(ends)
}

/// The steps in runs that end at these places, and one of what is left.
fn divided(alloc: Global, steps: &[Placed], ends: &[usize]) -> Result<Vec<Run>, AllocError>
    ensures { IfOk result (λ v. (others : List Whole) → steps_of_runs others v.items ≡ map (placed_step others) steps.now) }
{
    let mut runs = Vec::new(alloc);
    let mut start: usize = 0;
    for end in ends {
        let stop = *end;
        if start < stop && stop <= steps.len() {
            runs.push(run_of(alloc, &steps[start..stop])?)?;
            start = stop;
        }
    }
    runs.push(run_of(alloc, &steps[start..])?)?;
    Ok(runs)
}

/// The steps in runs of one operator, or in one run of any where those are short.
pub fn runs_of(alloc: Global, steps: &[Placed]) -> Result<Vec<Run>, AllocError>
    ensures { IfOk result (λ v. (others : List Whole) → steps_of_runs others v.items ≡ map (placed_step others) steps.now) }
{
    let ends = run_ends(alloc, steps)?;
    divided(alloc, steps, &ends)
}
