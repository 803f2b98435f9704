//! Runs of one operator, each in a loop of its own.

ghost use Rattle.std.specs.Prelude.{◌≡◌, map};
ghost use Rattle.sap_cycle.specs.declared.operands.Operator.TheVariants as operator;
ghost use Rattle.sap_cycle.specs.Runs.{operands_step, run_steps, steps_of_runs, two_step};
ghost use Rattle.sap_cycle.specs.Steps.{AreReady, settled};

use crate::instructions::{Placed, settle};
use crate::operands::{Operands, Operator};
use crate::steps::{Part, Step};
use sap_bits::{Op2, apply2, concat, slice};

/// Steps of one operator, or of any.
#[derive(Drop)]
pub enum Run {
    Alike(Operator, Vec<Operands>),
    Other(Vec<Placed>),
}

/// An operator on the numbers at two places.
#[inline(always)]
fn settle_two(op: Op2, values: &mut [u64], cells: &[u64], parts: &[Part], steps: &[Operands])
    requires { AreReady cells.now parts.now (map (two_step op) steps.now) values.old }
    ensures { values.new ≡ settled cells.now parts.now (map (two_step op) steps.now) values.old }
{
    for step in steps {
        let (a, b) = (values[step.a as usize], values[step.b as usize]);
        values[step.target as usize] = apply2(op, step.c, a, b);
    }
}

fn settle_eq_number(values: &mut [u64], cells: &[u64], parts: &[Part], steps: &[Operands])
    requires { AreReady cells.now parts.now (map (operands_step operator.EqNumber) steps.now) values.old }
    ensures { values.new ≡ settled cells.now parts.now (map (operands_step operator.EqNumber) steps.now) values.old }
{
    for step in steps {
        values[step.target as usize] = apply2(
            Op2::Eq,
            step.c,
            values[step.a as usize],
            u64::from(step.b),
        );
    }
}

fn settle_numbers(values: &mut [u64], cells: &[u64], parts: &[Part], steps: &[Operands])
    requires { AreReady cells.now parts.now (map (operands_step operator.Number) steps.now) values.old }
    ensures { values.new ≡ settled cells.now parts.now (map (operands_step operator.Number) steps.now) values.old }
{
    for step in steps {
        values[step.target as usize] = u64::from(step.a);
    }
}

fn settle_choices(values: &mut [u64], cells: &[u64], parts: &[Part], steps: &[Operands])
    requires { AreReady cells.now parts.now (map (operands_step operator.Choose) steps.now) values.old }
    ensures { values.new ≡ settled cells.now parts.now (map (operands_step operator.Choose) steps.now) values.old }
{
    for step in steps {
        // both are read, so that no branch depends on the number
        let (chosen, other) = (values[step.a as usize], values[step.b as usize]);
        values[step.target as usize] = if values[step.c as usize] == 0 {
            other
        } else {
            chosen
        };
    }
}

fn settle_pairs(values: &mut [u64], cells: &[u64], parts: &[Part], steps: &[Operands])
    requires { AreReady cells.now parts.now (map (operands_step operator.Pair) steps.now) values.old }
    ensures { values.new ≡ settled cells.now parts.now (map (operands_step operator.Pair) steps.now) values.old }
{
    for step in steps {
        let (a, b) = (values[step.a as usize], values[step.b as usize]);
        values[step.target as usize] = concat(a, step.c, b);
    }
}

fn settle_slices(values: &mut [u64], cells: &[u64], parts: &[Part], steps: &[Operands])
    requires { AreReady cells.now parts.now (map (operands_step operator.Slice) steps.now) values.old }
    ensures { values.new ≡ settled cells.now parts.now (map (operands_step operator.Slice) steps.now) values.old }
{
    for step in steps {
        values[step.target as usize] = slice(values[step.a as usize], step.b, step.c);
    }
}

fn settle_alike(
    operator: Operator,
    values: &mut [u64],
    cells: &[u64],
    parts: &[Part],
    steps: &[Operands],
)
    requires { AreReady cells.now parts.now (map (operands_step operator) steps.now) values.old }
    ensures { values.new ≡ settled cells.now parts.now (map (operands_step operator) steps.now) values.old }
{
    match operator {
        Operator::Number => settle_numbers(values, cells, parts, steps),
        Operator::Add => settle_two(Op2::Add, values, cells, parts, steps),
        Operator::Sub => settle_two(Op2::Sub, values, cells, parts, steps),
        Operator::And => settle_two(Op2::And, values, cells, parts, steps),
        Operator::Or => settle_two(Op2::Or, values, cells, parts, steps),
        Operator::Xor => settle_two(Op2::Xor, values, cells, parts, steps),
        Operator::Eq => settle_two(Op2::Eq, values, cells, parts, steps),
        Operator::Ne => settle_two(Op2::Ne, values, cells, parts, steps),
        Operator::Lt => settle_two(Op2::Lt, values, cells, parts, steps),
        Operator::EqNumber => settle_eq_number(values, cells, parts, steps),
        Operator::Choose => settle_choices(values, cells, parts, steps),
        Operator::Pair => settle_pairs(values, cells, parts, steps),
        Operator::Slice => settle_slices(values, cells, parts, steps),
    }
}

fn settle_run(values: &mut [u64], cells: &[u64], parts: &[Part], others: &[Step], run: &Run)
    requires { AreReady cells.now parts.now (run_steps others.now run.now) values.old }
    ensures { values.new ≡ settled cells.now parts.now (run_steps others.now run.now) values.old }
{
    match run {
        Run::Alike(operator, steps) => settle_alike(*operator, values, cells, parts, steps),
        Run::Other(steps) => settle(values, cells, parts, others, steps),
    }
}

/// The steps of all runs, one after another.
pub fn settle_runs(values: &mut [u64], cells: &[u64], parts: &[Part], others: &[Step], runs: &[Run])
    requires { AreReady cells.now parts.now (steps_of_runs others.now runs.now) values.old }
    ensures { values.new ≡ settled cells.now parts.now (steps_of_runs others.now runs.now) values.old }
{
    for run in runs {
        settle_run(values, cells, parts, others, run);
    }
}
