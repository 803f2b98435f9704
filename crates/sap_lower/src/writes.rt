//! What is written to a memory, and when. A cell that is written as it was isn't written.

ghost use Rattle.std.specs.Prelude.{◌≡◌, ◌≤◌, IfOk, OnOk, length, map, take};
ghost use Rattle.std.specs.Option.{option_map};
ghost use Rattle.sap_ir.specs.Calcs.{joined_terms, term_of};
ghost use Rattle.sap_lower.specs.Reads.{entries_seen};
ghost use Rattle.sap_lower.specs.Writes as spec;
ghost use Rattle.sap_lower.specs.Writes.{choice_in, low_choice, low_write};

use crate::calc::lower_calc;
use crate::calculation::calculate;
use crate::facts::Fact;
use crate::parts::Part;
use crate::wires::Wires;
use sap_fold::rules::same;
use sap_ir::guarded::Calc;
use sap_net::parts::{Name, Operand, Right};
use sap_share::table::Table;
use std::alloc::{AllocError, Global};

/// What is written, and the condition.
#[derive(Drop)]
pub struct Write {
    pub when: Operand,
    pub value: Operand,
}

/// A choice between two calculations.
#[derive(Drop)]
pub struct Choice<'a> {
    test: &'a Calc,
    first: &'a Calc,
    second: &'a Calc,
}

/// The choice that a calculation is.
#[cycle(choice)]
fn choice_of(calc: &Calc) -> Option<Choice<'_>>
    ensures { option_map (λ c. (term_of c.test.now, term_of c.first.now, term_of c.second.now)) result ≡ choice_in (term_of calc.now) }
{
    match calc {
        Calc::Choose(test, first, second) => Some(Choice {
            test,
            first,
            second,
        }),
        Calc::Concat(parts) => choice_of_parts(parts),
        _ => None,
    }
}

/// The choice that parts one behind another are: that of the only part.
#[cycle(choice)]
fn choice_of_parts(parts: &[Calc]) -> Option<Choice<'_>>
    ensures { option_map (λ c. (term_of c.test.now, term_of c.first.now, term_of c.second.now)) result ≡ choice_in (joined_terms (map term_of parts.now)) }
{
    match parts {
        [] => None,
        [part] => choice_of(part),
        [_, _, ..] => None,
    }
}

/// Whether an operand is this cell of a memory.
fn reads_cell(wires: &Wires, memory: &Name, index: &Operand, operand: &Operand) -> bool
    ensures { result ≡ spec.reads_cell (take (length wires.now) wires.now) memory.now index.now operand.now }
{
    let Operand::Named(name) = operand else {
        return false;
    };
    match wires.right_of(wires.len(), name) {
        Some(
            Right::Cell {
                memory: other,
                index: place,
            },
        ) => other.same(memory) && same(place, index),
        _ => false,
    }
}

/// A write of a choice. Where the first is the cell as it was, only the second is written, if the test is 0.
fn spare(
    alloc: Global,
    wires: &mut Wires,
    keeps: bool,
    when: Operand,
    test: Operand,
    first: Part,
    second: Part,
) -> Result<Write, AllocError>
    ensures wires { OnOk result (wires.new ≡ (spec.spared keeps when test first second wires.old).wires) }
    ensures write { IfOk result (λ w. w ≡ (spec.spared keeps when test first second wires.old).write) }
{
    if keeps {
        let never = Operand::Constant { width: 1, value: 0 };
        let when = wires.add(alloc, 1, Right::Choose(test, never, when))?;
        return Ok(Write {
            when: when.operand,
            value: second.operand,
        });
    }
    let right = Right::Choose(test, first.operand, second.operand);
    let value = calculate(alloc, wires, first.width, right)?;
    Ok(Write {
        when,
        value: value.operand,
    })
}

/// A write of a choice under a condition where these facts hold.
fn write_choice(
    alloc: Global,
    wires: &mut Wires,
    entries: &Table<Part>,
    facts: &[Fact],
    before: usize,
    memories: &Table<(u32, u32)>,
    memory: &Name,
    when: Operand,
    index: &Operand,
    choice: &Choice<'_>,
) -> Result<Write, AllocError>
    requires { before ≤ length wires.old }
    ensures wires { OnOk result (wires.new ≡ (low_choice memories.now (entries_seen (take before wires.old) facts.now entries.now) memory.now when index.now (term_of choice.now.test.now) (term_of choice.now.first.now) (term_of choice.now.second.now) wires.old).wires) }
    ensures write { IfOk result (λ w. w ≡ (low_choice memories.now (entries_seen (take before wires.old) facts.now entries.now) memory.now when index.now (term_of choice.now.test.now) (term_of choice.now.first.now) (term_of choice.now.second.now) wires.old).write) }
{
    let test = lower_calc(alloc, wires, entries, facts, before, memories, choice.test)?;
    let first = lower_calc(alloc, wires, entries, facts, before, memories, choice.first)?;
    let second = lower_calc(
        alloc,
        wires,
        entries,
        facts,
        before,
        memories,
        choice.second,
    )?;
    let keeps = reads_cell(wires, memory, index, &first.operand);
    spare(alloc, wires, keeps, when, test.operand, first, second)
}

/// A write under a condition where these facts hold.
pub fn write_calc(
    alloc: Global,
    wires: &mut Wires,
    entries: &Table<Part>,
    facts: &[Fact],
    before: usize,
    memories: &Table<(u32, u32)>,
    memory: &Name,
    when: Operand,
    index: &Operand,
    value: &Calc,
) -> Result<Write, AllocError>
    requires { before ≤ length wires.old }
    ensures wires { OnOk result (wires.new ≡ (low_write memories.now (entries_seen (take before wires.old) facts.now entries.now) memory.now when index.now (term_of value.now) wires.old).wires) }
    ensures write { IfOk result (λ w. w ≡ (low_write memories.now (entries_seen (take before wires.old) facts.now entries.now) memory.now when index.now (term_of value.now) wires.old).write) }
{
    match choice_of(value) {
        Some(choice) => write_choice(
            alloc, wires, entries, facts, before, memories, memory, when, index, &choice,
        ),
        None => {
            let value = lower_calc(alloc, wires, entries, facts, before, memories, value)?;
            Ok(Write {
                when,
                value: value.operand,
            })
        }
    }
}
