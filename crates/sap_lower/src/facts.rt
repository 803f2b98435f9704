//! What is known where a gate isn't 0.

ghost use Rattle.std.specs.Prelude.{◌≡◌, ◌++◌, [], ◌∷◌, IfOk, OnOk, take};
ghost use Rattle.sap_lower.specs.declared.facts.Fact.TheVariants.{IsSet, Equals};
ghost use Rattle.sap_lower.specs.Facts as spec;
ghost use Rattle.sap_lower.specs.Facts.{gate_facts, of_operand, test_facts, tests};

use crate::wires::Wires;
use sap_bits::Op2;
use sap_net::parts::{Name, Operand, Right};
use std::alloc::{AllocError, Global};

/// What is known of an input, a wire or a register.
#[derive(Drop)]
pub enum Fact {
    /// It isn't 0.
    IsSet(Name),
    /// It has this number.
    Equals(Name, u64),
}

/// How many gates around a gate are looked at.
pub const GATES: u32 = 16;

/// How deep a test is taken apart.
pub const TESTS: u32 = 3;

/// Whether an operand is the constant 0.
pub fn is_zero(operand: &Operand) -> bool
    ensures { result ≡ spec.is_zero operand.now }
{
    match operand {
        Operand::Named(_) => false,
        Operand::Constant { value, .. } => *value == 0,
    }
}

fn add_set(alloc: Global, facts: &mut Vec<Fact>, name: &Name) -> Result<(), AllocError>
    ensures { OnOk result (facts.new.items ≡ facts.old.items ++ IsSet name.now ∷ []) }
{
    let name = name.copy(alloc)?;
    facts.push(Fact::IsSet(name))?;
    Ok(())
}

fn add_equals(
    alloc: Global,
    facts: &mut Vec<Fact>,
    name: &Name,
    number: u64,
) -> Result<(), AllocError>
    ensures { OnOk result (facts.new.items ≡ facts.old.items ++ Equals name.now number ∷ []) }
{
    let name = name.copy(alloc)?;
    facts.push(Fact::Equals(name, number))?;
    Ok(())
}

/// What is known where a test isn't 0: that, the operands of a conjunction aren't, and what it compares is the constant.
fn add_test(
    alloc: Global,
    facts: &mut Vec<Fact>,
    wires: &Wires,
    before: usize,
    most: u32,
    test: &Name,
) -> Result<(), AllocError>
    ensures { OnOk result (facts.new.items ≡ facts.old.items ++ test_facts most (take before wires.now) test.now) }
{
    if most == 0 {
        return Ok(());
    }
    add_set(alloc, facts, test)?;
    match wires.right_of(before, test) {
        Some(Right::Two(Op2::And, Operand::Named(a), Operand::Named(b))) => {
            add_test(alloc, facts, wires, before, most - 1, a)?;
            add_test(alloc, facts, wires, before, most - 1, b)
        }
        Some(Right::Two(Op2::Eq, Operand::Named(a), Operand::Constant { value, .. })) => {
            add_equals(alloc, facts, a, *value)
        }
        _ => Ok(()),
    }
}

fn add_operand(
    alloc: Global,
    facts: &mut Vec<Fact>,
    wires: &Wires,
    before: usize,
    test: &Operand,
) -> Result<(), AllocError>
    ensures { OnOk result (facts.new.items ≡ facts.old.items ++ of_operand (test_facts tests (take before wires.now)) test.now) }
{
    match test {
        Operand::Named(name) => add_test(alloc, facts, wires, before, TESTS, name),
        Operand::Constant { .. } => Ok(()),
    }
}

/// What is known where a gate isn't 0: its test isn't, nor is the gate around it.
fn add_gate(
    alloc: Global,
    facts: &mut Vec<Fact>,
    wires: &Wires,
    before: usize,
    most: u32,
    gate: &Operand,
) -> Result<(), AllocError>
    ensures { OnOk result (facts.new.items ≡ facts.old.items ++ gate_facts most (take before wires.now) gate.now) }
{
    if most == 0 {
        return Ok(());
    }
    let Operand::Named(name) = gate else {
        return Ok(());
    };
    match wires.right_of(before, name) {
        Some(Right::Choose(around, test, other)) if is_zero(other) => {
            add_set(alloc, facts, name)?;
            add_operand(alloc, facts, wires, before, test)?;
            add_gate(alloc, facts, wires, before, most - 1, around)
        }
        _ => add_test(alloc, facts, wires, before, TESTS, name),
    }
}

/// What is known where a gate isn't 0.
pub fn facts_of(alloc: Global, wires: &Wires, gate: &Operand) -> Result<Vec<Fact>, AllocError>
    ensures { IfOk result (λ facts. facts.items ≡ spec.facts_of wires.now gate.now) }
{
    let mut facts = Vec::with_capacity(alloc, 2 * GATES as usize)?;
    add_gate(alloc, &mut facts, wires, wires.len(), GATES, gate)?;
    Ok(facts)
}
