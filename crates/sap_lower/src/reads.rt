//! What an operand is where some facts hold.

ghost use Rattle.std.specs.Prelude.{◌≡◌, take};
ghost use Rattle.sap_lower.specs.Reads as spec;
ghost use Rattle.sap_lower.specs.Reads.{excluded, of_name, opened, seen_through, test_denied};
ghost use Rattle.sap_lower.specs.Facts.{tests};

use crate::facts::{Fact, GATES, TESTS, is_zero};
use crate::wires::Wires;
use sap_bits::Op2;
use sap_net::parts::{Name, Operand, Right};

/// How many choices an operand is looked through.
pub const CHOICES: u32 = 64;

/// Whether a fact says that the name isn't 0.
fn sets(name: &Name, fact: &Fact) -> bool
    ensures { result ≡ spec.sets name.now fact.now }
{
    match fact {
        Fact::IsSet(other) => other.same(name),
        Fact::Equals(other, number) => *number != 0 && other.same(name),
    }
}

/// Whether a fact says that the name is 0.
fn clears(name: &Name, fact: &Fact) -> bool
    ensures { result ≡ spec.clears name.now fact.now }
{
    match fact {
        Fact::IsSet(_) => false,
        Fact::Equals(other, number) => *number == 0 && other.same(name),
    }
}

/// Whether a fact says that the name doesn't have the number.
fn differs(name: &Name, number: u64, fact: &Fact) -> bool
    ensures { result ≡ spec.differs name.now number fact.now }
{
    match fact {
        Fact::IsSet(other) => number == 0 && other.same(name),
        Fact::Equals(other, other_number) => *other_number != number && other.same(name),
    }
}

fn is_set(facts: &[Fact], name: &Name) -> bool
    ensures { result ≡ spec.is_set facts.now name.now }
{
    facts.iter().any(|fact| sets(name, fact))
}

fn is_clear(facts: &[Fact], name: &Name) -> bool
    ensures { result ≡ spec.is_clear facts.now name.now }
{
    facts.iter().any(|fact| clears(name, fact))
}

fn is_other(facts: &[Fact], name: &Name, number: u64) -> bool
    ensures { result ≡ spec.is_other facts.now name.now number }
{
    facts.iter().any(|fact| differs(name, number, fact))
}

/// Whether a test is 0 where these facts hold.
fn denies_test(facts: &[Fact], wires: &Wires, before: usize, most: u32, test: &Name) -> bool
    ensures { result ≡ test_denied most (take before wires.now) facts.now test.now }
{
    if most == 0 {
        return false;
    }
    if is_clear(facts, test) {
        return true;
    }
    match wires.right_of(before, test) {
        Some(Right::Two(Op2::And, Operand::Named(a), Operand::Named(b))) => {
            denies_test(facts, wires, before, most - 1, a)
                || denies_test(facts, wires, before, most - 1, b)
        }
        Some(Right::Two(Op2::Eq, Operand::Named(a), Operand::Constant { value, .. })) => {
            is_other(facts, a, *value)
        }
        _ => false,
    }
}

fn denies_operand(facts: &[Fact], wires: &Wires, before: usize, test: &Operand) -> bool
    ensures { result ≡ of_name (test_denied tests (take before wires.now) facts.now) test.now }
{
    match test {
        Operand::Named(name) => denies_test(facts, wires, before, TESTS, name),
        Operand::Constant { .. } => false,
    }
}

/// Whether an operand is known not to be 0 by itself: a number, or because the facts say so.
fn is_nonzero(facts: &[Fact], operand: &Operand) -> bool
    ensures { result ≡ spec.nonzero facts.now operand.now }
{
    match operand {
        Operand::Named(name) => is_set(facts, name),
        Operand::Constant { value, .. } => *value != 0,
    }
}

/// Whether a gate is known not to be 0: the facts say so, or its test is not and the gate around it is open.
#[tactic(auto, unfolding(crate::specs::Reads::opened))]
fn opens(facts: &[Fact], wires: &Wires, before: usize, most: u32, gate: &Operand) -> bool
    ensures { result ≡ opened most (take before wires.now) facts.now gate.now }
{
    if most == 0 {
        return false;
    }
    if is_nonzero(facts, gate) {
        return true;
    }
    let Operand::Named(name) = gate else {
        return false;
    };
    match wires.right_of(before, name) {
        Some(Right::Choose(around, test, _)) => {
            is_nonzero(facts, test) && opens(facts, wires, before, most - 1, around)
        }
        _ => false,
    }
}

/// Whether a gate is 0 where these facts hold.
fn excludes(facts: &[Fact], wires: &Wires, before: usize, most: u32, gate: &Operand) -> bool
    ensures { result ≡ excluded most (take before wires.now) facts.now gate.now }
{
    if most == 0 {
        return false;
    }
    let Operand::Named(name) = gate else {
        return false;
    };
    if is_set(facts, name) {
        return false;
    }
    match wires.right_of(before, name) {
        Some(Right::Choose(around, test, other)) if is_zero(other) => {
            is_clear(facts, name)
                || denies_operand(facts, wires, before, test)
                || excludes(facts, wires, before, most - 1, around)
        }
        _ => denies_test(facts, wires, before, TESTS, name),
    }
}

/// What an operand is where these facts hold: of choices whose condition they decide, the part that is chosen.
pub fn seen<'a>(
    facts: &[Fact],
    wires: &'a Wires,
    before: usize,
    most: u32,
    operand: &'a Operand,
) -> &'a Operand
    ensures { result.now ≡ seen_through most (take before wires.now) facts.now operand.now }
{
    if most == 0 {
        return operand;
    }
    let Operand::Named(name) = operand else {
        return operand;
    };
    match wires.right_of(before, name) {
        Some(Right::Choose(condition, new, old)) => {
            if opens(facts, wires, before, GATES, condition) {
                seen(facts, wires, before, most - 1, new)
            } else if excludes(facts, wires, before, GATES, condition) {
                seen(facts, wires, before, most - 1, old)
            } else {
                operand
            }
        }
        _ => operand,
    }
}
