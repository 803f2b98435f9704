//! Rules that look at the right sides of the helping wires that are read.

ghost use Rattle.std.specs.Prelude.{◌≡◌, IfOk, IfSome, OnOk, ℕ};
ghost use Rattle.sap_bits.specs.declared.Op1.TheVariants as one;
ghost use Rattle.sap_net.specs.declared.parts.Right.TheVariants as right;
ghost use Rattle.sap_fold.specs.Equals.{Equals};
ghost use Rattle.sap_fold.specs.Gives.{ArmGives, Becomes};
ghost use Rattle.sap_share.specs.Sets.{holds};
ghost use Rattle.sap_fold.specs.Seen.{Defines};
ghost use Rattle.sap_fold.specs.Under as spec;
ghost use Rattle.sap_fold.specs.Settled.{Orderly};

use crate::absorb::absorb;
use crate::fold::fold;
use crate::order::{see_equal, see_unequal};
use crate::parts::see_concat;
use crate::rules::is;
use crate::slices::see_slice;
use crate::under::{Known, definition, number, under};
use crate::wires::Wires;
use sap_bits::{Op1, Op2};
use sap_net::parts::{Operand, Right};
use sap_share::name_set::NameSet;
use std::alloc::{AllocError, Global};

/// What an operand is the negation of.
fn negated(alloc: Global, wires: &Wires, operand: &Operand) -> Result<Option<Operand>, AllocError>
    ensures { IfOk result (λ o. IfSome o (λ d. Defines wires.now.list.items operand.now (right.One one.Not d))) }
{
    let Some(Right::One(Op1::Not, of)) = definition(wires, operand) else {
        return Ok(None);
    };
    let of = of.copy(alloc)?;
    Ok(Some(of))
}

/// A negation of no negation.
fn see_not(alloc: Global, wires: &Wires, a: Operand) -> Result<Right, AllocError>
    ensures { IfOk result (λ r. (u : ℕ) → Equals wires.now.list.items u (right.One one.Not a) r) }
{
    match negated(alloc, wires, &a)? {
        Some(of) => Ok(Right::Copy(of)),
        None => Ok(Right::One(Op1::Not, a)),
    }
}

/// A right side that is a copy or a negation, simpler where it is a negation.
fn plain(alloc: Global, wires: &Wires, width: u32, given: Right) -> Result<Right, AllocError>
    ensures { IfOk result (λ r. Equals wires.now.list.items width given r) }
{
    match given {
        Right::One(Op1::Not, a) => {
            let seen = see_not(alloc, wires, a)?;
            Ok(fold(width, seen))
        }
        given => Ok(given),
    }
}

/// What an operand of this width is where a bit is known: itself, or something simpler.
fn arm(
    alloc: Global,
    wires: &mut Wires,
    taken: &NameSet,
    width: u32,
    known: Known<'_>,
    operand: Operand,
) -> Result<Operand, AllocError>
    requires { Orderly wires.old.numbers wires.old.list.items }
    ensures orderly { OnOk result (Orderly wires.new.numbers wires.new.list.items) }
    ensures arm { IfOk result (λ p. ArmGives (holds taken.now) wires.old.list.items wires.old.next width known.entry.bit.now (spec.number known.entry.value) operand p wires.new.list.items wires.new.next) }
{
    match under(alloc, wires, known, &operand)? {
        Some(right) => {
            let simple = plain(alloc, wires, width, right)?;
            let provided = wires.provide(alloc, taken, width, simple)?;
            Ok(provided)
        }
        None => Ok(operand),
    }
}

/// The choice `condition ? when_one : when_zero`.
#[derive(Drop)]
struct Choice {
    condition: Operand,
    when_one: Operand,
    when_zero: Operand,
}

/// A choice whose condition is simple where it counts: of one between 0 and a bit that is where the bit is 1.
fn see_condition(
    alloc: Global,
    wires: &mut Wires,
    taken: &NameSet,
    width: u32,
    choice: Choice,
) -> Result<Choice, AllocError>
    requires { Orderly wires.old.numbers wires.old.list.items }
    ensures orderly { OnOk result (Orderly wires.new.numbers wires.new.list.items) }
    ensures becomes { IfOk result (λ c. Becomes (holds taken.now) wires.old.list.items wires.old.next width (right.Choose choice.condition choice.when_one choice.when_zero) (right.Choose c.condition c.when_one c.when_zero) wires.new.list.items wires.new.next) }
{
    if width == 1 && is(&choice.when_one, 0) {
        let Choice {
            condition,
            when_one,
            when_zero,
        } = choice;
        let known = Known {
            bit: &when_zero,
            value: true,
        };
        let condition = arm(alloc, wires, taken, width, known, condition)?;
        return Ok(Choice {
            condition,
            when_one,
            when_zero,
        });
    }
    Ok(choice)
}

/// A choice whose condition is simple where it counts, and whose arms are where the condition is known.
fn see_arms(
    alloc: Global,
    wires: &mut Wires,
    taken: &NameSet,
    width: u32,
    choice: Choice,
) -> Result<Right, AllocError>
    requires { Orderly wires.old.numbers wires.old.list.items }
    ensures orderly { OnOk result (Orderly wires.new.numbers wires.new.list.items) }
    ensures becomes { IfOk result (λ r. Becomes (holds taken.now) wires.old.list.items wires.old.next width (right.Choose choice.condition choice.when_one choice.when_zero) r wires.new.list.items wires.new.next) }
{
    let choice = see_condition(alloc, wires, taken, width, choice)?;
    let Choice {
        condition,
        when_one,
        when_zero,
    } = choice;
    let one = Known {
        bit: &condition,
        value: true,
    };
    let when_one = arm(alloc, wires, taken, width, one, when_one)?;
    let zero = Known {
        bit: &condition,
        value: false,
    };
    let when_zero = arm(alloc, wires, taken, width, zero, when_zero)?;
    Ok(Right::Choose(condition, when_one, when_zero))
}

/// A choice by no negation.
fn see_choice(
    alloc: Global,
    wires: &mut Wires,
    taken: &NameSet,
    width: u32,
    choice: Choice,
) -> Result<Right, AllocError>
    requires { Orderly wires.old.numbers wires.old.list.items }
    ensures orderly { OnOk result (Orderly wires.new.numbers wires.new.list.items) }
    ensures becomes { IfOk result (λ r. Becomes (holds taken.now) wires.old.list.items wires.old.next width (right.Choose choice.condition choice.when_one choice.when_zero) r wires.new.list.items wires.new.next) }
{
    match negated(alloc, wires, &choice.condition)? {
        Some(of) => {
            let swapped = Choice {
                condition: of,
                when_one: choice.when_zero,
                when_zero: choice.when_one,
            };
            let turned = see_arms(alloc, wires, taken, width, swapped)?;
            Ok(turned)
        }
        None => {
            let seen = see_arms(alloc, wires, taken, width, choice)?;
            Ok(seen)
        }
    }
}

fn is_and(op: Op2) -> bool
    ensures { result ≡ spec.is_and op }
{
    matches!(op, Op2::And)
}

/// `&` of the negation of a bit and another, as a choice by the bit; `|` with the negation in front.
fn chosen_by(op: Op2, negation: Operand, bit: Operand, other: Operand) -> Right
    ensures { result ≡ spec.chosen_by op negation bit other }
{
    match op {
        Op2::And => Right::Choose(bit, number(false), other),
        _ => Right::Two(op, negation, other),
    }
}

/// An operator between two operands.
#[derive(Drop)]
struct Two {
    op: Op2,
    a: Operand,
    b: Operand,
}

/// `&` or `|` of two bits, `&` as a choice by a bit that one of them is the negation of.
fn see_negated(alloc: Global, wires: &Wires, two: Two) -> Result<Right, AllocError>
    requires { spec.IsBitwise two.op }
    ensures { IfOk result (λ r. Equals wires.now.list.items 1 (right.Two two.op two.a two.b) r) }
{
    if let Some(bit) = negated(alloc, wires, &two.a)? {
        return Ok(chosen_by(two.op, two.a, bit, two.b));
    }
    match negated(alloc, wires, &two.b)? {
        Some(bit) => Ok(chosen_by(two.op, two.b, bit, two.a)),
        None => Ok(Right::Two(two.op, two.a, two.b)),
    }
}

/// The `&` or `|` of two bits, each simple where the other doesn't decide.
fn see_bits(
    alloc: Global,
    wires: &mut Wires,
    taken: &NameSet,
    two: Two,
) -> Result<Right, AllocError>
    requires orderly { Orderly wires.old.numbers wires.old.list.items }
    requires bits { spec.IsBitwise two.op }
    ensures orderly { OnOk result (Orderly wires.new.numbers wires.new.list.items) }
    ensures becomes { IfOk result (λ r. Becomes (holds taken.now) wires.old.list.items wires.old.next 1 (right.Two two.op two.a two.b) r wires.new.list.items wires.new.next) }
{
    let Two { op, a, b } = two;
    let value = is_and(op);
    let b = arm(alloc, wires, taken, 1, Known { bit: &a, value }, b)?;
    let a = arm(alloc, wires, taken, 1, Known { bit: &b, value }, a)?;
    let seen = see_negated(alloc, wires, Two { op, a, b })?;
    Ok(seen)
}

/// `&` or `|`, simpler where the wires that the operands name tell.
fn see_both(
    alloc: Global,
    wires: &mut Wires,
    taken: &NameSet,
    width: u32,
    two: Two,
) -> Result<Right, AllocError>
    requires orderly { Orderly wires.old.numbers wires.old.list.items }
    requires bits { spec.IsBitwise two.op }
    ensures orderly { OnOk result (Orderly wires.new.numbers wires.new.list.items) }
    ensures becomes { IfOk result (λ r. Becomes (holds taken.now) wires.old.list.items wires.old.next width (right.Two two.op two.a two.b) r wires.new.list.items wires.new.next) }
{
    if width != 1 {
        return Ok(absorb(wires, two.op, two.a, two.b));
    }
    let seen = see_bits(alloc, wires, taken, two)?;
    Ok(seen)
}

/// An operator on two operands, simpler where the wires that they name tell.
fn see_two(
    alloc: Global,
    wires: &mut Wires,
    taken: &NameSet,
    width: u32,
    two: Two,
) -> Result<Right, AllocError>
    requires { Orderly wires.old.numbers wires.old.list.items }
    ensures orderly { OnOk result (Orderly wires.new.numbers wires.new.list.items) }
    ensures becomes { IfOk result (λ r. Becomes (holds taken.now) wires.old.list.items wires.old.next width (right.Two two.op two.a two.b) r wires.new.list.items wires.new.next) }
{
    match two.op {
        Op2::And | Op2::Or => see_both(alloc, wires, taken, width, two),
        Op2::Eq => see_equal(alloc, wires, taken, width, two.a, two.b),
        Op2::Ne => {
            let seen = see_unequal(alloc, wires, two.a, two.b)?;
            Ok(seen)
        }
        _ => Ok(Right::Two(two.op, two.a, two.b)),
    }
}

/// A right side of equal value, simpler where the wires that it reads tell.
pub fn see(
    alloc: Global,
    wires: &mut Wires,
    taken: &NameSet,
    width: u32,
    given: Right,
) -> Result<Right, AllocError>
    requires { Orderly wires.old.numbers wires.old.list.items }
    ensures orderly { OnOk result (Orderly wires.new.numbers wires.new.list.items) }
    ensures becomes { IfOk result (λ r. Becomes (holds taken.now) wires.old.list.items wires.old.next width given r wires.new.list.items wires.new.next) }
{
    match given {
        Right::One(Op1::Not, a) => {
            let seen = see_not(alloc, wires, a)?;
            Ok(seen)
        }
        Right::Two(op, a, b) => see_two(alloc, wires, taken, width, Two { op, a, b }),
        Right::Choose(condition, when_one, when_zero) => {
            let choice = Choice {
                condition,
                when_one,
                when_zero,
            };
            see_choice(alloc, wires, taken, width, choice)
        }
        Right::Slice { name, hi, lo } => {
            let seen = see_slice(alloc, wires, name, hi, lo)?;
            Ok(seen)
        }
        Right::Concat(operands) => {
            let seen = see_concat(alloc, operands)?;
            Ok(seen)
        }
        given => Ok(given),
    }
}
