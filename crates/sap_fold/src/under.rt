//! What an operand is where a bit is known.

ghost use Rattle.std.specs.Prelude.{◌≡◌, ◌⊎◌, List, IfOk, IfSome};
ghost use Rattle.sap_net.specs.declared.parts.Right.TheVariants as kind;
ghost use Rattle.sap_fold.specs.Seen.{Defines};
ghost use Rattle.sap_fold.specs.Under as spec;

use crate::parts::concat_under;
use crate::rules::{is, same};
use crate::wires::Wires;
use sap_bits::{Op1, Op2};
use sap_net::parts::{Operand, Right, Wire};
use std::alloc::{AllocError, Global};

/// A bit, and the value that it is known to have.
#[derive(Clone, Copy, Drop)]
pub struct Known<'a> {
    pub bit: &'a Operand,
    pub value: bool,
}

/// The right side of the helping wire that an operand names.
pub fn definition<'a>(wires: &'a Wires, operand: &Operand) -> Option<&'a Right>
    ensures { IfSome result (λ r. Defines wires.now.list.items operand.now r.now) }
{
    let Operand::Named(name) = operand else {
        return None;
    };
    let wire = wires.wire(name)?;
    Some(&wire.right)
}

/// A number of one bit.
pub fn number(value: bool) -> Operand
    ensures { result ≡ spec.bit value }
{
    let value = if value { 1 } else { 0 };
    Operand::Constant { width: 1, value }
}

/// The other one of two operands, if one of them is the bit.
pub fn other(
    alloc: Global,
    bit: &Operand,
    a: &Operand,
    b: &Operand,
) -> Result<Option<Operand>, AllocError>
    ensures { IfOk result (λ o. o ≡ spec.other bit.now a.now b.now) }
{
    if same(a, bit) {
        let rest = b.copy(alloc)?;
        Ok(Some(rest))
    } else if same(b, bit) {
        let rest = a.copy(alloc)?;
        Ok(Some(rest))
    } else {
        Ok(None)
    }
}

/// What a choice is, if the known bit is what it chooses by.
fn chosen(
    alloc: Global,
    known: Known<'_>,
    by: &Operand,
    a: &Operand,
    b: &Operand,
) -> Result<Option<Operand>, AllocError>
    ensures { IfOk result (λ o. o ≡ spec.chosen known.entry.bit.now known.entry.value by.now a.now b.now) }
{
    if !same(by, known.bit) {
        return Ok(None);
    }
    let arm = if known.value { a } else { b };
    let arm = arm.copy(alloc)?;
    Ok(Some(arm))
}

/// A bit and another operand under `&` or `|`: the bit's value, where that decides, else the other.
fn decided(value: bool, decides: bool, rest: Option<Operand>) -> Option<Operand>
    ensures { result ≡ spec.decided value decides rest }
{
    match rest {
        Some(rest) => Some(if decides { number(value) } else { rest }),
        None => None,
    }
}

/// What a right side is where a bit is known, if the bit is among its operands.
fn right_under(
    alloc: Global,
    known: Known<'_>,
    right: &Right,
) -> Result<Option<Operand>, AllocError>
    ensures { IfOk result (λ o. o ≡ spec.right_under known.entry.bit.now known.entry.value right.now) }
{
    match right {
        Right::Choose(by, a, b) => chosen(alloc, known, by, a, b),
        Right::Two(Op2::And, a, b) => {
            let rest = other(alloc, known.bit, a, b)?;
            Ok(decided(known.value, !known.value, rest))
        }
        Right::Two(Op2::Or, a, b) => {
            let rest = other(alloc, known.bit, a, b)?;
            Ok(decided(known.value, known.value, rest))
        }
        _ => Ok(None),
    }
}

/// The operand that a wire of this right side is where a bit is known.
fn right_known(
    alloc: Global,
    known: Known<'_>,
    right: &Right,
) -> Result<Option<Operand>, AllocError>
    ensures { IfOk result (λ o. (ws : List Wire) (x : Operand) → Defines ws x right.now → IfSome o (λ p. spec.Under ws known.entry.bit.now (spec.number known.entry.value) x (kind.Copy p))) }
{
    match right {
        Right::Concat(operands) => {
            let whole = concat_under(alloc, known.bit, known.value, operands)?;
            Ok(whole)
        }
        right => {
            let rest = right_under(alloc, known, right)?;
            Ok(rest)
        }
    }
}

/// The operand that an operand is where a bit is known.
fn direct(
    alloc: Global,
    wires: &Wires,
    known: Known<'_>,
    operand: &Operand,
) -> Result<Option<Operand>, AllocError>
    ensures { IfOk result (λ o. IfSome o (λ p. spec.Under wires.now.list.items known.entry.bit.now (spec.number known.entry.value) operand.now (kind.Copy p))) }
{
    if same(operand, known.bit) {
        return Ok(Some(number(known.value)));
    }
    match definition(wires, operand) {
        Some(right) => {
            let rest = right_known(alloc, known, right)?;
            Ok(rest)
        }
        None => Ok(None),
    }
}

/// What a negation is where a bit is known.
fn negation_under(
    alloc: Global,
    wires: &Wires,
    known: Known<'_>,
    operand: &Operand,
) -> Result<Option<Right>, AllocError>
    ensures { IfOk result (λ o. IfSome o (λ r. spec.Under wires.now.list.items known.entry.bit.now (spec.number known.entry.value) operand.now r)) }
{
    let Some(Right::One(Op1::Not, of)) = definition(wires, operand) else {
        return Ok(None);
    };
    match direct(alloc, wires, known, of)? {
        Some(rest) => Ok(Some(Right::One(Op1::Not, rest))),
        None => Ok(None),
    }
}

/// Whether a choice is one between 0 and the bit.
fn is_masked(bit: &Operand, a: &Operand, b: &Operand) -> bool
    ensures { result ≡ spec.is_masked bit.now a.now b.now }
{
    is(a, 0) && same(b, bit)
}

/// What a choice between 0 and the known bit is.
fn masked_right(alloc: Global, value: bool, by: &Operand) -> Result<Right, AllocError>
    ensures { IfOk result (λ r. r ≡ spec.masked_right value by.now) }
{
    if !value {
        return Ok(Right::Copy(number(false)));
    }
    let by = by.copy(alloc)?;
    Ok(Right::One(Op1::Not, by))
}

/// What a choice is where a bit is known, if it is one between 0 and the bit.
fn choice_under(
    alloc: Global,
    wires: &Wires,
    known: Known<'_>,
    operand: &Operand,
) -> Result<Option<Right>, AllocError>
    ensures { IfOk result (λ o. IfSome o (λ r. spec.Under wires.now.list.items known.entry.bit.now (spec.number known.entry.value) operand.now r)) }
{
    let Some(Right::Choose(by, a, b)) = definition(wires, operand) else {
        return Ok(None);
    };
    if is_masked(known.bit, a, b) {
        let right = masked_right(alloc, known.value, by)?;
        return Ok(Some(right));
    }
    Ok(None)
}

/// What an operand is where a bit is known, by the operand's right side.
fn found(
    alloc: Global,
    wires: &Wires,
    known: Known<'_>,
    operand: &Operand,
) -> Result<Option<Right>, AllocError>
    ensures { IfOk result (λ o. IfSome o (λ r. spec.Under wires.now.list.items known.entry.bit.now (spec.number known.entry.value) operand.now r)) }
{
    if let Some(right) = negation_under(alloc, wires, known, operand)? {
        return Ok(Some(right));
    }
    if let Some(operand) = direct(alloc, wires, known, operand)? {
        return Ok(Some(Right::Copy(operand)));
    }
    choice_under(alloc, wires, known, operand)
}

/// Whether both operands have the value that an operator of one bit has.
fn tells(op: Op2, value: bool) -> bool
    ensures { result ≡ spec.tells op value }
{
    match op {
        Op2::And => value,
        Op2::Or => !value,
        _ => false,
    }
}

/// Whether a choice between bits has the value by its second arm alone, as the first is 0.
fn only_second(value: bool, a: &Operand) -> bool
    ensures { result ≡ spec.only_second value a.now }
{
    value && is(a, 0)
}

/// Whether a choice between bits has the value by its first arm alone, as the second is 1.
fn only_first(value: bool, b: &Operand) -> bool
    ensures { result ≡ spec.only_first value b.now }
{
    !value && is(b, 1)
}

/// What an operand is where each of two bits is known.
fn either(
    alloc: Global,
    wires: &Wires,
    first: Known<'_>,
    second: Known<'_>,
    operand: &Operand,
) -> Result<Option<Right>, AllocError>
    ensures { IfOk result (λ o. IfSome o (λ r. spec.Under wires.now.list.items first.entry.bit.now (spec.number first.entry.value) operand.now r ⊎ spec.Under wires.now.list.items second.entry.bit.now (spec.number second.entry.value) operand.now r)) }
{
    if let Some(right) = found(alloc, wires, first, operand)? {
        return Ok(Some(right));
    }
    match found(alloc, wires, second, operand)? {
        Some(right) => Ok(Some(right)),
        None => Ok(None),
    }
}

/// What an operand is where a wire of this right side is known, if that is a choice between bits and tells which arm it is.
fn caused_by_choice(
    alloc: Global,
    wires: &Wires,
    right: &Right,
    value: bool,
    operand: &Operand,
) -> Result<Option<Right>, AllocError>
    ensures { IfOk result (λ o. (c : Operand) → Defines wires.now.list.items c right.now → IfSome o (λ r. spec.Under wires.now.list.items c (spec.number value) operand.now r)) }
{
    let Right::Choose(by, a, b) = right else {
        return Ok(None);
    };
    if only_second(value, a) {
        let condition = Known {
            bit: by,
            value: false,
        };
        let arm = Known {
            bit: b,
            value: true,
        };
        let second = either(alloc, wires, condition, arm, operand)?;
        return Ok(second);
    }
    if only_first(value, b) {
        let condition = Known {
            bit: by,
            value: true,
        };
        let arm = Known {
            bit: a,
            value: false,
        };
        let first = either(alloc, wires, condition, arm, operand)?;
        return Ok(first);
    }
    Ok(None)
}

/// What an operand is where a bit is known, by the bit's right side.
fn caused(
    alloc: Global,
    wires: &Wires,
    known: Known<'_>,
    operand: &Operand,
) -> Result<Option<Right>, AllocError>
    ensures { IfOk result (λ o. IfSome o (λ r. spec.Under wires.now.list.items known.entry.bit.now (spec.number known.entry.value) operand.now r)) }
{
    let Some(right) = definition(wires, known.bit) else {
        return Ok(None);
    };
    let value = known.value;
    match right {
        Right::One(Op1::Not, of) => {
            let negated = Known {
                bit: of,
                value: !value,
            };
            let told = found(alloc, wires, negated, operand)?;
            Ok(told)
        }
        Right::Two(op, a, b) if tells(*op, value) => {
            let first = Known { bit: a, value };
            let second = Known { bit: b, value };
            let both = either(alloc, wires, first, second, operand)?;
            Ok(both)
        }
        Right::Choose(..) => {
            let told = caused_by_choice(alloc, wires, right, value, operand)?;
            Ok(told)
        }
        _ => Ok(None),
    }
}

/// What an operand is where a bit is known, if the wires tell anything simpler than the operand.
pub fn under(
    alloc: Global,
    wires: &Wires,
    known: Known<'_>,
    operand: &Operand,
) -> Result<Option<Right>, AllocError>
    ensures { IfOk result (λ o. IfSome o (λ r. spec.Under wires.now.list.items known.entry.bit.now (spec.number known.entry.value) operand.now r)) }
{
    if let Some(right) = found(alloc, wires, known, operand)? {
        return Ok(Some(right));
    }
    caused(alloc, wires, known, operand)
}
