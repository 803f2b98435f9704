//! Parts of concatenations, where a bit may be known, numbers joined with those beside them.

ghost use Rattle.std.specs.Prelude.{◌≡◌, ◌<◌, ◌≤◌, IfOk, IfSome, List, OnOk, ℕ};
ghost use Rattle.sap_net.specs.declared.parts.Right.TheVariants as kind;
ghost use Rattle.sap_fold.specs.Equals.{Equals};
ghost use Rattle.sap_fold.specs.Parts as spec;
ghost use Rattle.sap_fold.specs.Under as known;

use crate::rules::{fits, same};
use crate::under::number;
use sap_bits::concat;
use sap_net::parts::{Operand, Operands, Right, Wire};
use std::alloc::{AllocError, Global};

/// Two numbers as one, the first in front.
fn glued(a: &Operand, b: &Operand) -> Option<Operand>
    ensures { IfSome result (λ o. spec.Glues a.now b.now o) }
{
    let Operand::Constant { width, value } = a else {
        return None;
    };
    let Operand::Constant {
        width: width_behind,
        value: behind,
    } = b
    else {
        return None;
    };
    if !fits(*width, *value) || !fits(*width_behind, *behind) || *width + *width_behind > 64 {
        return None;
    }
    Some(Operand::Constant {
        width: *width + *width_behind,
        value: concat(*value, *width_behind, *behind),
    })
}

/// One more part behind the others, joined with the last one where both are numbers.
fn add_part(parts: &mut Vec<Operand>, part: Operand) -> Result<(), AllocError>
    ensures { OnOk result (spec.AddsPart parts.old.items part parts.new.items) }
{
    let Some(last) = parts.pop() else {
        parts.push(part)?;
        return Ok(());
    };
    match glued(&last, &part) {
        Some(both) => parts.push(both)?,
        None => {
            parts.push(last)?;
            parts.push(part)?;
        }
    }
    Ok(())
}

/// An operand, or the value of the bit if it is that.
fn put(alloc: Global, bit: &Operand, value: bool, operand: &Operand) -> Result<Operand, AllocError>
    ensures { IfOk result (λ o. o ≡ spec.put bit.now value operand.now) }
{
    if same(operand, bit) {
        Ok(number(value))
    } else {
        operand.copy(alloc)
    }
}

/// The parts of a concatenation where a bit is known.
fn parts_under(
    alloc: Global,
    bit: &Operand,
    value: bool,
    operands: &[Operand],
) -> Result<Vec<Operand>, AllocError>
    ensures { IfOk result (λ ps. spec.SameParts bit.now (known.number value) operands.now ps.items) }
{
    let mut parts = Vec::new(alloc);
    for operand in operands {
        let part = put(alloc, bit, value, operand)?;
        add_part(&mut parts, part)?;
    }
    Ok(parts)
}

/// The one operand that a concatenation is where a bit is known, if all others go into it.
pub fn concat_under(
    alloc: Global,
    bit: &Operand,
    value: bool,
    operands: &Operands,
) -> Result<Option<Operand>, AllocError>
    ensures { IfOk result (λ o. IfSome o (λ p. spec.Whole bit.now (known.number value) operands.now p)) }
{
    let mut parts = parts_under(alloc, bit, value, operands.as_slice())?;
    if parts.len() != 1 {
        return Ok(None);
    }
    Ok(parts.pop())
}

/// A concatenation with no two numbers beside one another: a copy, if that leaves one part.
pub fn see_concat(alloc: Global, operands: Operands) -> Result<Right, AllocError>
    ensures { IfOk result (λ r. (ws : List Wire) (u : ℕ) → Equals ws u (kind.Concat operands) r) }
{
    let zero = number(false);
    let mut parts = parts_under(alloc, &zero, false, operands.as_slice())?;
    if parts.len() >= 2 {
        return Ok(Right::Concat(Operands::new(parts)));
    }
    match parts.pop() {
        Some(part) => Ok(Right::Copy(part)),
        None => Ok(Right::Concat(operands)),
    }
}

/// The bit of a choice between two bits: theirs, where they are equal, or the condition, where only the first is 1.
fn bit_between(
    alloc: Global,
    condition: &Operand,
    a: bool,
    b: bool,
) -> Result<Option<Operand>, AllocError>
    ensures { IfOk result (λ o. o ≡ spec.between condition.now a b) }
{
    if a == b {
        Ok(Some(number(a)))
    } else if a {
        let copy = condition.copy(alloc)?;
        Ok(Some(copy))
    } else {
        Ok(None)
    }
}

fn bit_at(number: u64, place: u32) -> bool
    requires { place < 64 }
    ensures { result ≡ spec.bit_test number place }
{
    (number >> place) & 1 == 1
}

/// The bits of a choice between two numbers, if none is 1 in the second alone.
fn bits_between(
    alloc: Global,
    width: u32,
    condition: &Operand,
    a: u64,
    b: u64,
) -> Result<Option<Vec<Operand>>, AllocError>
    requires { width ≤ 64 }
    ensures { IfOk result (λ o. IfSome o (λ ps. spec.Between condition.now 0 width a b ps.items)) }
{
    let mut parts = Vec::new(alloc);
    let mut place = width;
    while place > 0 {
        place -= 1;
        let between = bit_between(alloc, condition, bit_at(a, place), bit_at(b, place))?;
        let Some(part) = between else {
            return Ok(None);
        };
        add_part(&mut parts, part)?;
    }
    Ok(Some(parts))
}

/// The number that an operand is.
fn number_in(operand: &Operand) -> Option<u64>
    ensures { result ≡ spec.number_in operand.now }
{
    match operand {
        Operand::Named(_) => None,
        Operand::Constant { value, .. } => Some(*value),
    }
}

/// A choice between two numbers, as its bits if they can be had.
fn spread_choice(
    alloc: Global,
    width: u32,
    condition: Operand,
    a: Operand,
    b: Operand,
) -> Result<Right, AllocError>
    ensures { IfOk result (λ r. (ws : List Wire) → Equals ws width (kind.Choose condition a b) r) }
{
    let (Some(first), Some(second)) = (number_in(&a), number_in(&b)) else {
        return Ok(Right::Choose(condition, a, b));
    };
    if width > 64 {
        return Ok(Right::Choose(condition, a, b));
    }
    let bits = bits_between(alloc, width, &condition, first, second)?;
    let Some(parts) = bits else {
        return Ok(Right::Choose(condition, a, b));
    };
    if parts.len() < 2 {
        return Ok(Right::Choose(condition, a, b));
    }
    Ok(Right::Concat(Operands::new(parts)))
}

/// A right side, as its bits if it is a choice between two numbers and they can be had.
pub fn spread(alloc: Global, width: u32, given: Right) -> Result<Right, AllocError>
    ensures { IfOk result (λ r. (ws : List Wire) → Equals ws width given r) }
{
    match given {
        Right::Choose(condition, a, b) => {
            let bits = spread_choice(alloc, width, condition, a, b)?;
            Ok(bits)
        }
        given => Ok(given),
    }
}
