//! Comparisons of an operand with `|` of it and another.

ghost use Rattle.std.specs.Prelude.{IfOk, IfSome, OnOk, ℕ};
ghost use Rattle.sap_bits.specs.declared.Op2.TheVariants as two;
ghost use Rattle.sap_net.specs.declared.parts.Right.TheVariants as right;
ghost use Rattle.sap_fold.specs.Equals.{Equals};
ghost use Rattle.sap_fold.specs.Gives.{Becomes};
ghost use Rattle.sap_share.specs.Sets.{holds};
ghost use Rattle.sap_fold.specs.Order as spec;
ghost use Rattle.sap_fold.specs.Settled.{Orderly};

use crate::rules::fits;
use crate::under::{definition, other};
use crate::wires::Wires;
use sap_bits::{Op1, Op2, mask};
use sap_net::parts::{Name, Operand, Right};
use sap_share::name_set::NameSet;
use std::alloc::{AllocError, Global};

/// The place of the one bit that is 0 in a number, if there is just one.
fn gap(operand: &Operand) -> Option<u32>
    ensures { IfSome result (λ k. spec.HasGap operand.now k) }
{
    let Operand::Constant { width, value } = operand else {
        return None;
    };
    if !fits(*width, *value) {
        return None;
    }
    for place in 0..*width {
        if mask(*width) - *value == 1 << place {
            return Some(place);
        }
    }
    None
}

/// The other operand of a wire that is `|` of one and that.
fn joined_with(
    alloc: Global,
    wires: &Wires,
    one: &Operand,
    wire: &Operand,
) -> Result<Option<Operand>, AllocError>
    ensures { IfOk result (λ o. IfSome o (λ p. spec.JoinedWith wires.now.list.items one.now wire.now p)) }
{
    match definition(wires, wire) {
        Some(Right::Two(Op2::Or, a, b)) => {
            let rest = other(alloc, one, a, b)?;
            Ok(rest)
        }
        _ => Ok(None),
    }
}

/// A bit of what a name stands for.
#[derive(Drop)]
struct Bit {
    name: Name,
    place: u32,
}

/// The bit that is 0 just where the wire is equal to the number, if it is `|` of that and something, and only that bit of the number is 0.
fn asked_bit(
    alloc: Global,
    wires: &Wires,
    number: &Operand,
    wire: &Operand,
) -> Result<Option<Bit>, AllocError>
    ensures { IfOk result (λ o. IfSome o (λ b. spec.AsksBit wires.now.list.items number.now wire.now b.name b.place)) }
{
    let Some(place) = gap(number) else {
        return Ok(None);
    };
    match joined_with(alloc, wires, number, wire)? {
        Some(Operand::Named(name)) => Ok(Some(Bit { name, place })),
        _ => Ok(None),
    }
}

/// Such a bit of two operands, either of which may be the number.
fn either_bit(
    alloc: Global,
    wires: &Wires,
    a: &Operand,
    b: &Operand,
) -> Result<Option<Bit>, AllocError>
    ensures { IfOk result (λ o. IfSome o (λ x. spec.EitherAsks wires.now.list.items a.now b.now x.name x.place)) }
{
    if let Some(bit) = asked_bit(alloc, wires, a, b)? {
        return Ok(Some(bit));
    }
    match asked_bit(alloc, wires, b, a)? {
        Some(bit) => Ok(Some(bit)),
        None => Ok(None),
    }
}

/// Whether an operand names a wire of one bit.
fn is_bit_wire(wires: &Wires, operand: &Operand) -> bool
    ensures { spec.IsBitWire wires.now.list.items operand.now result }
{
    let Operand::Named(name) = operand else {
        return false;
    };
    match wires.wire(name) {
        Some(wire) => wire.width == 1,
        None => false,
    }
}

/// The bit that a wire of one bit is `|` of a bit and, if it is.
fn bit_beside(
    alloc: Global,
    wires: &Wires,
    one: &Operand,
    wire: &Operand,
) -> Result<Option<Operand>, AllocError>
    ensures { IfOk result (λ o. IfSome o (λ p. spec.BitBeside wires.now.list.items one.now wire.now p)) }
{
    if !is_bit_wire(wires, wire) {
        return Ok(None);
    }
    let rest = joined_with(alloc, wires, one, wire)?;
    Ok(rest)
}

/// `==` of two operands, as an order of bits if one is `|` of the other.
fn ordered_equal(alloc: Global, wires: &Wires, a: Operand, b: Operand) -> Result<Right, AllocError>
    ensures { IfOk result (λ r. (u : ℕ) → Equals wires.now.list.items u (right.Two two.Eq a b) r) }
{
    if let Some(rest) = bit_beside(alloc, wires, &a, &b)? {
        return Ok(Right::Two(Op2::Le, rest, a));
    }
    match bit_beside(alloc, wires, &b, &a)? {
        Some(rest) => Ok(Right::Two(Op2::Le, rest, b)),
        None => Ok(Right::Two(Op2::Eq, a, b)),
    }
}

/// `!=` of two operands, as an order of bits if one is `|` of the other.
fn ordered_unequal(
    alloc: Global,
    wires: &Wires,
    a: Operand,
    b: Operand,
) -> Result<Right, AllocError>
    ensures { IfOk result (λ r. (u : ℕ) → Equals wires.now.list.items u (right.Two two.Ne a b) r) }
{
    if let Some(rest) = bit_beside(alloc, wires, &a, &b)? {
        return Ok(Right::Two(Op2::Lt, a, rest));
    }
    match bit_beside(alloc, wires, &b, &a)? {
        Some(rest) => Ok(Right::Two(Op2::Lt, b, rest)),
        None => Ok(Right::Two(Op2::Ne, a, b)),
    }
}

/// `!=` of two operands, as a bit if it is just one.
pub fn see_unequal(
    alloc: Global,
    wires: &Wires,
    a: Operand,
    b: Operand,
) -> Result<Right, AllocError>
    ensures { IfOk result (λ r. (u : ℕ) → Equals wires.now.list.items u (right.Two two.Ne a b) r) }
{
    match either_bit(alloc, wires, &a, &b)? {
        Some(bit) => Ok(Right::Slice {
            name: bit.name,
            hi: bit.place,
            lo: bit.place,
        }),
        None => {
            let seen = ordered_unequal(alloc, wires, a, b)?;
            Ok(seen)
        }
    }
}

/// `==` of two operands, as the negation of a bit if it is just one.
pub fn see_equal(
    alloc: Global,
    wires: &mut Wires,
    taken: &NameSet,
    width: u32,
    a: Operand,
    b: Operand,
) -> Result<Right, AllocError>
    requires { Orderly wires.old.numbers wires.old.list.items }
    ensures orderly { OnOk result (Orderly wires.new.numbers wires.new.list.items) }
    ensures becomes { IfOk result (λ r. Becomes (holds taken.now) wires.old.list.items wires.old.next width (right.Two two.Eq a b) r wires.new.list.items wires.new.next) }
{
    match either_bit(alloc, wires, &a, &b)? {
        Some(bit) => {
            let slice = Right::Slice {
                name: bit.name,
                hi: bit.place,
                lo: bit.place,
            };
            let operand = wires.provide(alloc, taken, 1, slice)?;
            Ok(Right::One(Op1::Not, operand))
        }
        None => {
            let seen = ordered_equal(alloc, wires, a, b)?;
            Ok(seen)
        }
    }
}
