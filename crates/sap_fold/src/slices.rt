//! Slices of helping wires.

ghost use Rattle.std.specs.Prelude.{◌≡◌, ◌+◌, ◌<◌, IfOk, IfSome, ℕ};
ghost use Rattle.sap_net.specs.declared.parts.Right.TheVariants as kind;
ghost use Rattle.sap_fold.specs.Equals.{Equals};
ghost use Rattle.sap_fold.specs.Slices as spec;

use crate::wires::Wires;
use sap_bits::slice;
use sap_net::parts::{Name, Operand, Right};
use std::alloc::{AllocError, Global};

/// The bits of an operand from `lo` up to `hi`.
pub fn sliced(of: Operand, hi: u32, lo: u32) -> Right
    ensures { result ≡ spec.sliced of hi lo }
{
    match of {
        Operand::Named(name) => Right::Slice { name, hi, lo },
        Operand::Constant { value, .. } => {
            if lo <= hi && hi < 64 {
                Right::Copy(Operand::Constant {
                    width: hi + 1 - lo,
                    value: slice(value, hi, lo),
                })
            } else {
                Right::Copy(Operand::Constant { width: 0, value: 0 })
            }
        }
    }
}

/// The width of a number, or of the helping wire that an operand names.
fn width_of(wires: &Wires, operand: &Operand) -> Option<u32>
    ensures { IfSome result (λ u. spec.HasWidth wires.now.list.items operand.now u) }
{
    match operand {
        Operand::Constant { width, .. } => Some(*width),
        Operand::Named(name) => match wires.wire(name) {
            Some(wire) => Some(wire.width),
            None => None,
        },
    }
}

/// A part of a concatenation, and how many bits are behind it.
#[derive(Clone, Copy)]
pub struct PartAt {
    pub part: usize,
    pub behind: u32,
}

/// The part that has all bits from `lo` up to `hi`, if there is one and the widths of the parts from it on are known.
fn find_part(wires: &Wires, operands: &[Operand], hi: u32, lo: u32) -> Option<PartAt>
    requires { hi < 64 }
    ensures { IfSome result (λ s. spec.IsPartAt wires.now.list.items operands.now hi lo s.part s.behind) }
{
    let mut part = operands.len();
    let mut behind = 0;
    while part > 0 {
        part -= 1;
        let Some(width) = width_of(wires, &operands[part]) else {
            return None;
        };
        if width > 64 || behind > lo {
            return None;
        }
        if hi < behind + width {
            return Some(PartAt { part, behind });
        }
        behind += width;
    }
    None
}

/// A slice of a part of a concatenation, if it lies within one.
fn of_parts(
    alloc: Global,
    wires: &Wires,
    operands: &[Operand],
    hi: u32,
    lo: u32,
) -> Result<Option<Right>, AllocError>
    ensures { IfOk result (λ o. IfSome o (λ r. spec.OfParts wires.now.list.items operands.now hi lo r)) }
{
    if hi >= 64 {
        return Ok(None);
    }
    if lo > hi {
        return Ok(None);
    }
    match find_part(wires, operands, hi, lo) {
        Some(found) => {
            let part = operands[found.part].copy(alloc)?;
            Ok(Some(sliced(part, hi - found.behind, lo - found.behind)))
        }
        None => Ok(None),
    }
}

/// A slice of a slice.
fn of_slice(
    alloc: Global,
    name: &Name,
    behind: u32,
    hi: u32,
    lo: u32,
) -> Result<Option<Right>, AllocError>
    ensures { IfOk result (λ o. IfSome o (λ r. r ≡ kind.Slice name.now (hi + behind) (lo + behind))) }
{
    if hi >= 64 || lo >= 64 || behind >= 64 {
        return Ok(None);
    }
    let name = name.copy(alloc)?;
    Ok(Some(Right::Slice {
        name,
        hi: hi + behind,
        lo: lo + behind,
    }))
}

/// A slice of a right side, if it is one of what that reads.
fn of_right(
    alloc: Global,
    wires: &Wires,
    right: &Right,
    hi: u32,
    lo: u32,
) -> Result<Option<Right>, AllocError>
    ensures { IfOk result (λ o. IfSome o (λ r. spec.SlicesRight wires.now.list.items right.now hi lo r)) }
{
    match right {
        Right::Slice {
            name,
            lo: behind,
            ..
        } => {
            let told = of_slice(alloc, name, *behind, hi, lo)?;
            Ok(told)
        }
        Right::Concat(operands) => {
            let told = of_parts(alloc, wires, operands.as_slice(), hi, lo)?;
            Ok(told)
        }
        _ => Ok(None),
    }
}

/// A slice of no whole wire, and of no slice or part.
pub fn see_slice(
    alloc: Global,
    wires: &Wires,
    name: Name,
    hi: u32,
    lo: u32,
) -> Result<Right, AllocError>
    ensures { IfOk result (λ r. (u : ℕ) → Equals wires.now.list.items u (kind.Slice name hi lo) r) }
{
    let Some(wire) = wires.wire(&name) else {
        return Ok(Right::Slice { name, hi, lo });
    };
    if lo == 0 && hi < 64 && wire.width == hi + 1 {
        return Ok(Right::Copy(Operand::Named(name)));
    }
    match of_right(alloc, wires, &wire.right, hi, lo)? {
        Some(seen) => Ok(seen),
        None => Ok(Right::Slice { name, hi, lo }),
    }
}
