//! Calculations that fold to an operand, or else are wires.

ghost use Rattle.std.specs.Prelude.{◌≡◌, IfOk, OnOk};
ghost use Rattle.sap_fold.specs.Folding.{settled};
ghost use Rattle.sap_lower.specs.Lowering.{calculated, copied, placed};

use crate::parts::Part;
use crate::wires::Wires;
use sap_fold::fold::settle;
use sap_net::parts::{Operand, Right};
use std::alloc::{AllocError, Global};

/// What a right side is a copy of.
fn copy_of(right: Right) -> Option<Operand>
    ensures { result ≡ copied right }
{
    match right {
        Right::Copy(operand) => Some(operand),
        _ => None,
    }
}

/// The operand that a right side folds to, if it does.
fn folds_to(alloc: Global, width: u32, right: &Right) -> Result<Option<Operand>, AllocError>
    ensures { IfOk result (λ o. o ≡ copied (settled width right.now)) }
{
    match right {
        Right::Copy(a) => {
            let a = a.copy(alloc)?;
            Ok(Some(a))
        }
        Right::One(op, a) => {
            let a = a.copy(alloc)?;
            Ok(copy_of(settle(width, Right::One(*op, a))))
        }
        Right::Two(op, a, b) => {
            let a = a.copy(alloc)?;
            let b = b.copy(alloc)?;
            Ok(copy_of(settle(width, Right::Two(*op, a, b))))
        }
        Right::Choose(c, a, b) => {
            let c = c.copy(alloc)?;
            let a = a.copy(alloc)?;
            let b = b.copy(alloc)?;
            Ok(copy_of(settle(width, Right::Choose(c, a, b))))
        }
        _ => Ok(None),
    }
}

/// An operand, or the wire of a right side.
fn place(
    alloc: Global,
    wires: &mut Wires,
    operand: Option<Operand>,
    width: u32,
    right: Right,
) -> Result<Part, AllocError>
    ensures wires { OnOk result (wires.new ≡ (placed operand wires.old width right).wires) }
    ensures part { IfOk result (λ p. p ≡ (placed operand wires.old width right).part) }
{
    match operand {
        Some(operand) => Ok(Part { operand, width }),
        None => wires.add(alloc, width, right),
    }
}

/// The operand that a right side folds to, or its wire.
#[tactic(auto, unfolding(crate::specs::Lowering::calculated))]
pub fn calculate(
    alloc: Global,
    wires: &mut Wires,
    width: u32,
    right: Right,
) -> Result<Part, AllocError>
    ensures wires { OnOk result (wires.new ≡ (calculated wires.old width right).wires) }
    ensures part { IfOk result (λ p. p ≡ (calculated wires.old width right).part) }
{
    let operand = folds_to(alloc, width, &right)?;
    place(alloc, wires, operand, width, right)
}
