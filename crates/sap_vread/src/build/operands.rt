//! Operands and right sides.

ghost use Rattle.std.specs.Prelude.{◌≡◌, IfOk, map};
ghost use Rattle.sap_vtext.specs.Modules as text;
ghost use Rattle.sap_vread.specs.Build.Narrow.{narrow_operand, narrow_right};
ghost use Rattle.sap_vparse.specs.Views.{operand_of, right_of};

use crate::build::narrow::narrow;
use sap_net::parts::{Operand, Operands, Right};
use sap_vparse::items as tree;
use std::alloc::{AllocError, Global};

/// What stands where a file without a fault has an operand.
pub fn nothing() -> Operand
    ensures { result ≡ text.nothing }
{
    Operand::Constant { width: 0, value: 0 }
}

pub fn operand(alloc: Global, operand: &tree::Operand) -> Result<Operand, AllocError>
    ensures { IfOk result (λ o. o ≡ text.net_operand (narrow_operand (operand_of operand.now))) }
{
    match operand {
        tree::Operand::Named(x) => Ok(Operand::Named(x.name.copy(alloc)?)),
        tree::Operand::Constant(c) => Ok(Operand::Constant {
            width: narrow(c.width),
            value: c.value,
        }),
    }
}

fn operands(alloc: Global, list: &[tree::Operand]) -> Result<Operands, AllocError>
    ensures { IfOk result (λ os. os ≡ map (λ o. text.net_operand (narrow_operand (operand_of o))) list.now) }
{
    let mut operands = Vec::new(alloc);
    for x in list {
        operands.push(operand(alloc, x)?)?;
    }
    Ok(Operands::new(operands))
}

/// The right side of an `assign`.
pub fn right(alloc: Global, right: &tree::Right) -> Result<Right, AllocError>
    ensures { IfOk result (λ r. r ≡ text.net_right (narrow_right (right_of right.now))) }
{
    match right {
        tree::Right::Copy(x) => Ok(Right::Copy(operand(alloc, x)?)),
        tree::Right::One(op, x) => Ok(Right::One(*op, operand(alloc, x)?)),
        tree::Right::Two(op, x, y) => {
            Ok(Right::Two(*op, operand(alloc, x)?, operand(alloc, y)?))
        }
        tree::Right::Choose(c, x, y) => Ok(Right::Choose(
            operand(alloc, c)?,
            operand(alloc, x)?,
            operand(alloc, y)?,
        )),
        tree::Right::Concat(xs) => Ok(Right::Concat(operands(alloc, xs.as_slice())?)),
        tree::Right::Slice(x, high, low) => Ok(Right::Slice {
            name: x.name.copy(alloc)?,
            hi: narrow(*high),
            lo: narrow(*low),
        }),
        tree::Right::Cell(m, index) => Ok(Right::Cell {
            memory: m.name.copy(alloc)?,
            index: operand(alloc, index)?,
        }),
    }
}
