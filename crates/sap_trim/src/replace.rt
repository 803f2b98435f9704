//! Operands of a netlist, replaced by what stands for them.

ghost use Rattle.std.specs.Prelude.{◌≡◌, map, IfOk};
ghost use Rattle.sap_maps.specs.Scope.{find};
ghost use Rattle.sap_net.specs.declared.parts.Right.TheVariants as right;
ghost use Rattle.sap_trim.specs.Replaced.{replaced, standing, standing_operand};

use sap_bits::Op2;
use sap_fold::slices::sliced;
use sap_net::parts::{Name, Operand, Operands, Right};
use sap_share::table::Table;
use std::alloc::{AllocError, Global};

/// What a name stands for.
pub fn stand_name(
    alloc: Global,
    stands: &Table<Operand>,
    name: &Name,
) -> Result<Operand, AllocError>
    ensures { IfOk result (λ o. o ≡ standing (find stands.now) name.now) }
{
    match stands.get(name) {
        Some(operand) => operand.copy(alloc),
        None => Ok(Operand::Constant { width: 0, value: 0 }),
    }
}

/// What an operand stands for.
pub fn stand(
    alloc: Global,
    stands: &Table<Operand>,
    operand: &Operand,
) -> Result<Operand, AllocError>
    ensures { IfOk result (λ o. o ≡ standing_operand (find stands.now) operand.now) }
{
    match operand {
        Operand::Named(name) => stand_name(alloc, stands, name),
        Operand::Constant { width, value } => Ok(Operand::Constant {
            width: *width,
            value: *value,
        }),
    }
}

fn stand_all(
    alloc: Global,
    stands: &Table<Operand>,
    operands: &[Operand],
) -> Result<Vec<Operand>, AllocError>
    ensures { IfOk result (λ os. os.items ≡ map (standing_operand (find stands.now)) operands.now) }
{
    let mut made = Vec::new(alloc);
    for operand in operands {
        made.push(stand(alloc, stands, operand)?)?;
    }
    Ok(made)
}

fn two(
    alloc: Global,
    stands: &Table<Operand>,
    op: Op2,
    a: &Operand,
    b: &Operand,
) -> Result<Right, AllocError>
    ensures { IfOk result (λ r. r ≡ replaced (find stands.now) (right.Two op a.now b.now)) }
{
    let a = stand(alloc, stands, a)?;
    let b = stand(alloc, stands, b)?;
    Ok(Right::Two(op, a, b))
}

fn choice(
    alloc: Global,
    stands: &Table<Operand>,
    c: &Operand,
    a: &Operand,
    b: &Operand,
) -> Result<Right, AllocError>
    ensures { IfOk result (λ r. r ≡ replaced (find stands.now) (right.Choose c.now a.now b.now)) }
{
    let c = stand(alloc, stands, c)?;
    let a = stand(alloc, stands, a)?;
    let b = stand(alloc, stands, b)?;
    Ok(Right::Choose(c, a, b))
}

fn cell(
    alloc: Global,
    stands: &Table<Operand>,
    memory: &Name,
    index: &Operand,
) -> Result<Right, AllocError>
    ensures { IfOk result (λ r. r ≡ replaced (find stands.now) (right.Cell memory.now index.now)) }
{
    let memory = memory.copy(alloc)?;
    let index = stand(alloc, stands, index)?;
    Ok(Right::Cell { memory, index })
}

/// A right side with what stands for its operands in their place.
pub fn replace(alloc: Global, stands: &Table<Operand>, right: &Right) -> Result<Right, AllocError>
    ensures { IfOk result (λ r. r ≡ replaced (find stands.now) right.now) }
{
    match right {
        Right::Copy(a) => {
            let a = stand(alloc, stands, a)?;
            Ok(Right::Copy(a))
        }
        Right::One(op, a) => {
            let a = stand(alloc, stands, a)?;
            Ok(Right::One(*op, a))
        }
        Right::Two(op, a, b) => two(alloc, stands, *op, a, b),
        Right::Choose(c, a, b) => choice(alloc, stands, c, a, b),
        Right::Concat(operands) => {
            let operands = stand_all(alloc, stands, operands.as_slice())?;
            Ok(Right::Concat(Operands::new(operands)))
        }
        Right::Slice { name, hi, lo } => {
            let of = stand_name(alloc, stands, name)?;
            Ok(sliced(of, *hi, *lo))
        }
        Right::Cell { memory, index } => cell(alloc, stands, memory, index),
    }
}
