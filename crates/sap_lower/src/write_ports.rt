//! The write ports of memories so far.

ghost use Rattle.std.specs.Prelude.{◌≡◌, IfOk, OnOk};
ghost use Rattle.sap_lower.specs.Commands.{merged_port, port_of};
ghost use Rattle.sap_lower.specs.Lowering.{plus};
ghost use Rattle.sap_net.specs.declared.parts.Right.TheVariants.{Choose};

use crate::facts::is_zero;
use crate::parts::WritePort;
use crate::wires::Wires;
use sap_net::parts::{Name, Operand, Right};
use sap_share::table::Table;
use std::alloc::{AllocError, Global};
use std::mem;

/// The write port of a memory.
pub fn present_port(
    alloc: Global,
    ports: &Table<WritePort>,
    memory: &Name,
) -> Result<WritePort, AllocError>
    ensures { IfOk result (λ p. p ≡ port_of ports.now memory.now) }
{
    match ports.get(memory) {
        Some(port) => port.copy(alloc),
        None => Ok(WritePort {
            width: 0,
            bits: 0,
            enable: Operand::Constant { width: 0, value: 0 },
            index: Operand::Constant { width: 0, value: 0 },
            value: Operand::Constant { width: 0, value: 0 },
        }),
    }
}

/// A write merged into what its memory's port did so far. The first is taken as it is.
pub fn merge(
    alloc: Global,
    wires: &mut Wires,
    port: &mut WritePort,
    when: Operand,
    index: Operand,
    value: Operand,
) -> Result<(), AllocError>
    ensures wires { OnOk result (wires.new ≡ (merged_port port.old when index value wires.old).wires) }
    ensures port { OnOk result (port.new ≡ (merged_port port.old when index value wires.old).port) }
{
    let first = is_zero(&port.enable);
    let one = Operand::Constant { width: 1, value: 1 };
    choose(alloc, wires, 1, &when, one, &mut port.enable)?;
    if first {
        port.index = index;
        port.value = value;
        return Ok(());
    }
    choose(alloc, wires, port.bits, &when, index, &mut port.index)?;
    choose(alloc, wires, port.width, &when, value, &mut port.value)
}

/// Another operand where the condition is 1.
fn choose(
    alloc: Global,
    wires: &mut Wires,
    width: u32,
    when: &Operand,
    new: Operand,
    operand: &mut Operand,
) -> Result<(), AllocError>
    ensures wires { OnOk result (wires.new ≡ (plus wires.old width (Choose when.now new operand.old)).wires) }
    ensures operand { OnOk result (operand.new ≡ (plus wires.old width (Choose when.now new operand.old)).part.operand) }
{
    let when = when.copy(alloc)?;
    let old = mem::replace(operand, Operand::Constant { width: 0, value: 0 });
    let chosen = wires.add(alloc, width, Right::Choose(when, new, old))?;
    *operand = chosen.operand;
    Ok(())
}
