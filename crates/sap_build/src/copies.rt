//! Second copies of what a netlist has.

ghost use Rattle.std.specs.Prelude.{◌≡◌, IfOk};

use sap_net::parts::{Input, Memory, Operand, Operands, Port, Register, Right, Wire};
use std::alloc::{AllocError, Global};

pub fn copy_ports(alloc: Global, ports: &[Port]) -> Result<Vec<Port>, AllocError>
    ensures { IfOk result (λ copies. copies.items ≡ ports.now) }
{
    let mut copies = Vec::new(alloc);
    for port in ports {
        copies.push(Port {
            name: port.name.copy(alloc)?,
            kind: port.kind,
        })?;
    }
    Ok(copies)
}

pub fn copy_inputs(alloc: Global, inputs: &[Input]) -> Result<Vec<Input>, AllocError>
    ensures { IfOk result (λ copies. copies.items ≡ inputs.now) }
{
    let mut copies = Vec::new(alloc);
    for input in inputs {
        copies.push(Input {
            name: input.name.copy(alloc)?,
            width: input.width,
        })?;
    }
    Ok(copies)
}

fn copy_operands(alloc: Global, operands: &[Operand]) -> Result<Vec<Operand>, AllocError>
    ensures { IfOk result (λ copies. copies.items ≡ operands.now) }
{
    let mut copies = Vec::new(alloc);
    for operand in operands {
        copies.push(operand.copy(alloc)?)?;
    }
    Ok(copies)
}

pub fn copy_right(alloc: Global, right: &Right) -> Result<Right, AllocError>
    ensures { IfOk result (λ copy. copy ≡ right.now) }
{
    match right {
        Right::Copy(a) => Ok(Right::Copy(a.copy(alloc)?)),
        Right::One(op, a) => Ok(Right::One(*op, a.copy(alloc)?)),
        Right::Two(op, a, b) => Ok(Right::Two(*op, a.copy(alloc)?, b.copy(alloc)?)),
        Right::Choose(c, a, b) => {
            let condition = c.copy(alloc)?;
            Ok(Right::Choose(condition, a.copy(alloc)?, b.copy(alloc)?))
        }
        Right::Concat(operands) => {
            let list = copy_operands(alloc, operands.as_slice())?;
            Ok(Right::Concat(Operands::new(list)))
        }
        Right::Slice { name, hi, lo } => Ok(Right::Slice {
            name: name.copy(alloc)?,
            hi: *hi,
            lo: *lo,
        }),
        Right::Cell { memory, index } => Ok(Right::Cell {
            memory: memory.copy(alloc)?,
            index: index.copy(alloc)?,
        }),
    }
}

pub fn copy_wire(alloc: Global, wire: &Wire) -> Result<Wire, AllocError>
    ensures { IfOk result (λ copy. copy ≡ wire.now) }
{
    Ok(Wire {
        name: wire.name.copy(alloc)?,
        width: wire.width,
        right: copy_right(alloc, &wire.right)?,
    })
}

pub fn copy_wires(alloc: Global, wires: &[Wire]) -> Result<Vec<Wire>, AllocError>
    ensures { IfOk result (λ copies. copies.items ≡ wires.now) }
{
    let mut copies = Vec::new(alloc);
    for wire in wires {
        copies.push(copy_wire(alloc, wire)?)?;
    }
    Ok(copies)
}

pub fn copy_register(alloc: Global, register: &Register) -> Result<Register, AllocError>
    ensures { IfOk result (λ copy. copy ≡ register.now) }
{
    Ok(Register {
        name: register.name.copy(alloc)?,
        width: register.width,
        start: register.start,
        next: register.next.copy(alloc)?,
    })
}

pub fn copy_memory(alloc: Global, memory: &Memory) -> Result<Memory, AllocError>
    ensures { IfOk result (λ copy. copy ≡ memory.now) }
{
    Ok(Memory {
        name: memory.name.copy(alloc)?,
        width: memory.width,
        depth: memory.depth,
        start: memory.start,
        enable: memory.enable.copy(alloc)?,
        index: memory.index.copy(alloc)?,
        value: memory.value.copy(alloc)?,
    })
}

pub fn copy_memories(alloc: Global, memories: &[Memory]) -> Result<Vec<Memory>, AllocError>
    ensures { IfOk result (λ copies. copies.items ≡ memories.now) }
{
    let mut copies = Vec::new(alloc);
    for memory in memories {
        copies.push(copy_memory(alloc, memory)?)?;
    }
    Ok(copies)
}
