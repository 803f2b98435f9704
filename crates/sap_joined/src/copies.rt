//! Copies of what stands in a part's netlist, each name behind the part's.

ghost use Rattle.std.specs.Prelude.{◌≡◌, ◌++◌, map, All, IfOk, OnOk};
ghost use Rattle.sap_build.specs.Copies as copies;
ghost use Rattle.sap_joined.specs.Joined.{copies_of};
ghost use Rattle.sap_joined.specs.Seen as seen;
ghost use Rattle.sap_joined.specs.Spelled.{OperandSpelled, RightSpelled, WireSpelled, RegisterSpelled, MemorySpelled};
ghost use Rattle.sap_linked.specs.Parts as parts;

use crate::names::in_part;
use crate::parts::NamedNet;
use sap_net::parts::{Memory, Name, Operand, Operands, Register, Right, Wire};
use std::alloc::{AllocError, Global};

fn copy_operand(alloc: Global, part: &Name, operand: &Operand) -> Result<Operand, AllocError>
    requires { OperandSpelled operand.now }
    ensures { IfOk result (λ copy. copy ≡ copies.copy_operand (parts.in_part part.now) operand.now) }
{
    match operand {
        Operand::Named(name) => Ok(Operand::Named(in_part(alloc, part, name)?)),
        Operand::Constant { width, value } => Ok(Operand::Constant {
            width: *width,
            value: *value,
        }),
    }
}

fn copy_operands(
    alloc: Global,
    part: &Name,
    operands: &[Operand],
) -> Result<Vec<Operand>, AllocError>
    requires { All OperandSpelled operands.now }
    ensures { IfOk result (λ made. made.items ≡ map (copies.copy_operand (parts.in_part part.now)) operands.now) }
{
    let mut made = Vec::new(alloc);
    for operand in operands {
        made.push(copy_operand(alloc, part, operand)?)?;
    }
    Ok(made)
}

fn copy_right(alloc: Global, part: &Name, right: &Right) -> Result<Right, AllocError>
    requires { RightSpelled right.now }
    ensures { IfOk result (λ copy. copy ≡ copies.copy_right (parts.in_part part.now) right.now) }
{
    match right {
        Right::Copy(a) => Ok(Right::Copy(copy_operand(alloc, part, a)?)),
        Right::One(op, a) => Ok(Right::One(*op, copy_operand(alloc, part, a)?)),
        Right::Two(op, a, b) => {
            let left = copy_operand(alloc, part, a)?;
            Ok(Right::Two(*op, left, copy_operand(alloc, part, b)?))
        }
        Right::Choose(c, a, b) => {
            let condition = copy_operand(alloc, part, c)?;
            let chosen = copy_operand(alloc, part, a)?;
            let other = copy_operand(alloc, part, b)?;
            Ok(Right::Choose(condition, chosen, other))
        }
        Right::Concat(operands) => {
            let list = copy_operands(alloc, part, operands.as_slice())?;
            Ok(Right::Concat(Operands::new(list)))
        }
        Right::Slice { name, hi, lo } => Ok(Right::Slice {
            name: in_part(alloc, part, name)?,
            hi: *hi,
            lo: *lo,
        }),
        Right::Cell { memory, index } => Ok(Right::Cell {
            memory: in_part(alloc, part, memory)?,
            index: copy_operand(alloc, part, index)?,
        }),
    }
}

fn copy_wire(alloc: Global, part: &Name, wire: &Wire) -> Result<Wire, AllocError>
    requires { WireSpelled wire.now }
    ensures { IfOk result (λ copy. copy ≡ copies.copy_wire (parts.in_part part.now) wire.now) }
{
    Ok(Wire {
        name: in_part(alloc, part, &wire.name)?,
        width: wire.width,
        right: copy_right(alloc, part, &wire.right)?,
    })
}

fn add_wires_of(
    alloc: Global,
    made: &mut Vec<Wire>,
    part: &Name,
    wires: &[Wire],
) -> Result<(), AllocError>
    requires { All WireSpelled wires.now }
    ensures { OnOk result (made.new.items ≡ made.old.items ++ map (copies.copy_wire (parts.in_part part.now)) wires.now) }
{
    for wire in wires {
        made.push(copy_wire(alloc, part, wire)?)?;
    }
    Ok(())
}

/// The wires of all parts.
pub(crate) fn add_wires(
    alloc: Global,
    made: &mut Vec<Wire>,
    parts: &[NamedNet<'_>],
) -> Result<(), AllocError>
    ensures { OnOk result (made.new.items ≡ made.old.items ++ copies_of (λ n. n.wires) copies.copy_wire (map seen.named_net parts.now)) }
{
    for part in parts {
        part.netlist.rules();
        add_wires_of(alloc, made, part.name, part.netlist.wires())?;
    }
    Ok(())
}

pub(crate) fn copy_register(
    alloc: Global,
    part: &Name,
    register: &Register,
) -> Result<Register, AllocError>
    requires { RegisterSpelled register.now }
    ensures { IfOk result (λ copy. copy ≡ copies.copy_register (parts.in_part part.now) register.now) }
{
    Ok(Register {
        name: in_part(alloc, part, &register.name)?,
        width: register.width,
        start: register.start,
        next: copy_operand(alloc, part, &register.next)?,
    })
}

fn copy_memory(alloc: Global, part: &Name, memory: &Memory) -> Result<Memory, AllocError>
    requires { MemorySpelled memory.now }
    ensures { IfOk result (λ copy. copy ≡ copies.copy_memory (parts.in_part part.now) memory.now) }
{
    Ok(Memory {
        name: in_part(alloc, part, &memory.name)?,
        width: memory.width,
        depth: memory.depth,
        start: memory.start,
        enable: copy_operand(alloc, part, &memory.enable)?,
        index: copy_operand(alloc, part, &memory.index)?,
        value: copy_operand(alloc, part, &memory.value)?,
    })
}

fn add_memories_of(
    alloc: Global,
    made: &mut Vec<Memory>,
    part: &Name,
    memories: &[Memory],
) -> Result<(), AllocError>
    requires { All MemorySpelled memories.now }
    ensures { OnOk result (made.new.items ≡ made.old.items ++ map (copies.copy_memory (parts.in_part part.now)) memories.now) }
{
    for memory in memories {
        made.push(copy_memory(alloc, part, memory)?)?;
    }
    Ok(())
}

/// The memories of all parts.
pub(crate) fn memories(alloc: Global, parts: &[NamedNet<'_>]) -> Result<Vec<Memory>, AllocError>
    ensures { IfOk result (λ made. made.items ≡ copies_of (λ n. n.memories) copies.copy_memory (map seen.named_net parts.now)) }
{
    let mut made = Vec::new(alloc);
    for part in parts {
        part.netlist.rules();
        add_memories_of(alloc, &mut made, part.name, part.netlist.memories())?;
    }
    Ok(made)
}
