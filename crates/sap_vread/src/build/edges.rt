//! Registers and memories.

ghost use Rattle.std.specs.Prelude.{◌≡◌, ◌++◌, IfOk, OnOk, flat_map, unwrap_or};
ghost use Rattle.sap_vtext.specs.Modules as text;
ghost use Rattle.sap_vread.specs.Build.Built as spec;
ghost use Rattle.sap_vread.specs.Build.Firsts.{number_of};
ghost use Rattle.sap_vparse.specs.Views.{direction_of, item_of};

use crate::build::firsts::Firsts;
use crate::build::narrow::narrow;
use crate::build::operands::{nothing, operand};
use crate::build::tables::Tables;
use sap_net::parts::{Memory, Name, Operand, Register};
use sap_vparse::items::{Direction, Item, Port};
use std::alloc::{AllocError, Global};

/// What an `always` writes to a memory.
#[derive(Drop)]
struct Write {
    enable: Operand,
    index: Operand,
    value: Operand,
}

fn no_write() -> Write
    ensures enable { result.enable ≡ text.nothing }
    ensures index { result.index ≡ text.nothing }
    ensures value { result.value ≡ text.nothing }
{
    Write {
        enable: nothing(),
        index: nothing(),
        value: nothing(),
    }
}

fn next_of(alloc: Global, item: &Item) -> Result<Operand, AllocError>
    ensures { IfOk result (λ o. o ≡ spec.next_of (item_of item.now)) }
{
    match item {
        Item::Always(_, next) => operand(alloc, next),
        _ => Ok(nothing()),
    }
}

fn write_of(alloc: Global, item: &Item) -> Result<Write, AllocError>
    ensures { IfOk result (λ w. spec.WriteIs w (spec.write_of (item_of item.now))) }
{
    match item {
        Item::AlwaysCell(condition, _, index, value) => Ok(Write {
            enable: operand(alloc, condition)?,
            index: operand(alloc, index)?,
            value: operand(alloc, value)?,
        }),
        _ => Ok(no_write()),
    }
}

/// What the `always` at a place says that a register takes.
fn next_at(alloc: Global, items: &[Item], place: Option<u64>) -> Result<Operand, AllocError>
    ensures { IfOk result (λ o. o ≡ spec.at_place spec.next_of text.nothing items.now place) }
{
    match place {
        Some(place) => match items.get(place as usize) {
            Some(item) => next_of(alloc, item),
            None => Ok(nothing()),
        },
        None => Ok(nothing()),
    }
}

/// What the `always` at a place writes to a memory.
fn write_at(alloc: Global, items: &[Item], place: Option<u64>) -> Result<Write, AllocError>
    ensures { IfOk result (λ w. spec.WriteIs w (spec.at_place spec.write_of spec.no_write items.now place)) }
{
    match place {
        Some(place) => match items.get(place as usize) {
            Some(item) => write_of(alloc, item),
            None => Ok(no_write()),
        },
        None => Ok(no_write()),
    }
}

fn start(starts: &Firsts, name: &Name) -> u64
    ensures { result ≡ unwrap_or (number_of starts.now name.now) 0 }
{
    starts.get(name).unwrap_or(0)
}

fn register(
    alloc: Global,
    tables: &Tables,
    items: &[Item],
    name: &Name,
    range: u64,
) -> Result<Register, AllocError>
    ensures { IfOk result (λ r. r ≡ spec.built_register (number_of tables.now.starts) (number_of tables.now.nexts) items.now name.now range) }
{
    let start = start(&tables.starts, name);
    let place = tables.nexts.get(name);
    let name = name.copy(alloc)?;
    let next = next_at(alloc, items, place)?;
    Ok(Register {
        name,
        width: narrow(range) + 1,
        start,
        next,
    })
}

fn memory(
    alloc: Global,
    tables: &Tables,
    items: &[Item],
    name: &Name,
    range: u64,
    last: u64,
) -> Result<Memory, AllocError>
    ensures { IfOk result (λ m. m ≡ spec.built_memory (number_of tables.now.starts) (number_of tables.now.writes) items.now name.now range last) }
{
    let start = start(&tables.starts, name);
    let place = tables.writes.get(name);
    let name = name.copy(alloc)?;
    let write = write_at(alloc, items, place)?;
    Ok(Memory {
        name,
        width: narrow(range) + 1,
        depth: narrow(last) + 1,
        start,
        enable: write.enable,
        index: write.index,
        value: write.value,
    })
}

fn push_port(
    alloc: Global,
    tables: &Tables,
    items: &[Item],
    registers: &mut Vec<Register>,
    port: &Port,
) -> Result<(), AllocError>
    ensures { OnOk result (registers.new.items ≡ registers.old.items ++ spec.port_registers (number_of tables.now.starts) (number_of tables.now.nexts) items.now (direction_of port.now.direction) port.now.name.name port.now.range.value) }
{
    match port.direction {
        Direction::Input => (),
        Direction::OutputRegister => {
            registers.push(register(alloc, tables, items, &port.name.name, port.range.value)?)?;
        }
        Direction::OutputWire => (),
    }
    Ok(())
}

fn push_register(
    alloc: Global,
    tables: &Tables,
    items: &[Item],
    registers: &mut Vec<Register>,
    item: &Item,
) -> Result<(), AllocError>
    ensures { OnOk result (registers.new.items ≡ registers.old.items ++ spec.item_registers (number_of tables.now.starts) (number_of tables.now.nexts) items.now (item_of item.now)) }
{
    match item {
        Item::Register(range, x) => {
            registers.push(register(alloc, tables, items, &x.name, range.value)?)?;
        }
        _ => (),
    }
    Ok(())
}

fn push_memory(
    alloc: Global,
    tables: &Tables,
    items: &[Item],
    memories: &mut Vec<Memory>,
    item: &Item,
) -> Result<(), AllocError>
    ensures { OnOk result (memories.new.items ≡ memories.old.items ++ spec.item_memories (number_of tables.now.starts) (number_of tables.now.writes) items.now (item_of item.now)) }
{
    match item {
        Item::Memory(range, x, last) => {
            memories.push(memory(alloc, tables, items, &x.name, range.value, last.value)?)?;
        }
        _ => (),
    }
    Ok(())
}

/// The registers that are ports.
pub fn push_ports(
    alloc: Global,
    tables: &Tables,
    items: &[Item],
    registers: &mut Vec<Register>,
    ports: &[Port],
) -> Result<(), AllocError>
    ensures { OnOk result (registers.new.items ≡ registers.old.items ++ flat_map (λ p. spec.port_registers (number_of tables.now.starts) (number_of tables.now.nexts) items.now (direction_of p.direction) p.name.name p.range.value) ports.now) }
{
    for port in ports {
        push_port(alloc, tables, items, registers, port)?;
    }
    Ok(())
}

/// The registers that are declared by items.
pub fn push_registers(
    alloc: Global,
    tables: &Tables,
    items: &[Item],
    registers: &mut Vec<Register>,
) -> Result<(), AllocError>
    ensures { OnOk result (registers.new.items ≡ registers.old.items ++ flat_map (λ x. spec.item_registers (number_of tables.now.starts) (number_of tables.now.nexts) items.now (item_of x)) items.now) }
{
    for item in items {
        push_register(alloc, tables, items, registers, item)?;
    }
    Ok(())
}

/// The memories, in the order of declaration.
pub fn push_memories(
    alloc: Global,
    tables: &Tables,
    items: &[Item],
    memories: &mut Vec<Memory>,
) -> Result<(), AllocError>
    ensures { OnOk result (memories.new.items ≡ memories.old.items ++ flat_map (λ x. spec.item_memories (number_of tables.now.starts) (number_of tables.now.writes) items.now (item_of x)) items.now) }
{
    for item in items {
        push_memory(alloc, tables, items, memories, item)?;
    }
    Ok(())
}
