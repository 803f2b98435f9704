//! The parts of the new netlist.

ghost use Rattle.std.specs.Prelude.{◌≡◌, ◌++◌, map, filter, IfOk, OnOk};
ghost use Rattle.sap_maps.specs.Scope.{find};
ghost use Rattle.sap_net.specs.Net.{net_of};
ghost use Rattle.sap_net.specs.IsNetlist.{names_of};
ghost use Rattle.sap_trim.specs.Built.{built, memory_of, register_of, wire_of};
ghost use Rattle.sap_share.specs.Sets.{AreSame, holds};
ghost use Rattle.sap_trim.specs.Names.{lasting_names, port_names};

use crate::replace::{stand, stand_name};
use sap_build::copies::{copy_inputs, copy_ports};
use sap_net::netlist::Netlist;
use sap_net::parts::{Memory, Name, Operand, Parts, Register, Right, Wire};
use sap_share::name_set::NameSet;
use sap_share::table::Table;
use std::alloc::{AllocError, Global};

fn add_lasting(
    alloc: Global,
    made: &mut Vec<Name>,
    lasting: &NameSet,
    names: &[Name],
) -> Result<(), AllocError>
    ensures { OnOk result (made.new.items ≡ made.old.items ++ filter (holds lasting.now) names.now) }
{
    for name in names {
        if lasting.has(name) {
            made.push(name.copy(alloc)?)?;
        }
    }
    Ok(())
}

/// Adds the names of wires.
pub fn add_wires(alloc: Global, made: &mut Vec<Name>, wires: &[Wire]) -> Result<(), AllocError>
    ensures { OnOk result (made.new.items ≡ made.old.items ++ names_of wires.now) }
{
    for wire in wires {
        made.push(wire.name.copy(alloc)?)?;
    }
    Ok(())
}

fn wire(alloc: Global, stands: &Table<Operand>, shown: &Wire) -> Result<Wire, AllocError>
    ensures { IfOk result (λ w. w ≡ wire_of (find stands.now) shown.now) }
{
    let name = shown.name.copy(alloc)?;
    let operand = stand_name(alloc, stands, &shown.name)?;
    Ok(Wire {
        name,
        width: shown.width,
        right: Right::Copy(operand),
    })
}

/// The wires that are ports, each a copy of what it stands for.
fn add_shown(
    alloc: Global,
    made: &mut Vec<Wire>,
    ports: &NameSet,
    stands: &Table<Operand>,
    wires: &[Wire],
) -> Result<(), AllocError>
    ensures { OnOk result (made.new.items ≡ made.old.items ++ map (wire_of (find stands.now)) (filter (λ w. holds ports.now w.name) wires.now)) }
{
    for shown in wires {
        if ports.has(&shown.name) {
            made.push(wire(alloc, stands, shown)?)?;
        }
    }
    Ok(())
}

fn register(
    alloc: Global,
    stands: &Table<Operand>,
    register: &Register,
) -> Result<Register, AllocError>
    ensures { IfOk result (λ r. r ≡ register_of (find stands.now) register.now) }
{
    let name = register.name.copy(alloc)?;
    let next = stand(alloc, stands, &register.next)?;
    Ok(Register {
        name,
        width: register.width,
        start: register.start,
        next,
    })
}

fn registers(
    alloc: Global,
    stands: &Table<Operand>,
    registers: &[Register],
) -> Result<Vec<Register>, AllocError>
    ensures { IfOk result (λ rs. rs.items ≡ map (register_of (find stands.now)) registers.now) }
{
    let mut made = Vec::with_capacity(alloc, registers.len())?;
    for given in registers {
        made.push(register(alloc, stands, given)?)?;
    }
    Ok(made)
}

fn memory(alloc: Global, stands: &Table<Operand>, memory: &Memory) -> Result<Memory, AllocError>
    ensures { IfOk result (λ m. m ≡ memory_of (find stands.now) memory.now) }
{
    let name = memory.name.copy(alloc)?;
    let enable = stand(alloc, stands, &memory.enable)?;
    let index = stand(alloc, stands, &memory.index)?;
    let value = stand(alloc, stands, &memory.value)?;
    Ok(Memory {
        name,
        width: memory.width,
        depth: memory.depth,
        start: memory.start,
        enable,
        index,
        value,
    })
}

fn memories(
    alloc: Global,
    stands: &Table<Operand>,
    memories: &[Memory],
) -> Result<Vec<Memory>, AllocError>
    ensures { IfOk result (λ ms. ms.items ≡ map (memory_of (find stands.now)) memories.now) }
{
    let mut made = Vec::new(alloc);
    for given in memories {
        made.push(memory(alloc, stands, given)?)?;
    }
    Ok(made)
}

/// The parts of the netlist of these wires, and of the ports, registers and memories of the given one, whose names stand for operands over them.
pub fn build(
    alloc: Global,
    netlist: &Netlist,
    lasting: &NameSet,
    shown: &NameSet,
    stands: &Table<Operand>,
    mut wires: Vec<Wire>,
) -> Result<Parts, AllocError>
    requires lasting { AreSame lasting.now (lasting_names netlist.now) }
    requires shown { AreSame shown.now (port_names netlist.now) }
    ensures { IfOk result (λ p. net_of p ≡ built netlist.now wires.items (find stands.now)) }
{
    let module_name = netlist.module_name().copy(alloc)?;
    let edge = netlist
        .ports()
        .len()
        .saturating_add(netlist.registers().len());
    let mut names = Vec::with_capacity(alloc, edge.saturating_add(wires.len()))?;
    add_lasting(alloc, &mut names, lasting, netlist.names())?;
    add_wires(alloc, &mut names, &wires)?;
    wires.reserve_exact(netlist.ports().len())?;
    add_shown(alloc, &mut wires, shown, stands, netlist.wires())?;
    let ports = copy_ports(alloc, netlist.ports())?;
    let inputs = copy_inputs(alloc, netlist.inputs())?;
    let registers = registers(alloc, stands, netlist.registers())?;
    let memories = memories(alloc, stands, netlist.memories())?;
    Ok(Parts {
        module_name,
        names,
        ports,
        inputs,
        wires,
        registers,
        memories,
    })
}
