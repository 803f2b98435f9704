//! From a file without a fault to its netlist.

ghost use Rattle.std.specs.Prelude.{◌≡◌, IfOk, flat_map, map};
ghost use Rattle.sap_vtext.specs.Faults.{IsFaultless};
ghost use Rattle.sap_vtext.specs.Modules.{net_port, netlist_of, port_input};
ghost use Rattle.sap_net.specs.Net.{net_of};
ghost use Rattle.sap_vread.specs.Build.Narrow.{narrow_file, narrow_port};
ghost use Rattle.sap_vread.specs.Build.Spelled.{IsSpelled};
ghost use Rattle.sap_vread.specs.Build.Tables.{AreNoted};
ghost use Rattle.sap_vparse.specs.Views.{file_of, port_of};

use crate::build::edges::{push_memories, push_ports, push_registers};
use crate::build::names::{push_item_names, push_port_names};
use crate::build::shown::{inputs, ports};
use crate::build::tables::{Tables, tabled};
use crate::build::wires::push_wires;
use sap_net::netlist::Netlist;
use sap_net::parts::{Input, Memory, Name, Parts, Port, Register, Wire};
use sap_vparse::items::File;
use std::alloc::{AllocError, Global};

fn names(alloc: Global, file: &File) -> Result<Vec<Name>, AllocError>
    ensures { IfOk result (λ ns. ns.items ≡ (netlist_of (narrow_file (file_of file.now))).names) }
{
    let mut names = Vec::new(alloc);
    push_port_names(alloc, &mut names, file.ports.as_slice())?;
    push_item_names(alloc, &mut names, file.items.as_slice())?;
    Ok(names)
}

fn registers(alloc: Global, tables: &Tables, file: &File) -> Result<Vec<Register>, AllocError>
    requires { AreNoted tables.now (file_of file.now) }
    ensures { IfOk result (λ rs. rs.items ≡ (netlist_of (narrow_file (file_of file.now))).registers) }
{
    let items = file.items.as_slice();
    let mut registers = Vec::new(alloc);
    push_ports(alloc, tables, items, &mut registers, file.ports.as_slice())?;
    push_registers(alloc, tables, items, &mut registers)?;
    Ok(registers)
}

// What the ports and declarations of a file give.
#[derive(Drop)]
struct Declared {
    names: Vec<Name>,
    ports: Vec<Port>,
    inputs: Vec<Input>,
}

fn declared_in(alloc: Global, file: &File) -> Result<Declared, AllocError>
    ensures names { IfOk result (λ d. d.names.items ≡ (netlist_of (narrow_file (file_of file.now))).names) }
    ensures ports { IfOk result (λ d. d.ports.items ≡ map (λ p. net_port (narrow_port (port_of p))) file.now.ports.items) }
    ensures inputs { IfOk result (λ d. d.inputs.items ≡ flat_map (λ p. port_input (narrow_port (port_of p))) file.now.ports.items) }
{
    let names = names(alloc, file)?;
    let ports = ports(alloc, file.ports.as_slice())?;
    let inputs = inputs(alloc, file.ports.as_slice())?;
    Ok(Declared {
        names,
        ports,
        inputs,
    })
}

// What the items of a file give.
#[derive(Drop)]
struct Driven {
    wires: Vec<Wire>,
    registers: Vec<Register>,
    memories: Vec<Memory>,
}

fn driven_in(alloc: Global, tables: &Tables, file: &File) -> Result<Driven, AllocError>
    requires { AreNoted tables.now (file_of file.now) }
    ensures wires { IfOk result (λ d. d.wires.items ≡ (netlist_of (narrow_file (file_of file.now))).wires) }
    ensures registers { IfOk result (λ d. d.registers.items ≡ (netlist_of (narrow_file (file_of file.now))).registers) }
    ensures memories { IfOk result (λ d. d.memories.items ≡ (netlist_of (narrow_file (file_of file.now))).memories) }
{
    let items = file.items.as_slice();
    let mut wires = Vec::new(alloc);
    push_wires(alloc, &tables.ranges, &mut wires, items)?;
    let registers = registers(alloc, tables, file)?;
    let mut memories = Vec::new(alloc);
    push_memories(alloc, tables, items, &mut memories)?;
    Ok(Driven {
        wires,
        registers,
        memories,
    })
}

// The same from the file alone.
fn driven_of(alloc: Global, file: &File) -> Result<Driven, AllocError>
    ensures wires { IfOk result (λ d. d.wires.items ≡ (netlist_of (narrow_file (file_of file.now))).wires) }
    ensures registers { IfOk result (λ d. d.registers.items ≡ (netlist_of (narrow_file (file_of file.now))).registers) }
    ensures memories { IfOk result (λ d. d.memories.items ≡ (netlist_of (narrow_file (file_of file.now))).memories) }
{
    let tables = tabled(alloc, file)?;
    driven_in(alloc, &tables, file)
}

fn parts(alloc: Global, file: &File) -> Result<Parts, AllocError>
    ensures { IfOk result (λ p. net_of p ≡ netlist_of (narrow_file (file_of file.now))) }
{
    let module_name = file.module_name.copy(alloc)?;
    let declared = declared_in(alloc, file)?;
    let driven = driven_of(alloc, file)?;
    Ok(Parts {
        module_name,
        names: declared.names,
        ports: declared.ports,
        inputs: declared.inputs,
        wires: driven.wires,
        registers: driven.registers,
        memories: driven.memories,
    })
}

/// The netlist of a module's tree.
pub fn build(alloc: Global, file: &File) -> Result<Netlist, AllocError>
    requires spelled { IsSpelled (file_of file.now) }
    requires faultless { IsFaultless (file_of file.now) }
    ensures { IfOk result (λ n. n ≡ netlist_of (file_of file.now)) }
{
    let parts = parts(alloc, file)?;
    Ok(Netlist::new(parts))
}
