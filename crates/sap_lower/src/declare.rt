//! The declarations of the netlist.

ghost use Rattle.std.specs.Prelude.{◌≡◌, ◌||◌, ℕ, List, [], ◌∷◌, ◌++◌, map, IfOk, OnOk};
ghost use Rattle.sap_net.specs.IsNetlist.{names_of};
ghost use Rattle.sap_ir.specs.IsGuarded.{memory_names, variable_names};
ghost use Rattle.sap_net.specs.Names.{is_among};
ghost use Rattle.sap_share.specs.Sets.{AreSame, holds};
ghost use Rattle.sap_lower.specs.Lowered.{input_of, input_port, listed, memory_of, out_wire, picked, port_among, register_of, unlisted, unported};

use crate::calc::present_part;
use crate::parts::{Part, WritePort};
use crate::write_ports::present_port;
use sap_ir::guarded::{MemoryVariable, Var, variable_names};
use sap_net::parts::{Input, Memory, Name, Port, PortKind, Register, Right, Wire};
use sap_share::name_set::NameSet;
use sap_share::places::Places;
use sap_share::table::Table;
use sap_text::name::copy_names;
use std::alloc::{AllocError, Global};

fn add_names(alloc: Global, set: &mut NameSet, names: &[Name]) -> Result<(), AllocError>
    ensures { OnOk result ((n : List ℕ) → holds set.new n ≡ (is_among n names.now || holds set.old n)) }
{
    for name in names {
        set.add(alloc, name)?;
    }
    Ok(())
}

fn set_of(alloc: Global, names: &[Name]) -> Result<NameSet, AllocError>
    ensures { IfOk result (λ s. AreSame s names.now) }
{
    let mut set = NameSet::new(alloc);
    add_names(alloc, &mut set, names)?;
    Ok(set)
}

fn register(alloc: Global, entries: &Table<Part>, variable: &Var) -> Result<Register, AllocError>
    ensures { IfOk result (λ r. r ≡ register_of entries.now variable.now) }
{
    let name = variable.name.copy(alloc)?;
    let next = present_part(alloc, entries, &variable.name)?;
    Ok(Register {
        name,
        width: variable.width,
        start: variable.start,
        next: next.operand,
    })
}

fn wire(alloc: Global, entries: &Table<Part>, variable: &Var) -> Result<Wire, AllocError>
    ensures { IfOk result (λ w. w ≡ out_wire entries.now variable.now) }
{
    let name = variable.name.copy(alloc)?;
    let end = present_part(alloc, entries, &variable.name)?;
    Ok(Wire {
        name,
        width: variable.width,
        right: Right::Copy(end.operand),
    })
}

fn memory(
    alloc: Global,
    ports: &Table<WritePort>,
    store: &MemoryVariable,
) -> Result<Memory, AllocError>
    ensures { IfOk result (λ m. m ≡ memory_of ports.now store.now) }
{
    let name = store.name.copy(alloc)?;
    let port = present_port(alloc, ports, &store.name)?;
    Ok(Memory {
        name,
        width: store.width,
        depth: store.depth,
        start: store.start,
        enable: port.enable,
        index: port.index,
        value: port.value,
    })
}

fn add_shown(
    alloc: Global,
    wires: &mut Vec<Wire>,
    entries: &Table<Part>,
    ports: &NameSet,
    variables: &[Var],
) -> Result<(), AllocError>
    ensures { OnOk result (wires.new.items ≡ wires.old.items ++ map (out_wire entries.now) (listed ports.now variables.now)) }
{
    for variable in variables {
        if ports.has(&variable.name) {
            wires.push(wire(alloc, entries, variable)?)?;
        }
    }
    Ok(())
}

/// Each wire that is a port, as a copy of what it stands for at the end.
pub fn out_wires(
    alloc: Global,
    wires: &mut Vec<Wire>,
    entries: &Table<Part>,
    ports: &Places,
    variables: &[Var],
) -> Result<(), AllocError>
    ensures { OnOk result (wires.new.items ≡ wires.old.items ++ map (out_wire entries.now) (listed ports.now variables.now)) }
{
    let set = set_of(alloc, ports.names())?;
    add_shown(alloc, wires, entries, &set, variables)
}

pub fn memories(
    alloc: Global,
    ports: &Table<WritePort>,
    stores: &[MemoryVariable],
) -> Result<Vec<Memory>, AllocError>
    ensures { IfOk result (λ ms. ms.items ≡ map (memory_of ports.now) stores.now) }
{
    let mut made = Vec::new(alloc);
    for store in stores {
        made.push(memory(alloc, ports, store)?)?;
    }
    Ok(made)
}

/// The register of a port, if it is one.
fn port_register(
    alloc: Global,
    made: &mut Vec<Register>,
    entries: &Table<Part>,
    places: &Places,
    registers: &[Var],
    port: &Name,
) -> Result<(), AllocError>
    requires { places.now ≡ variable_names registers.now }
    ensures { OnOk result (made.new.items ≡ made.old.items ++ map (register_of entries.now) (picked registers.now (port.now ∷ []))) }
{
    match places.place(port) {
        Some(k) => {
            let next = register(alloc, entries, &registers[k])?;
            made.push(next)?;
            Ok(())
        }
        None => Ok(()),
    }
}

/// The registers that are ports, in port order.
fn port_registers(
    alloc: Global,
    made: &mut Vec<Register>,
    entries: &Table<Part>,
    places: &Places,
    registers: &[Var],
    ports: &[Name],
) -> Result<(), AllocError>
    requires { places.now ≡ variable_names registers.now }
    ensures { OnOk result (made.new.items ≡ made.old.items ++ map (register_of entries.now) (picked registers.now ports.now)) }
{
    for port in ports {
        port_register(alloc, made, entries, places, registers, port)?;
    }
    Ok(())
}

/// The other registers.
fn other_registers(
    alloc: Global,
    made: &mut Vec<Register>,
    entries: &Table<Part>,
    ports: &Places,
    registers: &[Var],
) -> Result<(), AllocError>
    ensures { OnOk result (made.new.items ≡ made.old.items ++ map (register_of entries.now) (unlisted ports.now registers.now)) }
{
    for variable in registers {
        if !ports.holds(&variable.name) {
            made.push(register(alloc, entries, variable)?)?;
        }
    }
    Ok(())
}

/// The registers in the order of their declaration.
pub fn registers(
    alloc: Global,
    entries: &Table<Part>,
    places: &Places,
    variables: &[Var],
    ports: &Places,
) -> Result<Vec<Register>, AllocError>
    requires { places.now ≡ variable_names variables.now }
    ensures { IfOk result (λ rs. rs.items ≡ map (register_of entries.now) (picked variables.now ports.now) ++ map (register_of entries.now) (unlisted ports.now variables.now)) }
{
    let mut made = Vec::new(alloc);
    port_registers(alloc, &mut made, entries, places, variables, ports.names())?;
    other_registers(alloc, &mut made, entries, ports, variables)?;
    Ok(made)
}

pub fn inputs(alloc: Global, variables: &[Var]) -> Result<Vec<Input>, AllocError>
    ensures { IfOk result (λ is. is.items ≡ map input_of variables.now) }
{
    let mut made = Vec::new(alloc);
    for variable in variables {
        let name = variable.name.copy(alloc)?;
        made.push(Input {
            name,
            width: variable.width,
        })?;
    }
    Ok(made)
}

fn input_ports(alloc: Global, variables: &[Var]) -> Result<Vec<Port>, AllocError>
    ensures { IfOk result (λ ps. ps.items ≡ map input_port variables.now) }
{
    let mut made = Vec::new(alloc);
    for variable in variables {
        let name = variable.name.copy(alloc)?;
        made.push(Port {
            name,
            kind: PortKind::Input,
        })?;
    }
    Ok(made)
}

/// A port of a register or of a wire.
fn shown(alloc: Global, registers: &Places, name: &Name) -> Result<Port, AllocError>
    ensures { IfOk result (λ p. p ≡ port_among registers.now name.now) }
{
    let copy = name.copy(alloc)?;
    if registers.holds(name) {
        Ok(Port {
            name: copy,
            kind: PortKind::Register,
        })
    } else {
        Ok(Port {
            name: copy,
            kind: PortKind::Wire,
        })
    }
}

/// The ports: the inputs and then these, in order.
pub fn ports(
    alloc: Global,
    variables: &[Var],
    registers: &Places,
    names: &[Name],
) -> Result<Vec<Port>, AllocError>
    ensures { IfOk result (λ ps. ps.items ≡ map input_port variables.now ++ map (port_among registers.now) names.now) }
{
    let mut made = input_ports(alloc, variables)?;
    for name in names {
        made.push(shown(alloc, registers, name)?)?;
    }
    Ok(made)
}

fn add_other_than(
    alloc: Global,
    made: &mut Vec<Name>,
    ports: &NameSet,
    wires: &[Wire],
) -> Result<(), AllocError>
    ensures { OnOk result (made.new.items ≡ made.old.items ++ unported ports.now (names_of wires.now)) }
{
    for wire in wires {
        if !ports.has(&wire.name) {
            made.push(wire.name.copy(alloc)?)?;
        }
    }
    Ok(())
}

fn add_wires(
    alloc: Global,
    made: &mut Vec<Name>,
    ports: &Places,
    wires: &[Wire],
) -> Result<(), AllocError>
    ensures { OnOk result (made.new.items ≡ made.old.items ++ unported ports.now (names_of wires.now)) }
{
    let set = set_of(alloc, ports.names())?;
    made.reserve(wires.len())?;
    add_other_than(alloc, made, &set, wires)
}

fn add_registers(
    alloc: Global,
    made: &mut Vec<Name>,
    ports: &Places,
    registers: &[Var],
) -> Result<(), AllocError>
    ensures { OnOk result (made.new.items ≡ made.old.items ++ unported ports.now (variable_names registers.now)) }
{
    for variable in registers {
        if !ports.holds(&variable.name) {
            made.push(variable.name.copy(alloc)?)?;
        }
    }
    Ok(())
}

fn add_memories(
    alloc: Global,
    made: &mut Vec<Name>,
    stores: &[MemoryVariable],
) -> Result<(), AllocError>
    ensures { OnOk result (made.new.items ≡ made.old.items ++ memory_names stores.now) }
{
    for store in stores {
        made.push(store.name.copy(alloc)?)?;
    }
    Ok(())
}

/// All names in the order of their declaration: ports first, then the other wires, registers and memories.
pub fn names(
    alloc: Global,
    inputs: &[Var],
    ports: &Places,
    wires: &[Wire],
    registers: &[Var],
    stores: &[MemoryVariable],
) -> Result<Vec<Name>, AllocError>
    ensures { IfOk result (λ ns. ns.items ≡ variable_names inputs.now ++ (ports.now ++ (unported ports.now (names_of wires.now) ++ (unported ports.now (variable_names registers.now) ++ memory_names stores.now)))) }
{
    let mut made = variable_names(alloc, inputs)?;
    made.append(&mut copy_names(alloc, ports.names())?)?;
    add_wires(alloc, &mut made, ports, wires)?;
    add_registers(alloc, &mut made, ports, registers)?;
    add_memories(alloc, &mut made, stores)?;
    Ok(made)
}
