//! The whole.

ghost use Rattle.std.specs.Prelude.{◌≡◌, ◌++◌, [], ◌∷◌, filter, map, IfOk, OnOk};
ghost use Rattle.sap_net.specs.Net.{net_of};
ghost use Rattle.sap_joined.specs.Joined as spec;
ghost use Rattle.sap_joined.specs.Seen as seen;
ghost use Rattle.sap_share.specs.Sets.{holds};

use crate::copies::{add_wires, memories};
use crate::feeds::{feed_wires, index_fed};
use crate::parts::{Feed, NamedNet};
use crate::ports::{free_inputs, joined_ports};
use crate::registers::{Registers, sort_registers};
use crate::sets::index_ports;
use sap_net::parts::{Memory, Name, Parts, Register, Wire};
use sap_share::places::Places;
use std::alloc::{AllocError, Global};

fn add_hidden(
    alloc: Global,
    made: &mut Vec<Name>,
    shown: &Places,
    name: &Name,
) -> Result<(), AllocError>
    ensures { OnOk result (made.new.items ≡ made.old.items ++ filter (spec.is_hidden (holds shown.now)) (name.now ∷ [])) }
{
    if !shown.holds(name) {
        made.push(name.copy(alloc)?)?;
    }
    Ok(())
}

fn add_wire_names(
    alloc: Global,
    made: &mut Vec<Name>,
    shown: &Places,
    wires: &[Wire],
) -> Result<(), AllocError>
    ensures { OnOk result (made.new.items ≡ made.old.items ++ filter (spec.is_hidden (holds shown.now)) (map (λ w. w.name) wires.now)) }
{
    for wire in wires {
        add_hidden(alloc, made, shown, &wire.name)?;
    }
    Ok(())
}

fn add_register_names(
    alloc: Global,
    made: &mut Vec<Name>,
    registers: &[Register],
) -> Result<(), AllocError>
    ensures { OnOk result (made.new.items ≡ made.old.items ++ map (λ r. r.name) registers.now) }
{
    for register in registers {
        made.push(register.name.copy(alloc)?)?;
    }
    Ok(())
}

fn add_memory_names(
    alloc: Global,
    made: &mut Vec<Name>,
    shown: &Places,
    memories: &[Memory],
) -> Result<(), AllocError>
    ensures { OnOk result (made.new.items ≡ made.old.items ++ filter (spec.is_hidden (holds shown.now)) (map (λ m. m.name) memories.now)) }
{
    for memory in memories {
        add_hidden(alloc, made, shown, &memory.name)?;
    }
    Ok(())
}

/// The names of wires, registers and memories that no port shows.
fn hidden_names(
    alloc: Global,
    shown: &Places,
    wires: &[Wire],
    hidden: &[Register],
    memories: &[Memory],
) -> Result<Vec<Name>, AllocError>
    ensures { let is_hidden = spec.is_hidden (holds shown.now) in
        IfOk result (λ names. names.items ≡ (filter is_hidden (map (λ w. w.name) wires.now) ++ map (λ r. r.name) hidden.now) ++ filter is_hidden (map (λ m. m.name) memories.now)) }
{
    let mut names = Vec::new(alloc);
    add_wire_names(alloc, &mut names, shown, wires)?;
    add_register_names(alloc, &mut names, hidden)?;
    add_memory_names(alloc, &mut names, shown, memories)?;
    Ok(names)
}

/// The names that ports show, and then the others.
fn all_names(shown: Places, mut hidden: Vec<Name>) -> Result<Vec<Name>, AllocError>
    ensures { IfOk result (λ names. names.items ≡ shown ++ hidden.items) }
{
    let mut names = shown.into_names();
    names.append(&mut hidden)?;
    Ok(names)
}

/// The registers that ports show, and then the others.
fn in_order(registers: Registers) -> Result<Vec<Register>, AllocError>
    ensures { IfOk result (λ made. made.items ≡ registers.shown.items ++ registers.hidden.items) }
{
    let Registers {
        shown: mut made,
        mut hidden,
    } = registers;
    made.append(&mut hidden)?;
    Ok(made)
}

/// The netlist of all parts, each behind its name, in which registers feed inputs; `tag` is the width of tags.
pub fn join(
    alloc: Global,
    tag: u32,
    parts: &[NamedNet<'_>],
    feeds: &[Feed<'_>],
) -> Result<Parts, AllocError>
    ensures { IfOk result (λ p. net_of p ≡ spec.joined tag (map seen.named_net parts.now) (map seen.feed feeds.now)) }
{
    let fed = index_fed(alloc, feeds)?;
    let ports = joined_ports(alloc, parts, &fed)?;
    let inputs = free_inputs(alloc, parts, &fed)?;
    let shown = index_ports(alloc, ports.as_slice())?;
    let mut wires = feed_wires(alloc, tag, feeds)?;
    add_wires(alloc, &mut wires, parts)?;
    let registers = sort_registers(alloc, parts, &shown)?;
    let memories = memories(alloc, parts)?;
    let hidden = hidden_names(
        alloc,
        &shown,
        wires.as_slice(),
        registers.hidden.as_slice(),
        memories.as_slice(),
    )?;
    let names = all_names(shown, hidden)?;
    let module_name = Name::new(String::from_str(alloc, "top")?);
    let registers = in_order(registers)?;
    Ok(Parts {
        module_name,
        names,
        ports,
        inputs,
        wires,
        registers,
        memories,
    })
}
