//! Reads of memories that nothing writes.

ghost use Rattle.std.specs.Prelude.{◌≡◌, ℕ, map, IfOk};
ghost use Rattle.sap_fold.specs.Folding.{is_number};
ghost use Rattle.sap_trim.specs.Unwritten as spec;
ghost use Rattle.sap_trim.specs.Unwritten.{lasting_cell, read_net, read_wire};

use sap_net::netlist::Netlist;
use sap_net::parts::{Memory, Name, Operand, Parts, Right, Wire};
use std::alloc::{AllocError, Global};

/// Whether an operand is the constant 0.
fn is_zero(operand: &Operand) -> bool
    ensures { result ≡ is_number operand.now 0 }
{
    match operand {
        Operand::Named(_) => false,
        Operand::Constant { value, .. } => *value == 0,
    }
}

/// The number of all cells of a memory, if nothing writes it.
fn number_in(memories: &[Memory], name: &Name) -> Option<u64>
    ensures { result ≡ lasting_cell memories.now name.now }
{
    for memory in memories {
        if memory.name.same(name) {
            return if is_zero(&memory.enable) {
                Some(memory.start)
            } else {
                None
            };
        }
    }
    None
}

/// The number of what a right side reads, if that is a memory that nothing writes.
fn number_of(memories: &[Memory], right: &Right) -> Option<u64>
    ensures { (u : ℕ) → spec.number_or u right.now result ≡ spec.read_right memories.now u right.now }
{
    match right {
        Right::Cell { memory, .. } => number_in(memories, memory),
        _ => None,
    }
}

fn read(memories: &[Memory], wire: Wire) -> Wire
    ensures { result ≡ read_wire memories.now wire }
{
    let Some(value) = number_of(memories, &wire.right) else {
        return wire;
    };
    let Wire { name, width, .. } = wire;
    let right = Right::Copy(Operand::Constant { width, value });
    Wire { name, width, right }
}

fn read_all(alloc: Global, memories: &[Memory], wires: Vec<Wire>) -> Result<Vec<Wire>, AllocError>
    ensures { IfOk result (λ ws. ws.items ≡ map (read_wire memories.now) wires.items) }
{
    let mut made = Vec::with_capacity(alloc, wires.len())?;
    for wire in wires {
        let wire = read(memories, wire);
        made.push(wire)?;
    }
    Ok(made)
}

/// The netlist in which each read of a memory that nothing writes is that memory's start.
pub fn without_reads(alloc: Global, netlist: Netlist) -> Result<Netlist, AllocError>
    ensures { IfOk result (λ n. n ≡ read_net netlist) }
{
    let Parts {
        module_name,
        names,
        ports,
        inputs,
        wires,
        registers,
        memories,
    } = netlist.into_parts();
    let wires = read_all(alloc, memories.as_slice(), wires)?;
    Ok(Netlist::new(Parts {
        module_name,
        names,
        ports,
        inputs,
        wires,
        registers,
        memories,
    }))
}
