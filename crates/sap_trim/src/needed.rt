//! The wires that are needed, by a mark for each.

ghost use Rattle.std.specs.Prelude.{◌≡◌, ◌<◌, ◌++◌, [], ◌∷◌, length, map, replicate, slice_index_or, slice_set, false, true, if◌then◌else◌, IfOk, OnOk};
ghost use Rattle.sap_net.specs.IsNetlist.{names_of};
ghost use Rattle.sap_trim.specs.Names.{port_names};
ghost use Rattle.sap_trim.specs.Needed.{Marks, MarksNeeded, is_marked};
ghost use Rattle.sap_trim.specs.Reads.{edge_reads, memory_reads, operand_reads, operands_reads, register_reads, right_reads};

use crate::build::add_wires;
use sap_net::netlist::Netlist;
use sap_net::parts::{Memory, Name, Operand, Port, Register, Right, Wire};
use sap_share::places::Places;
use std::alloc::{AllocError, Global};

/// The names of the wires, with their places.
fn places_of(alloc: Global, wires: &[Wire]) -> Result<Places, AllocError>
    ensures { IfOk result (λ m. m ≡ names_of wires.now) }
{
    let mut names = Vec::with_capacity(alloc, wires.len())?;
    add_wires(alloc, &mut names, wires)?;
    Places::new(alloc, names)
}

fn fill(marks: &mut Vec<bool>, count: usize) -> Result<(), AllocError>
    ensures { OnOk result (marks.new.items ≡ marks.old.items ++ replicate count false) }
{
    for i in 0..count {
        marks.push(false)?;
    }
    Ok(())
}

/// So many marks, of which none is set.
fn unmarked(alloc: Global, count: usize) -> Result<Vec<bool>, AllocError>
    ensures { IfOk result (λ m. m.items ≡ replicate count false) }
{
    let mut marks = Vec::new(alloc);
    fill(&mut marks, count)?;
    Ok(marks)
}

fn set(marks: &mut [bool], place: usize, mark: bool)
    ensures { marks.new ≡ slice_set marks.old place mark }
{
    if place < marks.len() {
        marks[place] = mark;
    }
}

fn mark_name(marks: &mut [bool], places: &Places, name: &Name)
    ensures { Marks places.now (name.now ∷ []) marks.old marks.new }
{
    match places.place(name) {
        Some(place) => set(marks, place, true),
        None => {}
    }
}

fn mark_operand(marks: &mut [bool], places: &Places, operand: &Operand)
    ensures { Marks places.now (operand_reads operand.now) marks.old marks.new }
{
    match operand {
        Operand::Named(name) => mark_name(marks, places, name),
        Operand::Constant { .. } => {}
    }
}

fn mark_pair(marks: &mut [bool], places: &Places, a: &Operand, b: &Operand)
    ensures { Marks places.now (operand_reads a.now ++ operand_reads b.now) marks.old marks.new }
{
    mark_operand(marks, places, a);
    mark_operand(marks, places, b);
}

fn mark_three(marks: &mut [bool], places: &Places, a: &Operand, b: &Operand, c: &Operand)
    ensures { Marks places.now (operand_reads a.now ++ (operand_reads b.now ++ operand_reads c.now)) marks.old marks.new }
{
    mark_operand(marks, places, a);
    mark_pair(marks, places, b, c);
}

fn mark_operands(marks: &mut [bool], places: &Places, operands: &[Operand])
    ensures { Marks places.now (operands_reads operands.now) marks.old marks.new }
{
    for operand in operands {
        mark_operand(marks, places, operand);
    }
}

fn mark_right(marks: &mut [bool], places: &Places, right: &Right)
    ensures { Marks places.now (right_reads right.now) marks.old marks.new }
{
    match right {
        Right::Copy(a) => mark_operand(marks, places, a),
        Right::One(_, a) => mark_operand(marks, places, a),
        Right::Two(_, a, b) => mark_pair(marks, places, a, b),
        Right::Choose(c, a, b) => mark_three(marks, places, c, a, b),
        Right::Concat(operands) => mark_operands(marks, places, operands.as_slice()),
        Right::Slice { name, .. } => mark_name(marks, places, name),
        Right::Cell { index, .. } => mark_operand(marks, places, index),
    }
}

fn mark_ports(marks: &mut [bool], places: &Places, ports: &[Port])
    ensures { Marks places.now (map (λ p. p.name) ports.now) marks.old marks.new }
{
    for port in ports {
        mark_name(marks, places, &port.name);
    }
}

fn mark_registers(marks: &mut [bool], places: &Places, registers: &[Register])
    ensures { Marks places.now (register_reads registers.now) marks.old marks.new }
{
    for register in registers {
        mark_operand(marks, places, &register.next);
    }
}

fn mark_memories(marks: &mut [bool], places: &Places, memories: &[Memory])
    ensures { Marks places.now (memory_reads memories.now) marks.old marks.new }
{
    for memory in memories {
        mark_three(marks, places, &memory.enable, &memory.index, &memory.value);
    }
}

/// Marks the wires that are ports, and those that registers and memories take at the edge.
fn mark_ends(marks: &mut [bool], places: &Places, netlist: &Netlist)
    ensures { Marks places.now (port_names netlist.now ++ edge_reads netlist.now) marks.old marks.new }
{
    mark_ports(marks, places, netlist.ports());
    mark_registers(marks, places, netlist.registers());
    mark_memories(marks, places, netlist.memories());
}

/// Keeps the wire at a place if it is a port or read, and marks then what it reads.
fn keep_wire(kept: &mut [bool], read: &mut [bool], places: &Places, wires: &[Wire], place: usize)
    requires place { place < length wires.now }
    requires read { length read.old ≡ length wires.now }
    ensures kept { kept.new ≡ slice_set kept.old place (is_marked read.old place) }
    ensures read { (w : Wire) → w ≡ slice_index_or wires.now place w → Marks places.now (if is_marked read.old place then right_reads w.right else []) read.old read.new }
{
    let is_read = read[place];
    set(kept, place, is_read);
    if is_read {
        mark_right(read, places, &wires[place].right);
    }
}

/// A mark for each wire: those that are ports, or that what is needed reads, have it.
pub fn needed(alloc: Global, netlist: &Netlist) -> Result<Vec<bool>, AllocError>
    ensures { IfOk result (λ m. MarksNeeded netlist.now m.items) }
{
    netlist.rules();
    let wires = netlist.wires();
    let places = places_of(alloc, wires)?;
    let mut read = unmarked(alloc, wires.len())?;
    let mut kept = unmarked(alloc, wires.len())?;
    mark_ends(&mut read, &places, netlist);
    let mut rest = wires.len();
    while rest > 0 {
        rest -= 1;
        keep_wire(&mut kept, &mut read, &places, wires, rest);
    }
    Ok(kept)
}
