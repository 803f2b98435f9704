//! The arrays and the program of a netlist.

ghost use Rattle.std.specs.Prelude.{◌≡◌, ◌++◌, false, None, map, replicate, IfOk, OnOk};
ghost use Rattle.std.specs.List.{AllByRecursion};
ghost use Rattle.sap_net.specs.IsNetlist.{IsNetlist, memory_names, width_of};
ghost use Rattle.sap_cycle.specs.Loaded.{IsProgram, IsRunner, bases_of};
ghost use Rattle.sap_cycle.specs.Instructions.{step_of_instruction};
ghost use Rattle.sap_cycle.specs.Known.{Knows, IsKnownOperand, IsKnownPort, slot_found, ports_found, AreStored, first_numbers};
ghost use Rattle.sap_cycle.specs.Means.{StepsMean};
ghost use Rattle.sap_cycle.specs.Places.{Finds};
ghost use Rattle.sap_cycle.specs.Running.{Shows, first_names, value_names};

use crate::divide::runs_of;
use crate::instructions::{Instruction, instruction_of};
use crate::known::{Known, learn, learn_inputs, learn_registers, slot_of, step_of};
use crate::order::in_order;
use crate::program::Program;
use crate::steps::{Part, Slot, Step, WritePort};
use sap_net::name_map::put;
use sap_net::netlist::Netlist;
use sap_net::parts::{Memory, Register};
use std::alloc::{AllocError, Global};
use std::collections::HashMap;

/// The numbers of the memories, where the cells of each begin, and all cells.
#[derive(Drop)]
struct Stores {
    numbers: HashMap<Vec<u8>, usize>,
    bases: Vec<usize>,
    cells: Vec<u64>,
}

#[derive(Drop)]
struct Compiled {
    parts: Vec<Part>,
    others: Vec<Step>,
    steps: Vec<Instruction>,
}

/// Adds a number several times.
fn fill(numbers: &mut Vec<u64>, count: usize, number: u64) -> Result<(), AllocError>
    ensures { OnOk result (numbers.new.items ≡ numbers.old.items ++ replicate count number) }
{
    for i in 0..count {
        numbers.push(number)?;
    }
    Ok(())
}

fn push_starts(numbers: &mut Vec<u64>, registers: &[Register]) -> Result<(), AllocError>
    ensures { OnOk result (numbers.new.items ≡ numbers.old.items ++ map (λ r. r.start) registers.now) }
{
    for register in registers {
        numbers.push(register.start)?;
    }
    Ok(())
}

/// What inputs, registers and wires have first.
fn first_values(alloc: Global, netlist: &Netlist) -> Result<Vec<u64>, AllocError>
    ensures { IfOk result (λ v. v.items ≡ first_numbers netlist.now) }
{
    let mut numbers = Vec::new(alloc);
    fill(&mut numbers, netlist.inputs().len(), 0)?;
    push_starts(&mut numbers, netlist.registers())?;
    fill(&mut numbers, netlist.wires().len(), 0)?;
    Ok(numbers)
}

/// The memories, numbered in their order.
fn store_memories(alloc: Global, memories: &[Memory]) -> Result<Stores, AllocError>
    ensures { IfOk result (λ s. AreStored memories.now s.numbers s.bases.items s.cells.items) }
{
    let mut numbers = HashMap::new(alloc);
    let mut bases = Vec::new(alloc);
    let mut cells = Vec::new(alloc);
    for (i, memory) in memories.iter().enumerate() {
        put(&mut numbers, alloc, &memory.name, i)?;
        bases.push(cells.len())?;
        fill(&mut cells, memory.depth as usize, memory.start)?;
    }
    Ok(Stores {
        numbers,
        bases,
        cells,
    })
}

/// The steps of the wires. Each wire is known behind its own step.
fn compile(known: &mut Known, alloc: Global, netlist: &Netlist) -> Result<Compiled, AllocError>
    requires rules { IsNetlist netlist.now }
    requires knows { Knows (width_of netlist.now) netlist.now.memories (first_names netlist.now) known.old }
    ensures mean { IfOk result (λ c. StepsMean (width_of netlist.now) netlist.now.memories c.parts.items (first_names netlist.now) (map (step_of_instruction c.others.items) c.steps.items) netlist.now.wires) }
    ensures knows { OnOk result (Knows (width_of netlist.now) netlist.now.memories (value_names netlist.now) known.new) }
{
    let mut parts = Vec::new(alloc);
    let mut others = Vec::new(alloc);
    let mut steps = Vec::new(alloc);
    let wires = netlist.wires();
    for wire in wires {
        let step = step_of(known, &mut parts, &wire.right)?;
        let instruction = instruction_of(&mut others, step)?;
        steps.push(instruction)?;
        learn(known, alloc, &wire.name, wire.width)?;
    }
    Ok(Compiled {
        parts,
        others,
        steps,
    })
}

/// What each register takes at the edge.
fn next_slots(known: &Known, alloc: Global, registers: &[Register]) -> Result<Vec<Slot>, AllocError>
    requires { AllByRecursion (λ r. IsKnownOperand known.now r.next) registers.now }
    ensures { IfOk result (λ v. v.items ≡ map (λ r. slot_found known.now r.next) registers.now) }
{
    let mut slots = Vec::new(alloc);
    for register in registers {
        slots.push(slot_of(known, &register.next))?;
    }
    Ok(slots)
}

/// The write port of each memory.
fn write_ports(
    known: &Known,
    alloc: Global,
    memories: &[Memory],
) -> Result<Vec<WritePort>, AllocError>
    requires operands { AllByRecursion (IsKnownPort known.now) memories.now }
    requires bases { known.now.bases.items ≡ bases_of 0 memories.now }
    ensures { IfOk result (λ v. v.items ≡ ports_found known.now 0 memories.now) }
{
    let mut list = Vec::new(alloc);
    for (i, memory) in memories.iter().enumerate() {
        let base = known.bases[i];
        let enable = slot_of(known, &memory.enable);
        let index = slot_of(known, &memory.index);
        let value = slot_of(known, &memory.value);
        list.push(WritePort {
            base,
            enable,
            index,
            value,
        })?;
    }
    Ok(list)
}

/// The program of a netlist whose inputs, registers and memories are known.
fn make_program(known: &mut Known, alloc: Global, netlist: &Netlist) -> Result<Program, AllocError>
    requires knows { Knows (width_of netlist.now) netlist.now.memories (first_names netlist.now) known.old }
    ensures program { IfOk result (IsProgram netlist.now) }
    ensures knows { OnOk result (Knows (width_of netlist.now) netlist.now.memories (value_names netlist.now) known.new) }
{
    netlist.rules();
    let base = known.widths.len();
    let compiled = compile(known, alloc, netlist)?;
    let nexts = next_slots(known, alloc, netlist.registers())?;
    let ports = write_ports(known, alloc, netlist.memories())?;
    let Compiled {
        parts,
        others,
        steps: instructions,
    } = compiled;
    let places = known.widths.len();
    let steps = in_order(alloc, base, places, &parts, &others, &instructions)?;
    let runs = runs_of(alloc, &steps)?;
    Ok(Program {
        parts,
        others,
        runs,
        nexts,
        ports,
    })
}

/// The names that can be read before the wires, and the memories.
fn first_known(
    alloc: Global,
    netlist: &Netlist,
    numbers: HashMap<Vec<u8>, usize>,
    bases: Vec<usize>,
) -> Result<Known, AllocError>
    requires stored { Finds numbers (memory_names netlist.now) }
    requires bases { bases.items ≡ bases_of 0 netlist.now.memories }
    ensures { IfOk result (λ k. Knows (width_of netlist.now) netlist.now.memories (first_names netlist.now) k) }
{
    netlist.rules();
    let places = HashMap::new(alloc);
    let widths = Vec::new(alloc);
    let mut known = Known {
        places,
        widths,
        memories: numbers,
        bases,
    };
    learn_inputs(&mut known, alloc, netlist.inputs())?;
    learn_registers(&mut known, alloc, netlist.registers())?;
    Ok(known)
}

/// All that a runner needs beside its netlist.
#[derive(Drop)]
pub struct Loaded {
    pub values: Vec<u64>,
    pub cells: Vec<u64>,
    pub edge: Vec<u64>,
    pub program: Program,
    pub places: HashMap<Vec<u8>, usize>,
    pub memories: HashMap<Vec<u8>, usize>,
}

/// Loads a netlist, of which the runner shows no cycle yet.
pub fn prepare(alloc: Global, netlist: &Netlist) -> Result<Loaded, AllocError>
    ensures runner { IfOk result (λ l. IsRunner (record { net = netlist.now; stepped = false; values = l.values.items; cells = l.cells.items }) l.program l.edge.items l.places l.memories) }
    ensures shows { IfOk result (λ l. Shows (record { net = netlist.now; stepped = false; values = l.values.items; cells = l.cells.items }) None) }
{
    netlist.rules();
    let stores = store_memories(alloc, netlist.memories())?;
    let Stores {
        numbers,
        bases,
        cells,
    } = stores;
    let mut known = first_known(alloc, netlist, numbers, bases)?;
    let program = make_program(&mut known, alloc, netlist)?;
    let values = first_values(alloc, netlist)?;
    let mut edge = Vec::new(alloc);
    fill(&mut edge, netlist.registers().len(), 0)?;
    let Known {
        places,
        widths: _,
        memories,
        bases: _,
    } = known;
    Ok(Loaded {
        values,
        cells,
        edge,
        program,
        places,
        memories,
    })
}
