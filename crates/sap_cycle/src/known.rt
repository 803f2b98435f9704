//! What is known of names while a netlist is loaded.

ghost use Rattle.std.specs.Prelude.{◌≡◌, ◌<◌, ◌++◌, [], ◌∷◌, length, map, unwrap_or, IfOk, OnOk, List, ℕ};
ghost use Rattle.std.specs.List.{AllByRecursion};
ghost use Rattle.sap_maps.specs.Maps.{Name as Text};
ghost use Rattle.sap_net.specs.declared.parts.Memory.{Memory as Stored};
ghost use Rattle.sap_net.specs.NameMaps.{at_name};
ghost use Rattle.sap_cycle.specs.Known.{Knows, IsKnown, IsKnownMemory, IsKnownOperand, IsKnownRight, slot_found, width_found, part_found, base_found, pair_found, concat_found, concat_parts, step_found, parts_found};

use crate::steps::{Part, Slot, Step};
use sap_net::name_map::{at_name, put};
use sap_net::parts::{Input, Name, Operand, Register, Right};
use std::alloc::{AllocError, Global};
use std::collections::HashMap;

/// The places of the names that can be read so far, with the width at each place, and the numbers of the memories, with the
/// place in the array of cells where those of each begin.
#[derive(Drop)]
pub struct Known {
    pub places: HashMap<Vec<u8>, usize>,
    pub widths: Vec<u32>,
    pub memories: HashMap<Vec<u8>, usize>,
    pub bases: Vec<usize>,
}

/// Adds a name behind those that are known.
pub fn learn(known: &mut Known, alloc: Global, name: &Name, width: u32) -> Result<(), AllocError>
    ensures { OnOk result ((f : Text → ℕ) (ms : List Stored) (names : List Text) → Knows f ms names known.old → f name.now ≡ width → Knows f ms (names ++ name.now ∷ []) known.new) }
{
    let place = known.widths.len();
    put(&mut known.places, alloc, name, place)?;
    known.widths.push(width)?;
    Ok(())
}

pub fn learn_inputs(known: &mut Known, alloc: Global, inputs: &[Input]) -> Result<(), AllocError>
    ensures { OnOk result ((f : Text → ℕ) (ms : List Stored) (names : List Text) → Knows f ms names known.old → AllByRecursion (λ i. f i.name ≡ i.width) inputs.now → Knows f ms (names ++ map (λ i. i.name) inputs.now) known.new) }
{
    for input in inputs {
        learn(known, alloc, &input.name, input.width)?;
    }
    Ok(())
}

pub fn learn_registers(
    known: &mut Known,
    alloc: Global,
    registers: &[Register],
) -> Result<(), AllocError>
    ensures { OnOk result ((f : Text → ℕ) (ms : List Stored) (names : List Text) → Knows f ms names known.old → AllByRecursion (λ r. f r.name ≡ r.width) registers.now → Knows f ms (names ++ map (λ r. r.name) registers.now) known.new) }
{
    for register in registers {
        learn(known, alloc, &register.name, register.width)?;
    }
    Ok(())
}

/// The place of a name that is known.
fn place(known: &Known, name: &Name) -> usize
    requires { IsKnown known.now name.now }
    ensures within { result < length known.now.widths.items }
    ensures is { result ≡ unwrap_or (at_name known.now.places name.now) 0 }
{
    match at_name(&known.places, name.as_bytes()) {
        Some(place) => place,
        None => unreachable!(),
    }
}

/// Where the cells of a memory begin.
fn base(known: &Known, memory: &Name) -> usize
    requires { IsKnownMemory known.now memory.now }
    ensures { result ≡ base_found known.now memory.now }
{
    match at_name(&known.memories, memory.as_bytes()) {
        Some(number) => known.bases[number],
        None => unreachable!(),
    }
}

pub fn slot_of(known: &Known, operand: &Operand) -> Slot
    requires { IsKnownOperand known.now operand.now }
    ensures { result ≡ slot_found known.now operand.now }
{
    match operand {
        Operand::Named(name) => Slot::At(place(known, name)),
        Operand::Constant { width: _, value } => Slot::Number(*value),
    }
}

fn operand_width(known: &Known, operand: &Operand) -> u32
    requires { IsKnownOperand known.now operand.now }
    ensures { result ≡ width_found known.now operand.now }
{
    match operand {
        Operand::Named(name) => known.widths[place(known, name)],
        Operand::Constant { width, value: _ } => *width,
    }
}

/// Adds the parts of a concatenation.
fn push_parts(known: &Known, parts: &mut Vec<Part>, operands: &[Operand]) -> Result<(), AllocError>
    requires { AllByRecursion (IsKnownOperand known.now) operands.now }
    ensures { OnOk result (parts.new.items ≡ parts.old.items ++ map (part_found known.now) operands.now) }
{
    for operand in operands {
        let slot = slot_of(known, operand);
        let width = operand_width(known, operand);
        parts.push(Part { slot, width })?;
    }
    Ok(())
}

/// The step of a concatenation of two operands.
fn pair_of(known: &Known, first: &Operand, second: &Operand) -> Step
    requires first { IsKnownOperand known.now first.now }
    requires second { IsKnownOperand known.now second.now }
    ensures { result ≡ pair_found known.now first.now second.now }
{
    Step::Pair(
        operand_width(known, second),
        slot_of(known, first),
        slot_of(known, second),
    )
}

/// The step of a concatenation, and its parts.
fn concat_of(known: &Known, parts: &mut Vec<Part>, operands: &[Operand]) -> Result<Step, AllocError>
    requires { AllByRecursion (IsKnownOperand known.now) operands.now }
    ensures step { IfOk result (λ s. s ≡ concat_found known.now (length parts.old.items) operands.now) }
    ensures parts { OnOk result (parts.new.items ≡ parts.old.items ++ concat_parts known.now operands.now) }
{
    if operands.len() == 2 {
        return Ok(pair_of(known, &operands[0], &operands[1]));
    }
    let from = parts.len();
    push_parts(known, parts, operands)?;
    Ok(Step::Concat(from, parts.len()))
}

/// The step of a right side, and the parts of a concatenation.
pub fn step_of(known: &Known, parts: &mut Vec<Part>, right: &Right) -> Result<Step, AllocError>
    requires { IsKnownRight known.now right.now }
    ensures step { IfOk result (λ s. s ≡ step_found known.now (length parts.old.items) right.now) }
    ensures parts { OnOk result (parts.new.items ≡ parts.old.items ++ parts_found known.now right.now) }
{
    match right {
        Right::Copy(a) => Ok(Step::Copy(slot_of(known, a))),
        Right::One(op, a) => Ok(Step::One(*op, operand_width(known, a), slot_of(known, a))),
        Right::Two(op, a, b) => Ok(Step::Two(
            *op,
            operand_width(known, a),
            slot_of(known, a),
            slot_of(known, b),
        )),
        Right::Choose(c, a, b) => Ok(Step::Choose(
            slot_of(known, c),
            slot_of(known, a),
            slot_of(known, b),
        )),
        Right::Concat(operands) => concat_of(known, parts, operands.as_slice()),
        Right::Slice { name, hi, lo } => Ok(Step::Slice(Slot::At(place(known, name)), *hi, *lo)),
        Right::Cell { memory, index } => Ok(Step::Cell(base(known, memory), slot_of(known, index))),
    }
}
