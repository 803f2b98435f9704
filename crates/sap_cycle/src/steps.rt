//! Operators over an array of numbers.

ghost use Rattle.std.specs.Prelude.{◌≡◌, ◌≤◌, ◌+◌, length, map};
ghost use Rattle.sap_cycle.specs.Steps.{slot_value, joined_from, step_value, SlotIn, ArePartsReady, IsReady, AreIn, copied, ArePortsReady, stored};

use sap_bits::{Op1, Op2, apply1, apply2, concat, slice};

/// What an operator reads: a place in the array of values, or a number.
#[derive(Clone, Copy)]
pub enum Slot {
    At(usize),
    Number(u64),
}

/// An operand of a concatenation.
#[derive(Clone, Copy)]
pub struct Part {
    pub slot: Slot,
    pub width: u32,
}

/// The right side of a wire over places.
#[derive(Clone, Copy)]
pub enum Step {
    Copy(Slot),
    One(Op1, u32, Slot),
    Two(Op2, u32, Slot, Slot),
    Choose(Slot, Slot, Slot),
    /// The parts from the first place up to the second.
    Concat(usize, usize),
    /// Two parts, of which the second has this width.
    Pair(u32, Slot, Slot),
    Slice(Slot, u32, u32),
    /// A memory whose cells begin at a place in the array of cells, and the index in it.
    Cell(usize, Slot),
}

/// The write port of a memory whose cells begin at `base`.
#[derive(Clone, Copy)]
pub struct WritePort {
    pub base: usize,
    pub enable: Slot,
    pub index: Slot,
    pub value: Slot,
}

pub fn read(values: &[u64], slot: Slot) -> u64
    requires { SlotIn values.now slot }
    ensures { result ≡ slot_value values.now slot }
{
    match slot {
        Slot::At(k) => values[k],
        Slot::Number(x) => x,
    }
}

/// The number of some parts, the foremost first.
pub fn join(values: &[u64], parts: &[Part]) -> u64
    requires { ArePartsReady values.now 0 parts.now }
    ensures { result ≡ joined_from values.now 0 parts.now }
{
    let mut all: u64 = 0;
    for part in parts {
        all = concat(all, part.width, read(values, part.slot));
    }
    all
}

/// The number of a step.
pub fn evaluate(values: &[u64], cells: &[u64], parts: &[Part], step: Step) -> u64
    requires { IsReady values.now cells.now parts.now step }
    ensures { result ≡ step_value values.now cells.now parts.now step }
{
    match step {
        Step::Copy(a) => read(values, a),
        Step::One(op, w, a) => apply1(op, w, read(values, a)),
        Step::Two(op, w, a, b) => apply2(op, w, read(values, a), read(values, b)),
        Step::Choose(c, a, b) => {
            if read(values, c) == 0 {
                read(values, b)
            } else {
                read(values, a)
            }
        }
        Step::Concat(from, to) => join(values, &parts[from..to]),
        Step::Pair(w, a, b) => concat(read(values, a), w, read(values, b)),
        Step::Slice(a, hi, lo) => slice(read(values, a), hi, lo),
        Step::Cell(base, index) => cells[base + read(values, index) as usize],
    }
}

/// Copies numbers to a place.
pub fn copy_to(values: &mut [u64], at: usize, numbers: &[u64])
    requires { at + length numbers.now ≤ length values.old }
    ensures { values.new ≡ copied at numbers.now values.old }
{
    values[at..at + numbers.len()].copy_from_slice(numbers);
}

/// Reads several slots at once.
pub fn read_all(out: &mut [u64], values: &[u64], slots: &[Slot])
    requires same { length out.old ≡ length slots.now }
    requires within { AreIn values.now slots.now }
    ensures { out.new ≡ map (slot_value values.now) slots.now }
{
    for (i, slot) in slots.iter().enumerate() {
        out[i] = read(values, *slot);
    }
}

/// All writes of memories. No port reads a cell, so their order makes no difference.
pub fn store_all(cells: &mut [u64], values: &[u64], ports: &[WritePort])
    requires { ArePortsReady values.now ports.now cells.old }
    ensures { cells.new ≡ stored values.now ports.now cells.old }
{
    for port in ports {
        if read(values, port.enable) == 1 {
            cells[port.base + read(values, port.index) as usize] = read(values, port.value);
        }
    }
}
