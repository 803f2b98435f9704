//! Expressions to wires of one operator each.

ghost use Rattle.std.specs.Prelude.{◌≡◌, ◌-◌, ◌+◌, ◌<◌, ◌≤◌, map, length, take, IfOk, OnOk};
ghost use Rattle.sap_bits.specs.Arithmetic.{width1, width2};
ghost use Rattle.sap_ir.specs.Calcs.{term_of};
ghost use Rattle.sap_lower.specs.Lowering.{cell_width, leaves_nothing, low, low_join, low_slice, low_two, nothing, present};
ghost use Rattle.sap_lower.specs.Parts.{glued, low_all};
ghost use Rattle.sap_lower.specs.Reads.{entries_seen};

use crate::calculation::calculate;
use crate::facts::Fact;
use crate::parts::Part;
use crate::reads::{CHOICES, seen};
use crate::wires::Wires;
use sap_bits::{Op1, Op2, slice};
use sap_ir::guarded::Calc;
use sap_net::parts::{Name, Operand, Operands, Right};
use sap_share::table::Table;
use std::alloc::{AllocError, Global};

/// The operand of what has no part.
pub fn nothing_yet() -> Part
    ensures { result ≡ nothing }
{
    Part {
        operand: Operand::Constant { width: 0, value: 0 },
        width: 0,
    }
}

/// What a name stands for.
pub fn present_part(alloc: Global, entries: &Table<Part>, name: &Name) -> Result<Part, AllocError>
    ensures { IfOk result (λ p. p ≡ present entries.now name.now) }
{
    match entries.get(name) {
        Some(part) => part.copy(alloc),
        None => Ok(nothing_yet()),
    }
}

/// What a name stands for where the facts hold.
pub fn seen_part(
    alloc: Global,
    wires: &Wires,
    entries: &Table<Part>,
    facts: &[Fact],
    before: usize,
    name: &Name,
) -> Result<Part, AllocError>
    ensures { IfOk result (λ p. p ≡ present (entries_seen (take before wires.now) facts.now entries.now) name.now) }
{
    match entries.get(name) {
        Some(part) => {
            let operand = seen(facts, wires, before, CHOICES, &part.operand);
            let operand = operand.copy(alloc)?;
            Ok(Part {
                operand,
                width: part.width,
            })
        }
        None => Ok(nothing_yet()),
    }
}

/// The width of a memory's cells.
fn width_of_cells(memories: &Table<(u32, u32)>, memory: &Name) -> u32
    ensures { result ≡ cell_width memories.now memory.now }
{
    match memories.get(memory) {
        Some(shape) => shape.0,
        None => 0,
    }
}

fn width_one(op: Op1, w: u32) -> u32
    ensures { result ≡ width1 op w }
{
    match op {
        Op1::Not | Op1::Neg => w,
        _ => 1,
    }
}

fn width_two(op: Op2, w: u32) -> u32
    ensures { result ≡ width2 op w }
{
    match op {
        Op2::Eq | Op2::Ne | Op2::Lt | Op2::Le => 1,
        _ => w,
    }
}

/// Whether a shift by this count leaves nothing, as is known from the count alone.
fn is_shift_past(op: Op2, width: u32, count: &Operand) -> bool
    ensures { result ≡ leaves_nothing op width count.now }
{
    match (op, count) {
        (Op2::Shl | Op2::Shr, Operand::Constant { value, .. }) => u64::from(width) <= *value,
        _ => false,
    }
}

fn lower_two(
    alloc: Global,
    wires: &mut Wires,
    op: Op2,
    a: Part,
    b: Part,
) -> Result<Part, AllocError>
    ensures wires { OnOk result (wires.new ≡ (low_two op a b wires.old).wires) }
    ensures part { IfOk result (λ p. p ≡ (low_two op a b wires.old).part) }
{
    if is_shift_past(op, a.width, &b.operand) {
        return Ok(Part {
            operand: Operand::Constant {
                width: a.width,
                value: 0,
            },
            width: a.width,
        });
    }
    calculate(
        alloc,
        wires,
        width_two(op, a.width),
        Right::Two(op, a.operand, b.operand),
    )
}

fn lower_slice(
    alloc: Global,
    wires: &mut Wires,
    of: Operand,
    hi: u32,
    lo: u32,
) -> Result<Part, AllocError>
    ensures wires { OnOk result (wires.new ≡ (low_slice of hi lo wires.old).wires) }
    ensures part { IfOk result (λ p. p ≡ (low_slice of hi lo wires.old).part) }
{
    if hi < lo || 63 < hi {
        return Ok(nothing_yet());
    }
    let width = hi + 1 - lo;
    match of {
        Operand::Named(name) => wires.add(alloc, width, Right::Slice { name, hi, lo }),
        Operand::Constant { value, .. } => Ok(Part {
            operand: Operand::Constant {
                width,
                value: slice(value, hi, lo),
            },
            width,
        }),
    }
}

/// The first in front of the second. Widths are at most 64 in all.
fn lower_join(alloc: Global, wires: &mut Wires, a: Part, b: Part) -> Result<Part, AllocError>
    ensures wires { OnOk result (wires.new ≡ (low_join a b wires.old).wires) }
    ensures part { IfOk result (λ p. p ≡ (low_join a b wires.old).part) }
{
    let width = a.width.wrapping_add(b.width);
    let operands = vec![in alloc; a.operand, b.operand]?;
    wires.add(alloc, width, Right::Concat(Operands::new(operands)))
}

/// The parts one behind another.
fn glue(alloc: Global, wires: &mut Wires, parts: Vec<Part>) -> Result<Part, AllocError>
    ensures wires { OnOk result (wires.new ≡ (glued wires.old parts.items).wires) }
    ensures part { IfOk result (λ p. p ≡ (glued wires.old parts.items).part) }
{
    let mut front = parts;
    let Some(last) = front.pop() else {
        return Ok(nothing_yet());
    };
    let mut whole = last;
    while let Some(part) = front.pop() {
        whole = lower_join(alloc, wires, part, whole)?;
    }
    Ok(whole)
}

/// The operand that has an expression's value, after some more wires.
#[cycle(lower)]
#[tactic(auto, using(crate::proofs::Front::low_take, crate::proofs::Front::low_longer))]
pub fn lower_calc(
    alloc: Global,
    wires: &mut Wires,
    entries: &Table<Part>,
    facts: &[Fact],
    before: usize,
    memories: &Table<(u32, u32)>,
    calc: &Calc,
) -> Result<Part, AllocError>
    requires { before ≤ length wires.old }
    ensures wires { OnOk result (wires.new ≡ (low memories.now (entries_seen (take before wires.old) facts.now entries.now) (term_of calc.now) wires.old).wires) }
    ensures part { IfOk result (λ p. p ≡ (low memories.now (entries_seen (take before wires.old) facts.now entries.now) (term_of calc.now) wires.old).part) }
    ensures front { OnOk result (take before wires.new ≡ take before wires.old) }
    ensures longer { OnOk result (before ≤ length wires.new) }
{
    match calc {
        Calc::Constant { width, value } => Ok(Part {
            operand: Operand::Constant {
                width: *width,
                value: *value,
            },
            width: *width,
        }),
        Calc::Read(name) => seen_part(alloc, wires, entries, facts, before, name),
        Calc::Cell { memory, index } => {
            let index = lower_calc(alloc, wires, entries, facts, before, memories, index)?;
            let width = width_of_cells(memories, memory);
            let memory = memory.copy(alloc)?;
            wires.add(
                alloc,
                width,
                Right::Cell {
                    memory,
                    index: index.operand,
                },
            )
        }
        Calc::One(op, a) => {
            let a = lower_calc(alloc, wires, entries, facts, before, memories, a)?;
            calculate(
                alloc,
                wires,
                width_one(*op, a.width),
                Right::One(*op, a.operand),
            )
        }
        Calc::Two(op, a, b) => {
            let a = lower_calc(alloc, wires, entries, facts, before, memories, a)?;
            let b = lower_calc(alloc, wires, entries, facts, before, memories, b)?;
            lower_two(alloc, wires, *op, a, b)
        }
        Calc::Choose(c, a, b) => {
            let c = lower_calc(alloc, wires, entries, facts, before, memories, c)?;
            let a = lower_calc(alloc, wires, entries, facts, before, memories, a)?;
            let b = lower_calc(alloc, wires, entries, facts, before, memories, b)?;
            calculate(
                alloc,
                wires,
                a.width,
                Right::Choose(c.operand, a.operand, b.operand),
            )
        }
        Calc::Concat(parts) => {
            let parts = lower_all(alloc, wires, entries, facts, before, memories, parts)?;
            glue(alloc, wires, parts)
        }
        Calc::Slice { of, hi, lo } => {
            let of = lower_calc(alloc, wires, entries, facts, before, memories, of)?;
            lower_slice(alloc, wires, of.operand, *hi, *lo)
        }
    }
}

/// The operands of some expressions, one after another.
#[cycle(lower)]
fn lower_all(
    alloc: Global,
    wires: &mut Wires,
    entries: &Table<Part>,
    facts: &[Fact],
    before: usize,
    memories: &Table<(u32, u32)>,
    calcs: &[Calc],
) -> Result<Vec<Part>, AllocError>
    requires { before ≤ length wires.old }
    ensures wires { OnOk result (wires.new ≡ (low_all memories.now (entries_seen (take before wires.old) facts.now entries.now) (map term_of calcs.now) wires.old).wires) }
    ensures parts { IfOk result (λ ps. ps.items ≡ (low_all memories.now (entries_seen (take before wires.old) facts.now entries.now) (map term_of calcs.now) wires.old).parts) }
    ensures front { OnOk result (take before wires.new ≡ take before wires.old) }
    ensures longer { OnOk result (before ≤ length wires.new) }
{
    let mut parts = Vec::new(alloc);
    for calc in calcs {
        let part = lower_calc(alloc, wires, entries, facts, before, memories, calc)?;
        parts.push(part)?;
    }
    Ok(parts)
}
