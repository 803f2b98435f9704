//! An order of the steps in which each finds what it reads.

ghost use Rattle.std.specs.Prelude.{◌≡◌, ◌+◌, ◌++◌, false, true, length, map, replicate, slice_set, IfOk, IfSome, OnOk};
ghost use Rattle.std.specs.List.{AllByRecursion};
ghost use Rattle.sap_cycle.specs.Instructions.{step_of_instruction, placed_step};
ghost use Rattle.sap_cycle.specs.Order.{IsMarked, IsOrder, IsOwn, PartsAmong, ReadsAmong, SlotAmong, in_row};

use crate::instructions::{Instruction, Placed, step_of};
use crate::sort::by_depth;
use crate::steps::{Part, Slot, Step};
use std::alloc::{AllocError, Global};

/// The steps in the order that they have.
fn in_own_order(
    alloc: Global,
    base: usize,
    places: usize,
    steps: &[Instruction],
) -> Result<Vec<Placed>, AllocError>
    requires room { base + length steps.now ≡ places }
    ensures { IfOk result (λ v. v.items ≡ in_row base steps.now) }
{
    let mut placed = Vec::new(alloc);
    for (i, instruction) in steps.iter().enumerate() {
        placed.push(Placed {
            target: base + i,
            instruction: *instruction,
        })?;
    }
    Ok(placed)
}

/// Whether the place that a slot names, if any, is marked.
fn is_found(marks: &[bool], slot: Slot) -> bool
    ensures { result ≡ true → SlotAmong (IsMarked marks.now) slot }
{
    match slot {
        Slot::At(place) => match marks.get(place) {
            Some(mark) => *mark,
            None => false,
        },
        Slot::Number(_) => true,
    }
}

fn parts_found(marks: &[bool], parts: &[Part]) -> bool
    ensures { result ≡ true → PartsAmong (IsMarked marks.now) parts.now }
{
    for part in parts {
        if !is_found(marks, part.slot) {
            return false;
        }
    }
    true
}

/// Whether all places that a step reads are marked.
fn all_found(marks: &[bool], parts: &[Part], step: Step) -> bool
    ensures { result ≡ true → ReadsAmong (IsMarked marks.now) parts.now step }
{
    match step {
        Step::Copy(a) => is_found(marks, a),
        Step::One(_, _, a) => is_found(marks, a),
        Step::Two(_, _, a, b) => is_found(marks, a) && is_found(marks, b),
        Step::Choose(c, a, b) => { is_found(marks, c) && is_found(marks, a) && is_found(marks, b) }
        Step::Concat(from, to) => match parts.get(from..to) {
            Some(range) => parts_found(marks, range),
            None => false,
        },
        Step::Pair(_, a, b) => is_found(marks, a) && is_found(marks, b),
        Step::Slice(a, _, _) => is_found(marks, a),
        Step::Cell(_, a) => is_found(marks, a),
    }
}

fn all_marked(marks: &[bool]) -> bool
    ensures { result ≡ true → AllByRecursion (λ m. m ≡ true) marks.now }
{
    for mark in marks {
        if !*mark {
            return false;
        }
    }
    true
}

fn push_marks(marks: &mut Vec<bool>, count: usize, mark: bool) -> Result<(), AllocError>
    ensures { OnOk result (marks.new.items ≡ marks.old.items ++ replicate count mark) }
{
    for i in 0..count {
        marks.push(mark)?;
    }
    Ok(())
}

/// A mark for each place, of which the first are set.
fn first_marks(alloc: Global, base: usize, more: usize) -> Result<Vec<bool>, AllocError>
    ensures { IfOk result (λ m. m.items ≡ replicate base true ++ replicate more false) }
{
    let mut marks = Vec::new(alloc);
    push_marks(&mut marks, base, true)?;
    push_marks(&mut marks, more, false)?;
    Ok(marks)
}

fn mark(marks: &mut [bool], place: usize)
    ensures { marks.new ≡ slice_set marks.old place true }
{
    if place < marks.len() {
        marks[place] = true;
    }
}

/// A step with its place, if all that it reads is marked.
fn place(
    base: usize,
    places: usize,
    marks: &[bool],
    parts: &[Part],
    others: &[Step],
    steps: &[Instruction],
    number: usize,
) -> Option<Placed>
    requires room { base + length steps.now ≡ places }
    ensures own { IfSome result (λ p. IsOwn base (map (step_of_instruction others.now) steps.now) (placed_step others.now p)) }
    ensures reads { IfSome result (λ p. ReadsAmong (IsMarked marks.now) parts.now (step_of_instruction others.now p.instruction)) }
{
    match steps.get(number) {
        None => None,
        Some(instruction) => {
            if all_found(marks, parts, step_of(others, instruction)) {
                Some(Placed {
                    target: base + number,
                    instruction: *instruction,
                })
            } else {
                None
            }
        }
    }
}

/// The steps in this order, if each finds what it reads.
fn arrange(
    alloc: Global,
    base: usize,
    marks: &mut [bool],
    parts: &[Part],
    others: &[Step],
    steps: &[Instruction],
    order: &[usize],
) -> Result<Option<Vec<Placed>>, AllocError>
    requires room { base + length steps.now ≡ length marks.old }
    requires first { marks.old ≡ replicate base true ++ replicate (length steps.now) false }
    ensures { IfOk result (λ o. IfSome o (λ v. IsOrder base parts.now (map (step_of_instruction others.now) steps.now) (map (placed_step others.now) v.items))) }
{
    let mut placed = Vec::new(alloc);
    let places = marks.len();
    for number in order {
        match place(base, places, marks, parts, others, steps, *number) {
            None => return Ok(None),
            Some(next) => {
                placed.push(next)?;
                mark(marks, next.target);
            }
        }
    }
    if all_marked(marks) {
        Ok(Some(placed))
    } else {
        Ok(None)
    }
}

/// The steps by how deep they stand and what they do, if each finds what it reads so, or else in the order that they
/// have.
pub fn in_order(
    alloc: Global,
    base: usize,
    places: usize,
    parts: &[Part],
    others: &[Step],
    steps: &[Instruction],
) -> Result<Vec<Placed>, AllocError>
    requires room { base + length steps.now ≡ places }
    requires own { IsOrder base parts.now (map (step_of_instruction others.now) steps.now) (map (placed_step others.now) (in_row base steps.now)) }
    ensures { IfOk result (λ v. IsOrder base parts.now (map (step_of_instruction others.now) steps.now) (map (placed_step others.now) v.items)) }
{
    let order = by_depth(alloc, base, parts, others, steps)?;
    let mut marks = first_marks(alloc, base, steps.len())?;
    match arrange(alloc, base, &mut marks, parts, others, steps, &order)? {
        Some(placed) => Ok(placed),
        None => in_own_order(alloc, base, places, steps),
    }
}
