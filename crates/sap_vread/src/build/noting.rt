//! What is noted of ports and items.

ghost use Rattle.std.specs.Prelude.{◌≡◌, ℕ, List, OnOk};
ghost use Rattle.sap_vtext.specs.Modules.{first_of};
ghost use Rattle.sap_vread.specs.Build.Firsts.{number_of};
ghost use Rattle.sap_vread.specs.Build.Noted as spec;
ghost use Rattle.sap_vparse.specs.Views.{item_of, items_of, ports_of};

use crate::build::firsts::Firsts;
use sap_vparse::items::{Item, Port};
use std::alloc::{AllocError, Global};

/// What of the items is noted under their names.
#[derive(Clone, Copy)]
pub enum Noting {
    /// The number of a declaration's range.
    Range,
    /// The number of an `initial`.
    Start,
    /// The place of a register's `always` among the items.
    Next,
    /// The place of a memory's `always` among the items.
    Write,
}

fn note_range(alloc: Global, firsts: &mut Firsts, item: &Item) -> Result<(), AllocError>
    ensures { OnOk result ((n : List ℕ) → number_of firsts.new n ≡ first_of (number_of firsts.old n) (spec.range_noted n (item_of item.now))) }
{
    match item {
        Item::Wire(range, x) => firsts.note(alloc, &x.name, range.value),
        Item::Register(range, x) => firsts.note(alloc, &x.name, range.value),
        Item::Memory(range, x, _) => firsts.note(alloc, &x.name, range.value),
        _ => Ok(()),
    }
}

fn note_start(alloc: Global, firsts: &mut Firsts, item: &Item) -> Result<(), AllocError>
    ensures { OnOk result ((n : List ℕ) → number_of firsts.new n ≡ first_of (number_of firsts.old n) (spec.start_noted n (item_of item.now))) }
{
    match item {
        Item::Initial(x, value) => firsts.note(alloc, &x.name, value.value),
        Item::InitialCells(_, _, x, value) => firsts.note(alloc, &x.name, value.value),
        _ => Ok(()),
    }
}

fn note_next(alloc: Global, firsts: &mut Firsts, place: u64, item: &Item) -> Result<(), AllocError>
    ensures { OnOk result ((n : List ℕ) → number_of firsts.new n ≡ first_of (number_of firsts.old n) (spec.next_noted n place (item_of item.now))) }
{
    match item {
        Item::Always(x, _) => firsts.note(alloc, &x.name, place),
        _ => Ok(()),
    }
}

fn note_write(alloc: Global, firsts: &mut Firsts, place: u64, item: &Item) -> Result<(), AllocError>
    ensures { OnOk result ((n : List ℕ) → number_of firsts.new n ≡ first_of (number_of firsts.old n) (spec.write_noted n place (item_of item.now))) }
{
    match item {
        Item::AlwaysCell(_, x, _, _) => firsts.note(alloc, &x.name, place),
        _ => Ok(()),
    }
}

fn note_item(
    alloc: Global,
    firsts: &mut Firsts,
    noting: Noting,
    place: u64,
    item: &Item,
) -> Result<(), AllocError>
    ensures { OnOk result ((n : List ℕ) → number_of firsts.new n ≡ first_of (number_of firsts.old n) (spec.noted noting n place (item_of item.now))) }
{
    match noting {
        Noting::Range => note_range(alloc, firsts, item),
        Noting::Start => note_start(alloc, firsts, item),
        Noting::Next => note_next(alloc, firsts, place, item),
        Noting::Write => note_write(alloc, firsts, place, item),
    }
}

/// Notes what of these items is first said of each name.
pub fn note_items(
    alloc: Global,
    firsts: &mut Firsts,
    noting: Noting,
    items: &[Item],
) -> Result<(), AllocError>
    ensures { OnOk result ((n : List ℕ) → number_of firsts.new n ≡ first_of (number_of firsts.old n) (spec.all_noted noting n 0 (items_of items.now))) }
{
    for (place, item) in items.iter().enumerate() {
        note_item(alloc, firsts, noting, place as u64, item)?;
    }
    Ok(())
}

/// Notes the number of each port's range.
pub fn note_ports(alloc: Global, firsts: &mut Firsts, ports: &[Port]) -> Result<(), AllocError>
    ensures { OnOk result ((n : List ℕ) → number_of firsts.new n ≡ first_of (number_of firsts.old n) (spec.ports_noted n (ports_of ports.now))) }
{
    for port in ports {
        firsts.note(alloc, &port.name.name, port.range.value)?;
    }
    Ok(())
}
