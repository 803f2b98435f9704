//! The row of a block.

ghost use Rattle.std.specs.Prelude.{◌≡◌, ◌≤◌, List, IfOk, length};
ghost use Rattle.sap_sim.specs.Shown.{row_of};
ghost use Rattle.sap_stim.specs.Rows.{AreLevelTexts, HoldsRows, row_text, shown_of};
ghost use Rattle.sap_wave.specs.declared.variable.Variable.{Variable as OfWave};
ghost use Rattle.sap_wave_rows.specs.Places.{numbers_at, tag_places, value_places};
ghost use Rattle.sap_wave_rows.specs.Held.{IsHeld};
ghost use Rattle.sap_wave_rows.specs.Rows.{by_name};

use crate::shown::Shown;
use sap_desk::RowBuf;
use sap_lattice::Lattice;
use sap_net::parts::Name;
use sap_sim::simulation::zeros;
use sap_stim::{
    RowHead, RowLabel, Short, labelled_row_into, labels_of, level_texts, row_array, row_room,
};
use std::alloc::{AllocError, Global};

/// What each row is made with: its front, the labels of its registers and the texts of levels, the numbers that it shows, an
/// array that it is written to first, and a buffer that has room for any row.
#[derive(Drop)]
pub struct Held {
    pub head: RowHead,
    pub labels: Vec<RowLabel>,
    pub levels: Vec<Short>,
    pub values: Vec<u64>,
    pub tags: Vec<u64>,
    pub array: Vec<u8>,
    pub row: RowBuf,
}

/// What the rows of the registers of these names are made with.
pub(crate) fn held_for(alloc: Global, lattice: &Lattice, names: &[Name]) -> Result<Held, AllocError>
    ensures { IfOk result (IsHeld lattice.now names.now) }
{
    let Some(room) = row_room(names, lattice) else {
        return Err(AllocError);
    };
    Ok(Held {
        head: RowHead::new(0),
        labels: labels_of(alloc, names)?,
        levels: level_texts(alloc, lattice)?,
        values: zeros(alloc, names.len())?,
        tags: zeros(alloc, names.len())?,
        array: row_array(alloc, room)?,
        row: RowBuf::new(alloc, room)?,
    })
}

/// Takes the numbers at places, in place of others; 0 where there is none.
fn take_numbers(seen: &mut [u64], numbers: &[u64], places: &[usize])
    requires { length seen.old ≡ length places.now }
    ensures { seen.new ≡ numbers_at numbers.now places.now }
{
    for k in 0..places.len() {
        seen[k] = numbers.get(places[k]).copied().unwrap_or(0);
    }
}

/// Writes the row of a cycle in place of what stands in a buffer that has room for any row.
fn write_row(
    row: &mut RowBuf,
    array: &mut [u8],
    head: &mut RowHead,
    cycle: u64,
    labels: &[RowLabel],
    values: &[u64],
    tags: &[u64],
    levels: &[Short],
    lattice: &Lattice,
)
    requires values { length values.now ≡ length labels.now }
    requires tags { length tags.now ≡ length labels.now }
    requires levels { AreLevelTexts lattice.now levels.now }
    requires room { HoldsRows lattice.now labels.now row.old.room }
    ensures text { row.new.bytes ≡ row_text cycle (shown_of lattice.now labels.now values.now tags.now) }
    ensures room { row.old.room ≤ row.new.room }
{
    row.clear();
    labelled_row_into(
        row, array, head, cycle, labels, values, tags, levels, lattice,
    );
}

/// Makes the row of a block, in place of the one that is held. It takes no memory.
pub(crate) fn make_row(
    held: &mut Held,
    cycle: u64,
    numbers: &[u64],
    shown: &Shown,
    lattice: &Lattice,
)
    requires held { IsHeld lattice.now shown.now.names.items held.old }
    requires values { length shown.now.values.items ≡ length shown.now.names.items }
    requires tags { length shown.now.tags.items ≡ length shown.now.names.items }
    ensures row { (vs : List OfWave) → shown.now.values.items ≡ value_places vs shown.now.names.items → shown.now.tags.items ≡ tag_places vs shown.now.names.items
        → held.new.row.bytes ≡ row_of lattice.now shown.now.names.items cycle (by_name vs numbers.now) }
    ensures held { IsHeld lattice.now shown.now.names.items held.new }
{
    take_numbers(&mut held.values, numbers, &shown.values);
    take_numbers(&mut held.tags, numbers, &shown.tags);
    write_row(
        &mut held.row,
        &mut held.array,
        &mut held.head,
        cycle,
        &held.labels,
        &held.values,
        &held.tags,
        &held.levels,
        lattice,
    );
}
