//! How much room rows take.

ghost use Rattle.std.specs.Prelude.{◌≡◌, ◌≤◌, ◌<◌, ◌^◌, ◌⊎◌, ℕ, IfNone, IfOk, IfSome, length};
ghost use Rattle.sap_lattice.specs.Closure.{name_at};
ghost use Rattle.sap_stim.specs.Rows.{HoldsRows};

use crate::short::MOST_SHORT;
use sap_lattice::lattice::Lattice;
use sap_lattice::name::Name;
use std::alloc::{AllocError, Global};

/// The most bytes in the text of a level: a name, or `#` and 20 digits.
pub fn longest_level(lattice: &Lattice) -> usize
    ensures number { 21 ≤ result }
    ensures names { (k : ℕ) → k < length lattice.now.names → length (name_at lattice.now.names k) ≤ result }
    ensures some { (result ≡ 21) ⊎ ((k : ℕ) × (k < length lattice.now.names) × (length (name_at lattice.now.names k) ≡ result)) }
{
    let mut longest = 21;
    for place in 0..u64::from(lattice.count()) {
        let level = lattice.level_at(place);
        longest = lattice.name(level).as_bytes().len().max(longest);
    }
    longest
}

/// For how many bytes a buffer needs room to take any row of the registers of these names: the fewest. There is
/// no answer where they are 2^64 or more, so that there can't be such a buffer.
pub fn row_room(names: &[Name], lattice: &Lattice) -> Option<usize>
    ensures holds { IfSome result (HoldsRows lattice.now names.now) }
    ensures least { IfSome result (λ room. (other : ℕ) → HoldsRows lattice.now names.now other → room ≤ other) }
    ensures none { IfNone result ((other : ℕ) → HoldsRows lattice.now names.now other → 2 ^ 64 ≤ other) }
{
    lattice.lawful();
    let level = longest_level(lattice);
    let mut room = 28usize;
    for name in names {
        let size = name.as_bytes().len().checked_add(level)?.checked_add(23)?;
        room = room.checked_add(size)?;
    }
    Some(room)
}

/// An array for rows that take this room, with some to spare for copies of short texts.
pub fn row_array(alloc: Global, room: usize) -> Result<Vec<u8>, AllocError>
    ensures { IfOk result (λ array. room ≤ length array.items) }
{
    let mut array = Vec::new(alloc);
    array.resize(room.saturating_add(MOST_SHORT), 0)?;
    Ok(array)
}
