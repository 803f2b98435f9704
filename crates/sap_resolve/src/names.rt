//! Numbers of names.

ghost use Rattle.std.specs.Prelude.{◌≡◌};
ghost use Rattle.sap_resolved.specs.Terms as terms;
ghost use Rattle.sap_resolved.specs.Worlds as worlds;

use sap_lattice::lattice::Lattice;
use sap_lattice::level::Level;
use sap_names::table::Names;
use sap_tree::name::{Mention, Name};

/// The number of an entity, 0 for a name of none.
pub(crate) fn entity_number(names: &Names, name: &Name) -> usize
    ensures { result ≡ terms.entity_number names.now name.now }
{
    match names.number(name) {
        Some(number) => number as usize,
        None => 0,
    }
}

/// The level of this name, that behind the last where it is none.
pub(crate) fn level_named(lattice: &Lattice, level: &Mention) -> Level
    ensures { result ≡ worlds.level_number lattice.now level.now }
{
    lattice.lawful();
    let behind = Level::new(lattice.count() as u8);
    lattice.level_named(level.name.as_bytes()).unwrap_or(behind)
}
