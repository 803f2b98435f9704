//! Tables by name.

ghost use Rattle.std.specs.Prelude.{◌≡◌, ℕ, List, [], ◌∷◌, ◌++◌, length, IfOk, OnOk};
ghost use Rattle.sap_net.specs.NameMaps.{AtPlaces, Puts};
ghost use Rattle.sap_net.specs.Names.{is_among};
ghost use Rattle.sap_share.specs.NameTables.{of_name};

use sap_net::parts::Name;
use std::alloc::{AllocError, Global};
use std::collections::HashMap;

/// Gives a name this value, in place of what it had.
pub fn put<V: Drop>(
    table: &mut HashMap<Name, V>,
    alloc: Global,
    name: &Name,
    value: V,
) -> Result<(), AllocError>
    ensures { OnOk result (Puts (of_name table.old) name.now value (of_name table.new)) }
{
    let key = name.copy(alloc)?;
    table.insert(key, value)?;
    Ok(())
}

/// The number that a table has for a name.
pub fn at_name(numbers: &HashMap<Name, usize>, name: &Name) -> Option<usize>
    ensures { result ≡ of_name numbers.now name.now }
{
    numbers.get(name).copied()
}

/// Whether a name stands on the list whose places these are.
pub fn is_indexed(places: &HashMap<Name, usize>, name: &Name) -> bool
    ensures { (names : List (List ℕ)) → AtPlaces (of_name places.now) names → result ≡ is_among name.now names }
{
    at_name(places, name).is_some()
}

/// One more name of a list, which has this place, unless it has one already.
pub fn index(
    places: &mut HashMap<Name, usize>,
    alloc: Global,
    name: &Name,
    place: usize,
) -> Result<(), AllocError>
    ensures { OnOk result ((names : List (List ℕ)) → length names ≡ place → AtPlaces (of_name places.old) names → AtPlaces (of_name places.new) (names ++ name.now ∷ [])) }
{
    let key = name.copy(alloc)?;
    // A name that stood further in front has its place back.
    if let Some(first) = places.insert(key, place)? {
        put(places, alloc, name, first)?;
    }
    Ok(())
}

/// The places of the names of a list.
pub fn index_names(alloc: Global, names: &[Name]) -> Result<HashMap<Name, usize>, AllocError>
    ensures { IfOk result (λ m. AtPlaces (of_name m) names.now) }
{
    let mut places = HashMap::new(alloc);
    for (k, name) in names.iter().enumerate() {
        index(&mut places, alloc, name, k)?;
    }
    Ok(places)
}
