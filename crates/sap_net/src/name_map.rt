//! Maps from names.

ghost use Rattle.std.specs.Prelude.{◌≡◌, ℕ, List, [], ◌∷◌, ◌++◌, length, IfOk, OnOk};
ghost use Rattle.sap_net.specs.NameMaps.{Indexes, Puts, at_name};
ghost use Rattle.sap_net.specs.Names.{is_among};

use crate::parts::Name;
use std::alloc::{AllocError, Global};
use std::collections::HashMap;

/// Gives a name this value, in place of what it had.
pub fn put<V: Drop>(
    map: &mut HashMap<Vec<u8>, V>,
    alloc: Global,
    name: &Name,
    value: V,
) -> Result<(), AllocError>
    ensures { OnOk result (Puts (at_name map.old) name.now value (at_name map.new)) }
{
    let key = name.as_bytes().to_vec(alloc)?;
    map.insert(key, value)?;
    Ok(())
}

/// The number that a map has for a name.
pub fn at_name(numbers: &HashMap<Vec<u8>, usize>, name: &[u8]) -> Option<usize>
    ensures { result ≡ at_name numbers.now name.now }
{
    numbers.get(name).copied()
}

/// Whether a name stands on the list whose places these are.
pub fn is_indexed(places: &HashMap<Vec<u8>, usize>, name: &[u8]) -> bool
    ensures { (names : List (List ℕ)) → Indexes places.now names → result ≡ is_among name.now names }
{
    at_name(places, name).is_some()
}

/// One more name of a list, which has this place, unless it has one already.
pub fn index(
    places: &mut HashMap<Vec<u8>, usize>,
    alloc: Global,
    name: &Name,
    place: usize,
) -> Result<(), AllocError>
    ensures { OnOk result ((names : List (List ℕ)) → length names ≡ place → Indexes places.old names → Indexes places.new (names ++ name.now ∷ [])) }
{
    if at_name(places, name.as_bytes()).is_none() {
        put(places, alloc, name, place)?;
    }
    Ok(())
}

/// The places of the names of a list.
pub fn index_names(alloc: Global, names: &[Name]) -> Result<HashMap<Vec<u8>, usize>, AllocError>
    ensures { IfOk result (λ m. Indexes m names.now) }
{
    let mut places = HashMap::new(alloc);
    for (k, name) in names.iter().enumerate() {
        index(&mut places, alloc, name, k)?;
    }
    Ok(places)
}
