//! Values by name.

ghost use Rattle.std.specs.Prelude.{◌≡◌, ◌++◌, ℕ, List, [], ◌∷◌, None, Some, IfOk, OnOk};
ghost use Rattle.std.specs.Map.{keys_of};
ghost use Rattle.std.specs.Option.{option_map};
ghost use Rattle.sap_maps.specs.Scope.{find};
ghost use Rattle.sap_net.specs.NameMaps.{AtPlaces, Puts, place_in};
ghost use Rattle.sap_share.specs.NameTables.{of_name};
ghost use Rattle.sap_share.specs.Tables.{replaced};

use crate::name_table::{at_name, index};
use sap_net::parts::Name;
use std::alloc::{AllocError, Global};
use std::collections::HashMap;
use std::marker::Model;

/// Values under names, in order, seen as their list. A name has the value of its first place.
#[derive(Drop)]
pub struct Table<T> {
    entries: Vec<(Name, T)>,
    places: HashMap<Name, usize>,
}

impl<T> Model for Table<T> {
    ghost use Rattle.std.specs.Prelude.{ℕ, List};
    ghost use Rattle.std.specs.Coded.{coded_list, coded×, coded_ℕ};
    ghost use Rattle.std.specs.Map.{keys_of};
    ghost use Rattle.sap_net.specs.NameMaps.{AtPlaces};
    ghost use Rattle.sap_share.specs.NameTables.{of_name};

    ghost Value = { List (List ℕ × T) };

    ghost coded = { coded_list (coded× (coded_list coded_ℕ) T.code) };

    ghost view = { λ t. t.entries.items };

    ghost invariant = { λ t. AtPlaces (of_name t.places) (keys_of t.entries.items) };
}

/// The first places of the names.
fn index_entries<T>(
    alloc: Global,
    entries: &[(Name, T)],
) -> Result<HashMap<Name, usize>, AllocError>
    ensures { IfOk result (λ m. AtPlaces (of_name m) (keys_of entries.now)) }
{
    let mut places = HashMap::with_capacity(alloc, entries.len())?;
    for (k, entry) in entries.iter().enumerate() {
        index(&mut places, alloc, &entry.0, k)?;
    }
    Ok(places)
}

impl<T: Drop> Table<T> {
    pub fn new(alloc: Global, entries: Vec<(Name, T)>) -> Result<Table<T>, AllocError>
        ensures { IfOk result (λ t. t ≡ entries.items) }
    {
        let places = index_entries(alloc, &entries)?;
        Ok(Table { entries, places })
    }

    /// How many names stand before the first place of this one, if it has a value.
    pub fn place(&self, name: &Name) -> Option<usize>
        ensures { result ≡ place_in (keys_of self.now) name.now }
    {
        at_name(&self.places, name)
    }

    /// The value of the name that has this place.
    pub fn at(&self, place: usize) -> &T
        requires { (n : List ℕ) × (place_in (keys_of self.now) n ≡ Some place) }
        ensures { (n : List ℕ) → place_in (keys_of self.now) n ≡ Some place → find self.now n ≡ Some result.now }
    {
        &self.entries[place].1
    }

    /// Gives the name that has this place another value.
    pub fn replace_at(&mut self, place: usize, value: T)
        requires { (n : List ℕ) × (place_in (keys_of self.old) n ≡ Some place) }
        ensures { (n : List ℕ) → place_in (keys_of self.old) n ≡ Some place → self.new ≡ replaced self.old n value }
    {
        self.entries[place].1 = value;
    }

    /// The value of a name.
    pub fn get(&self, name: &Name) -> Option<&T>
        ensures { option_map (λ x. x.now) result ≡ find self.now name.now }
    {
        match at_name(&self.places, name) {
            Some(k) => Some(&self.entries[k].1),
            None => None,
        }
    }

    /// Gives a name that has a value another one.
    pub fn replace(&mut self, name: &Name, value: T)
        ensures { self.new ≡ replaced self.old name.now value }
    {
        match at_name(&self.places, name) {
            Some(k) => self.entries[k].1 = value,
            None => {}
        }
    }

    /// Gives a name this value, in place of what it had.
    pub fn put(&mut self, alloc: Global, name: &Name, value: T) -> Result<(), AllocError>
        ensures { OnOk result (Puts (find self.old) name.now value (find self.new)) }
    {
        match self.place(name) {
            Some(place) => {
                self.replace_at(place, value);
                Ok(())
            }
            None => self.add(alloc, name, value),
        }
    }

    /// Adds a name that has no value.
    fn add(&mut self, alloc: Global, name: &Name, value: T) -> Result<(), AllocError>
        requires { place_in (keys_of self.old) name.now ≡ None }
        ensures { OnOk result (self.new ≡ self.old ++ (name.now, value) ∷ []) }
    {
        let key = name.copy(alloc)?;
        let name = name.copy(alloc)?;
        let place = self.entries.len();
        self.entries.push((name, value))?;
        if self.places.insert(key, place).is_err() {
            self.entries.pop();
            return Err(AllocError);
        }
        Ok(())
    }
}
