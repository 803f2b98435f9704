//! Names by their places on a list.

ghost use Rattle.std.specs.Prelude.{◌≡◌, ◌++◌, [], ◌∷◌, true, false, IfOk, OnOk, OnErr};
ghost use Rattle.sap_net.specs.NameMaps.{place_in};
ghost use Rattle.sap_net.specs.Names.{is_among};

use crate::name_table::{at_name, index_names, is_indexed};
use sap_net::parts::Name;
use std::alloc::{AllocError, Global};
use std::collections::HashMap;
use std::marker::Model;

/// Names in order, to which more can be added, seen as their list, with the first place of each.
#[derive(Drop)]
pub struct Places {
    names: Vec<Name>,
    places: HashMap<Name, usize>,
}

impl Model for Places {
    ghost use Rattle.std.specs.Prelude.{ℕ, List};
    ghost use Rattle.sap_net.specs.NameMaps.{AtPlaces};
    ghost use Rattle.sap_share.specs.NameTables.{of_name};

    ghost Value = { List (List ℕ) };

    ghost view = { λ p. p.names.items };

    ghost invariant = { λ p. AtPlaces (of_name p.places) p.names.items };
}

impl Places {
    pub fn new(alloc: Global, names: Vec<Name>) -> Result<Places, AllocError>
        ensures { IfOk result (λ p. p ≡ names.items) }
    {
        let places = index_names(alloc, &names)?;
        Ok(Places { names, places })
    }

    pub fn names(&self) -> &[Name]
        ensures { result.now ≡ self.now }
    {
        self.names.as_slice()
    }

    /// How many names stand before the first place of this one, if it has a place.
    pub fn place(&self, name: &Name) -> Option<usize>
        ensures { result ≡ place_in self.now name.now }
    {
        at_name(&self.places, name)
    }

    pub fn holds(&self, name: &Name) -> bool
        ensures { result ≡ is_among name.now self.now }
    {
        is_indexed(&self.places, name)
    }

    /// Gives the names.
    pub fn into_names(self) -> Vec<Name>
        ensures { result.items ≡ self }
    {
        self.names
    }

    /// One more name, behind the others; none for want of memory.
    pub fn add(&mut self, alloc: Global, name: Name) -> Result<(), AllocError>
        ensures more { OnOk result (self.new ≡ self.old ++ name ∷ []) }
        ensures same { OnErr result (self.new ≡ self.old) }
    {
        if self.holds(&name) {
            self.add_again(name)
        } else {
            let key = name.copy(alloc)?;
            self.add_new(key, name)
        }
    }

    /// Adds a name that has a place.
    fn add_again(&mut self, name: Name) -> Result<(), AllocError>
        requires { is_among name self.old ≡ true }
        ensures more { OnOk result (self.new ≡ self.old ++ name ∷ []) }
        ensures same { OnErr result (self.new ≡ self.old) }
    {
        self.names.push(name)?;
        Ok(())
    }

    /// Adds a name that has none, with a copy of it.
    fn add_new(&mut self, key: Name, name: Name) -> Result<(), AllocError>
        requires copy { key ≡ name }
        requires other { is_among name self.old ≡ false }
        ensures more { OnOk result (self.new ≡ self.old ++ name ∷ []) }
        ensures same { OnErr result (self.new ≡ self.old) }
    {
        let place = self.names.len();
        self.names.push(name)?;
        if self.places.insert(key, place).is_err() {
            self.names.pop();
            return Err(AllocError);
        }
        Ok(())
    }
}
