//! Numbers noted under names.

ghost use Rattle.std.specs.Prelude.{◌≡◌, ℕ, List, Some, None, OnOk, if◌then◌else◌};
ghost use Rattle.std.specs.Str.{bytes_eq};
ghost use Rattle.sap_vtext.specs.Modules.{first_of, when};
ghost use Rattle.sap_vread.specs.Build.Firsts.{number_of};

use indexmap::IndexMap;
use sap_net::parts::Name;
use std::alloc::{AllocError, Global};

/// A number for each of some names: the first that was noted.
#[derive(Drop)]
pub struct Firsts {
    entries: IndexMap<Vec<u8>, u64>,
}

impl Firsts {
    pub fn new(alloc: Global) -> Firsts
        ensures { (n : List ℕ) → number_of result n ≡ None }
    {
        Firsts {
            entries: IndexMap::new(alloc),
        }
    }

    #[tactic(auto, unfolding(crate::specs::Build::Firsts::number_of))]
    pub fn get(&self, name: &Name) -> Option<u64>
        ensures { result ≡ number_of self.now name.now }
    {
        match self.entries.get(name.as_bytes()) {
            Some(number) => Some(*number),
            None => None,
        }
    }

    fn put(&mut self, alloc: Global, name: &Name, number: u64) -> Result<(), AllocError>
        ensures { OnOk result ((n : List ℕ) → number_of self.new n ≡ (if bytes_eq name.now n then Some number else number_of self.old n)) }
    {
        let key = name.as_bytes().to_vec(alloc)?;
        self.entries.insert(key, number)?;
        Ok(())
    }

    /// Notes a number under a name that has none.
    pub fn note(&mut self, alloc: Global, name: &Name, number: u64) -> Result<(), AllocError>
        ensures { OnOk result ((n : List ℕ) → number_of self.new n ≡ first_of (number_of self.old n) (when name.now n number)) }
    {
        match self.get(name) {
            Some(_) => Ok(()),
            None => self.put(alloc, name, number),
        }
    }
}
