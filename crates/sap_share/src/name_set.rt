//! Sets of names.

ghost use Rattle.std.specs.Prelude.{◌≡◌, [], ◌∷◌, true, slice_set, OnOk};
ghost use Rattle.sap_share.specs.Fronts as spec;
ghost use Rattle.sap_share.specs.Sets.{AreSame, holds};

use sap_net::parts::Name;
use std::alloc::{AllocError, Global};
use std::collections::HashSet;
use std::marker::Model;

/// Names, seen as a list on which they stand, in no certain order. The first byte of each has a mark, which tells most other names apart.
#[derive(Drop)]
pub struct NameSet {
    names: HashSet<Name>,
    fronts: [bool; 256],
}

impl Model for NameSet {
    ghost use Rattle.std.specs.Prelude.{ℕ, List};
    ghost use Rattle.sap_share.specs.Fronts.{AreMarked};

    ghost Value = { List (List ℕ) };

    ghost view = { λ s. s.names.keys };

    ghost invariant = { λ s. AreMarked s.fronts s.names.keys };
}

// The first byte of a name, 0 if it has none.
fn front(name: &[u8]) -> u8
    ensures { result ≡ spec.front name.now }
{
    name.first().copied().unwrap_or(0)
}

#[tactic(auto, using(crate::proofs::Fronts::mark_set))]
fn mark(fronts: &mut [bool; 256], name: &[u8])
    ensures set { fronts.new ≡ slice_set fronts.old (spec.front name.now) true }
    ensures marked { spec.is_marked fronts.new (spec.front name.now) ≡ true }
{
    fronts[usize::from(front(name))] = true;
}

fn is_marked(fronts: &[bool; 256], name: &[u8]) -> bool
    ensures { result ≡ spec.is_marked fronts.now (spec.front name.now) }
{
    fronts[usize::from(front(name))]
}

impl NameSet {
    pub fn new(alloc: Global) -> NameSet
        ensures { result ≡ [] }
    {
        NameSet {
            names: HashSet::new(alloc),
            fronts: [false; 256],
        }
    }

    pub fn add(&mut self, alloc: Global, name: &Name) -> Result<(), AllocError>
        ensures { OnOk result (AreSame self.new (name.now ∷ self.old)) }
    {
        let key = name.copy(alloc)?;
        mark(&mut self.fronts, name.as_bytes());
        self.names.insert(key)?;
        Ok(())
    }

    pub fn has(&self, name: &Name) -> bool
        ensures { result ≡ holds self.now name.now }
    {
        is_marked(&self.fronts, name.as_bytes()) && self.names.contains(name)
    }
}
