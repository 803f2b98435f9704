//! The entities of a design, found by their names.

ghost use Rattle.std.specs.Prelude.{◌≡◌, IfOk, option_copied};
ghost use Rattle.sap_names.specs.Entities as spec;
ghost use Rattle.sap_names.specs.Index.{Numbers};
ghost use Rattle.sap_tree.specs.Designs.{design_of};

use crate::collect::entities_of;
use crate::entity::Entity;
use crate::kind::Declared;
use indexmap::IndexMap;
use sap_tree::design::Design;
use sap_tree::name::Name;
use std::alloc::{AllocError, Global};
use std::marker::Model;

/// The entities of a design, in the order of the text, seen as a list.
#[derive(Drop)]
pub struct Entities {
    list: Vec<Entity>,
    // the number of the first entity of each name
    numbers: IndexMap<Vec<u8>, usize>,
}

impl Model for Entities {
    ghost use Rattle.std.specs.Prelude.{List};
    ghost use Rattle.sap_names.specs.declared.entity.Entity.{Entity};
    ghost use Rattle.sap_names.specs.Index.{Numbers};

    ghost Value = { List Entity };

    ghost view = { λ e. e.list.items };

    ghost invariant = { λ e. Numbers e.list.items e.numbers.entries };
}

// The number of the first entity of each name.
fn numbers(alloc: Global, entities: &[Entity]) -> Result<IndexMap<Vec<u8>, usize>, AllocError>
    ensures { IfOk result (λ m. Numbers entities.now m.entries) }
{
    let mut map: IndexMap<Vec<u8>, usize> = IndexMap::new(alloc);
    for (number, entity) in entities.iter().enumerate() {
        let name = &entity.name.name;
        if !map.contains_key(name.as_bytes()) {
            let key = name.as_bytes().to_vec(alloc)?;
            map.insert(key, number)?;
        }
    }
    Ok(map)
}

impl Entities {
    /// The entities of a design.
    pub fn new(alloc: Global, design: &Design) -> Result<Entities, AllocError>
        ensures { IfOk result (λ e. e ≡ spec.entities_of (design_of design.now)) }
    {
        let list = entities_of(alloc, design)?;
        let numbers = numbers(alloc, list.as_slice())?;
        Ok(Entities { list, numbers })
    }

    pub fn as_slice(&self) -> &[Entity]
        ensures { result.now ≡ self.now }
    {
        self.list.as_slice()
    }

    /// The number of the first entity of this name.
    pub fn number(&self, name: &[u8]) -> Option<usize>
        ensures { result ≡ spec.number_of self.now name.now }
    {
        match self.numbers.get(name) {
            Some(number) => Some(*number),
            None => None,
        }
    }

    /// The first entity of this name.
    pub fn find(&self, name: &[u8]) -> Option<&Entity>
        ensures { option_copied result ≡ spec.find self.now name.now }
    {
        match self.number(name) {
            Some(number) => self.list.get(number),
            None => None,
        }
    }

    /// What the name stands for.
    pub fn look(&self, name: &Name) -> Option<Declared>
        ensures { result ≡ spec.what_is self.now name.now }
    {
        match self.find(name.as_bytes()) {
            Some(entity) => Some(entity.what),
            None => None,
        }
    }
}
