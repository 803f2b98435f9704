//! What a program says of its entities, by number.

ghost use Rattle.std.specs.Prelude.{◌≡◌, get_or};
ghost use Rattle.sap_lattice.specs.Levels.{order_of};
ghost use Rattle.sap_meaning.specs.Checks as checks;
ghost use Rattle.sap_meaning.specs.Program as meaning;
ghost use Rattle.sap_meaning.specs.State as state;
ghost use Rattle.sap_meaning.specs.Store.{own};
ghost use Rattle.sap_program.specs.Views.{entity_in, kind_of_sort, program_in};

use crate::program::{Program, Sort};
use sap_lattice::lattice::Lattice;
use sap_lattice::level::Level;

impl Sort {
    /// How many cells an entity of this sort has.
    pub fn depth(&self) -> u64
        ensures { result ≡ meaning.depth_of (kind_of_sort self.now) }
    {
        match self {
            Sort::Memory(depth) => *depth,
            Sort::State { .. } => 0,
            Sort::Input => 0,
            Sort::Register => 0,
        }
    }
}

impl Program {
    /// Whether an entity is dynamic; of none it is said that it is.
    #[tactic(auto, using(crate::proofs::Found::entities))]
    pub fn is_dynamic(&self, x: usize) -> bool
        ensures { result ≡ (entity_in self.now x).dynamic }
    {
        match self.entities.get(x) {
            Some(entity) => entity.dynamic,
            None => true,
        }
    }

    #[tactic(auto, using(crate::proofs::Found::entities))]
    pub fn is_input(&self, x: usize) -> bool
        ensures { result ≡ meaning.kind_is_input (entity_in self.now x).kind }
    {
        match self.entities.get(x) {
            Some(entity) => matches!(entity.sort, Sort::Input),
            None => false,
        }
    }

    #[tactic(auto, using(crate::proofs::Found::entities))]
    pub fn is_register(&self, x: usize) -> bool
        ensures { result ≡ meaning.kind_is_register (entity_in self.now x).kind }
    {
        match self.entities.get(x) {
            Some(entity) => matches!(entity.sort, Sort::Register),
            None => false,
        }
    }

    #[tactic(auto, using(crate::proofs::Found::entities))]
    pub fn is_memory(&self, x: usize) -> bool
        ensures { result ≡ meaning.kind_is_memory (entity_in self.now x).kind }
    {
        match self.entities.get(x) {
            Some(entity) => matches!(entity.sort, Sort::Memory(_)),
            None => false,
        }
    }

    /// Whether an entity is a state; of none it is said that it is.
    #[tactic(auto, using(crate::proofs::Found::entities))]
    pub fn is_state(&self, x: usize) -> bool
        ensures { result ≡ meaning.kind_is_state (entity_in self.now x).kind }
    {
        match self.entities.get(x) {
            Some(entity) => matches!(entity.sort, Sort::State { .. }),
            None => true,
        }
    }

    /// The width of an entity's number, 0 where it has none.
    #[tactic(auto, using(crate::proofs::Found::entities))]
    pub fn width(&self, x: usize) -> u64
        ensures { result ≡ (entity_in self.now x).width }
    {
        match self.entities.get(x) {
            Some(entity) => entity.width,
            None => 0,
        }
    }

    /// The level that is the authority over an entity's tag; of none the first level.
    #[tactic(auto, using(crate::proofs::Found::entities))]
    pub fn authority(&self, x: usize) -> Level
        ensures { result ≡ (entity_in self.now x).authority }
    {
        match self.entities.get(x) {
            Some(entity) => entity.authority,
            None => Level::new(0),
        }
    }

    /// The level that an entity starts with.
    #[tactic(auto, using(crate::proofs::Found::entities))]
    pub fn first_level(&self, lattice: &Lattice, x: usize) -> Level
        ensures { result ≡ state.first_level (program_in (order_of lattice.now) self.now).world (own x) }
    {
        match self.entities.get(x) {
            Some(entity) if !entity.dynamic => entity.declared,
            _ => lattice.bottom(),
        }
    }

    /// The number that a register starts with.
    #[tactic(auto, using(crate::proofs::Found::entities))]
    pub fn first_number(&self, x: usize) -> u64
        ensures { result ≡ (entity_in self.now x).initial }
    {
        match self.entities.get(x) {
            Some(entity) => entity.initial,
            None => 0,
        }
    }

    /// How many cells a memory has; 0 for what is none.
    #[tactic(auto, using(crate::proofs::Found::entities))]
    pub fn depth(&self, x: usize) -> u64
        ensures { result ≡ meaning.depth_of (entity_in self.now x).kind }
    {
        match self.entities.get(x) {
            Some(entity) => entity.sort.depth(),
            None => 0,
        }
    }

    /// A state's place in its group.
    #[tactic(auto, using(crate::proofs::Found::entities))]
    pub fn place(&self, x: usize) -> usize
        ensures { result ≡ meaning.place_of (entity_in self.now x).kind }
    {
        match self.entities.get(x) {
            Some(entity) => match entity.sort {
                Sort::State { place, .. } => place,
                Sort::Input => 0,
                Sort::Register => 0,
                Sort::Memory(_) => 0,
            },
            None => 0,
        }
    }

    /// The number of the last state inside a state.
    #[tactic(auto, using(crate::proofs::Found::entities))]
    pub fn last(&self, x: usize) -> usize
        ensures { result ≡ meaning.last_of (entity_in self.now x).kind }
    {
        match self.entities.get(x) {
            Some(entity) => match entity.sort {
                Sort::State { last, .. } => last,
                Sort::Input => 0,
                Sort::Register => 0,
                Sort::Memory(_) => 0,
            },
            None => 0,
        }
    }

    /// What entering a state tells at least.
    pub fn entry(&self, lattice: &Lattice, x: usize) -> Level
        ensures { result ≡ checks.entry (program_in (order_of lattice.now) self.now).world x }
    {
        if self.is_dynamic(x) {
            lattice.bottom()
        } else {
            self.authority(x)
        }
    }

    /// How many children an entity has, or the root.
    pub fn child_count(&self, p: usize) -> usize
        ensures { result ≡ get_or self.now.children.items p 0 }
    {
        match self.children.get(p) {
            Some(count) => *count,
            None => 0,
        }
    }
}
