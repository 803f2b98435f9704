//! What the other readers, and steps, ask for.

ghost use Rattle.std.specs.Prelude.{◌≡◌, ◌↔◌, ◌<◌, ◌^◌, IsTrue, true, unwrap_or};
ghost use Rattle.sap_meaning.specs.Program as program;
ghost use Rattle.sap_meaning.specs.Sized as sized;
ghost use Rattle.sap_meaning.specs.State.{InputsFit};
ghost use Rattle.sap_sem.specs.Machine.{program_of, site_count_of};

use crate::machine::Machine;
use sap_stream::inputs::{Inputs, Tagged};

fn is_below(number: u64, width: u64) -> bool
    ensures { IsTrue result ↔ (number < 2 ^ width) }
{
    width >= 64 || number < 1 << width
}

/// Whether an input of this width can get this, of so many levels.
fn is_within(width: u64, levels: u32, given: Tagged) -> bool
    ensures { IsTrue result ↔ ((given.number < 2 ^ width) × (given.level < levels)) }
{
    is_below(given.number(), width) && u32::from(given.level().place()) < levels
}

impl Machine {
    /// Whether these are inputs of the design: for each of its inputs a number within its width, and a level.
    pub fn fits(&self, inputs: &Inputs) -> bool
        ensures { IsTrue result ↔ InputsFit (program_of self.now).world inputs.now }
    {
        let levels = self.lattice.count();
        let values = inputs.values();
        let mut k = 0;
        for x in 0..self.program.entities.len() {
            if self.program.is_input(x) {
                if k == values.len() || !is_within(self.program.width(x), levels, values[k]) {
                    return false;
                }
                k += 1;
            }
        }
        k == values.len()
    }

    pub fn is_register(&self, entity: u32) -> bool
        ensures { result ≡ program.is_register (program_of self.now).world entity }
    {
        self.program.is_register(entity as usize)
    }

    pub fn is_memory(&self, entity: u32) -> bool
        ensures { result ≡ program.is_memory (program_of self.now).world entity }
    {
        self.program.is_memory(entity as usize)
    }

    #[tactic(auto, using(sap_store::proofs::Worlds::root_is))]
    pub fn is_state(&self, entity: u32) -> bool
        ensures within { IsTrue result → entity < program.root (program_of self.now).world }
        ensures state { IsTrue result → program.is_state (program_of self.now).world entity ≡ true }
        ensures other { entity < program.root (program_of self.now).world → result ≡ program.is_state (program_of self.now).world entity }
    {
        (entity as usize) < self.program.entities.len() && self.program.is_state(entity as usize)
    }

    /// How many cells a memory has; 0 for what is none.
    pub fn depth(&self, entity: u32) -> u64
        ensures { result ≡ sized.depth (program_of self.now).world entity }
    {
        self.program.depth(entity as usize)
    }

    /// How many children a state has, or the root.
    #[tactic(auto, using(sap_store::proofs::Worlds::root_is))]
    pub fn child_count(&self, parent: Option<u32>) -> usize
        ensures { result ≡ program.children (program_of self.now).world (unwrap_or parent (program.root (program_of self.now).world)) }
    {
        let parent = match parent {
            Some(state) => state as usize,
            None => self.program.entities.len(),
        };
        self.program.child_count(parent)
    }

    /// How many inputs, registers, memories and states there are, which are numbered from 0.
    #[tactic(auto, using(sap_store::proofs::Worlds::root_is))]
    pub fn entity_count(&self) -> usize
        ensures { result ≡ program.root (program_of self.now).world }
    {
        self.program.entities.len()
    }

    /// How many check sites there are, which are numbered from 1.
    pub fn site_count(&self) -> u32
        ensures { result ≡ site_count_of self.now }
    {
        self.program.sites
    }
}
