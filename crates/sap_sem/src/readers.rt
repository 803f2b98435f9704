//! What machines show.

ghost use Rattle.std.specs.Prelude.{◌≡◌, ◌<◌, true, unwrap_or, IfSome};
ghost use Rattle.sap_meaning.specs.Fine.{FineProgram};
ghost use Rattle.sap_meaning.specs.Program as program;
ghost use Rattle.sap_meaning.specs.Sized.{depth};
ghost use Rattle.sap_meaning.specs.State.{Resting};
ghost use Rattle.sap_meaning.specs.Store as meaning;
ghost use Rattle.sap_sem.specs.Machine.{IsSite, program_of, refused_at, state_of};

use crate::machine::Machine;
use sap_lattice::level::Level;
use sap_store::entries::{child, own, start_cell};
use sap_store::environment::Environment;

impl Machine {
    fn environment(&self) -> Environment<'_>
        ensures lattice { result.lattice.now ≡ self.now.lattice }
        ensures program { result.program.now ≡ self.now.program }
    {
        Environment {
            lattice: &self.lattice,
            program: &self.program,
        }
    }

    /// What every machine keeps: its program has what the laws of the labelled meaning ask for, and its state is one
    /// between cycles.
    pub fn lawful(&self)
        ensures fine { FineProgram (program_of self.now) }
        ensures rests { Resting (program_of self.now).world (state_of self.now) }
    {
        let _ = &self.program;
    }

    /// The number of a register, with its level.
    pub fn value(&self, entity: u32) -> (u64, Level)
        requires { program.is_register (program_of self.now).world entity ≡ true }
        ensures number { result.0 ≡ meaning.number (meaning.own entity) (state_of self.now) }
        ensures level { result.1 ≡ meaning.level (program_of self.now).world (meaning.own entity) (state_of self.now) }
    {
        let cell = own(&self.environment(), &self.store, entity as usize);
        (cell.number, cell.level)
    }

    /// The number of a memory's cell, with its level.
    pub fn cell(&self, entity: u32, i: u32) -> (u64, Level)
        requires memory { program.is_memory (program_of self.now).world entity ≡ true }
        requires within { i < depth (program_of self.now).world entity }
        ensures number { result.0 ≡ meaning.number (meaning.start entity i) (state_of self.now) }
        ensures level { result.1 ≡ meaning.level (program_of self.now).world (meaning.start entity i) (state_of self.now) }
    {
        let cell = start_cell(
            &self.environment(),
            &self.store,
            entity as usize,
            u64::from(i),
        );
        (cell.number, cell.level)
    }

    /// The level of a state.
    pub fn state_tag(&self, entity: u32) -> Level
        requires within { entity < program.root (program_of self.now).world }
        requires state { program.is_state (program_of self.now).world entity ≡ true }
        ensures { result ≡ meaning.level (program_of self.now).world (meaning.own entity) (state_of self.now) }
    {
        own(&self.environment(), &self.store, entity as usize).level
    }

    /// The place of the current child of a state that has children, or of the root, from 0.
    pub fn child(&self, parent: Option<u32>) -> u32
        requires { IfSome parent (λ p. 0 < program.children (program_of self.now).world p) }
        ensures { result ≡ meaning.child (unwrap_or parent (program.root (program_of self.now).world)) (state_of self.now) }
    {
        let parent = match parent {
            Some(state) => state as usize,
            None => self.program.entities.len(),
        };
        child(&self.environment(), &self.store, parent)
    }

    /// The level at which a check site was refused in the last cycle. None exactly where it wasn't, or where there was no cycle.
    pub fn refused(&self, k: u32) -> Option<Level>
        requires { IsSite self.now k }
        ensures { result ≡ refused_at self.now k }
    {
        self.refusals[k as usize]
    }
}
