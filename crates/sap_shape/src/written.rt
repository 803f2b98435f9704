//! The memories that some path has written.

ghost use Rattle.std.specs.Prelude.{◌≡◌, IfOk, OnOk};
ghost use Rattle.sap_shape.specs.Lists.{written_in};
ghost use Rattle.sap_shape.specs.Walk.{either, fresh, writing};

use crate::position::is_in;
use sap_tree::name::Name;
use std::alloc::{AllocError, Global};
use std::marker::Model;

/// The memories of which some path up to a place has written a cell or set its tag, seen as their names.
#[derive(Drop)]
pub(crate) struct Written {
    names: Vec<Name>,
}

impl Model for Written {
    ghost use Rattle.std.specs.Prelude.{List, ℕ};

    ghost Value = { List (List ℕ) };

    ghost view = { λ w. w.names.items };
}

impl Written {
    #[tactic(auto, using(crate::proofs::Sets::sets))]
    pub fn new(alloc: Global) -> Written
        ensures { written_in result ≡ fresh }
    {
        Written {
            names: Vec::new(alloc),
        }
    }

    #[tactic(auto, unfolding(crate::specs::Lists::written_in))]
    pub fn contains(&self, name: &Name) -> bool
        ensures { result ≡ written_in self.now name.now }
    {
        is_in(self.names.as_slice(), name)
    }

    #[tactic(auto, using(crate::proofs::Sets::sets))]
    pub fn add(&mut self, alloc: Global, name: &Name) -> Result<(), AllocError>
        ensures { OnOk result (written_in self.new ≡ writing name.now (written_in self.old)) }
    {
        if !self.contains(name) {
            self.names.push(name.copy(alloc)?)?;
        }
        Ok(())
    }

    /// Takes in those of another set.
    #[tactic(auto, using(crate::proofs::Sets::sets))]
    pub fn join(&mut self, alloc: Global, other: &Written) -> Result<(), AllocError>
        ensures { OnOk result (written_in self.new ≡ either (written_in self.old) (written_in other.now)) }
    {
        for name in &other.names {
            self.add(alloc, name)?;
        }
        Ok(())
    }

    #[tactic(auto, using(crate::proofs::Sets::sets))]
    pub fn copy(&self, alloc: Global) -> Result<Written, AllocError>
        ensures { IfOk result (λ w. written_in w ≡ written_in self.now) }
    {
        let mut all = Written::new(alloc);
        all.join(alloc, self)?;
        Ok(all)
    }
}
