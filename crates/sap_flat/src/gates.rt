//! The wires that keep whether a body or a branch is done.

ghost use Rattle.std.specs.Prelude.{◌≡◌, ◌+◌, IfOk, OnOk};
ghost use Rattle.sap_flat.specs.Gates.{gate_name, gate_wires};

use sap_ir::guarded::Var;
use sap_net::parts::Name;
use std::alloc::{AllocError, Global};
use std::marker::Model;

/// The name of the gate of a number.
#[tactic(auto, using(crate::proofs::GateNames::gate_small))]
pub fn name(k: usize) -> Name
    ensures { result ≡ gate_name k }
{
    Name::numbered("g", k as u64)
}

/// The gates so far, numbered from 0, seen as their count.
#[derive(Drop)]
pub struct Gates {
    wires: Vec<Var>,
}

impl Model for Gates {
    ghost use Rattle.std.specs.Prelude.{◌≡◌, ℕ, length};
    ghost use Rattle.sap_flat.specs.Gates.{gate_wires};

    ghost Value = { ℕ };

    ghost view = { λ g. length g.wires.items };

    ghost invariant = { λ g. g.wires.items ≡ gate_wires 0 (length g.wires.items) };
}

impl Gates {
    pub fn new(alloc: Global) -> Gates
        ensures { result ≡ 0 }
    {
        Gates {
            wires: Vec::new(alloc),
        }
    }

    pub fn len(&self) -> usize
        ensures { result ≡ self.now }
    {
        self.wires.len()
    }

    /// One gate more, and its number.
    #[tactic(auto, using(crate::proofs::Makes::gates_push))]
    pub fn add(&mut self) -> Result<usize, AllocError>
        ensures number { IfOk result (λ k. k ≡ self.old) }
        ensures more { OnOk result (self.new ≡ self.old + 1) }
    {
        let k = self.wires.len();
        let name = name(k);
        self.wires.push(Var {
            name,
            width: 1,
            start: 0,
        })?;
        Ok(k)
    }

    /// So many gates more.
    pub fn add_all(&mut self, count: usize) -> Result<(), AllocError>
        ensures { OnOk result (self.new ≡ self.old + count) }
    {
        for _ in 0..count {
            self.add()?;
        }
        Ok(())
    }

    /// Their wires.
    pub fn into_wires(self) -> Vec<Var>
        ensures { result.items ≡ gate_wires 0 self }
    {
        self.wires
    }
}
