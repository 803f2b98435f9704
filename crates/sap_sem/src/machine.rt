//! Machines.

use sap_lattice::lattice::Lattice;
use sap_lattice::level::Level;
use sap_program::program::Program;
use sap_store::store::Store;
use std::marker::Model;

/// A design that is stepped a cycle at a time, in its labelled meaning. Nothing but `new` takes memory.
#[derive(Drop)]
pub struct Machine {
    pub(crate) lattice: Lattice,
    pub(crate) program: Program,
    pub(crate) store: Store,
    pub(crate) refusals: Vec<Option<Level>>,
}

impl Model for Machine {
    ghost use Rattle.std.specs.Coded.{codes};
    ghost use Rattle.sap_program.specs.contracts.program.Program as resolved;
    ghost use Rattle.sap_sem.specs.Seen.{MachineSeen};
    ghost use Rattle.sap_sem.specs.Sound.{IsMachine};

    ghost Value = { MachineSeen };

    ghost coded = { Prim.hlevel (codes, resolved.the_row.coded) };

    ghost view = { λ m. record { lattice = m.lattice; program = m.program; store = m.store; refusals = m.refusals.items } };

    ghost invariant = { λ m. IsMachine (record { lattice = m.lattice; program = m.program; store = m.store; refusals = m.refusals.items }) };
}
