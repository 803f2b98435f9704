//! A runner of a netlist with the plan of its cycles, or want of memory.

ghost use Rattle.std.specs.Prelude.{◌≡◌, IfOk, None, map};
ghost use Rattle.sap_cycle.specs.Running.{Shows};
ghost use Rattle.sap_sim.specs.Fields.{tag_width};
ghost use Rattle.sap_sim.specs.Layout.{IsPlan, source_of};

use crate::shown::shown_of;
use crate::sources::Source;
use crate::steps::Plan;
use sap_cycle::runner::Runner;
use sap_lattice::Lattice;
use sap_net::netlist::Netlist;
use sap_stim::level_texts;
use std::alloc::{AllocError, Global};

fn loaded(alloc: Global, netlist: Netlist) -> Result<Runner, AllocError>
    ensures netlist { IfOk result (λ r. r.net ≡ netlist) }
    ensures unstepped { IfOk result (λ r. Shows r None) }
{
    match Runner::load(alloc, netlist) {
        Ok(runner) => Ok(runner),
        Err((_, fault)) => Err(fault),
    }
}

/// A netlist that can be stepped, before its first cycle.
#[derive(Drop)]
pub struct Planned {
    pub runner: Runner,
    pub plan: Plan,
}

/// A netlist whose inputs have their numbers from these sources.
pub fn planned_of(
    alloc: Global,
    lattice: &Lattice,
    netlist: Netlist,
    sources: Vec<Source>,
) -> Result<Planned, AllocError>
    requires { sources.items ≡ map (source_of (tag_width lattice.now) netlist.inputs) netlist.inputs }
    ensures netlist { IfOk result (λ p. p.runner.net ≡ netlist) }
    ensures unstepped { IfOk result (λ p. Shows p.runner None) }
    ensures plan { IfOk result (λ p. IsPlan lattice.now p.runner.net p.plan) }
{
    let runner = loaded(alloc, netlist)?;
    let shown = shown_of(alloc, &runner, lattice.width())?;
    let levels = level_texts(alloc, lattice)?;
    Ok(Planned {
        runner,
        plan: Plan {
            sources,
            shown,
            levels,
        },
    })
}
