//! The runner by which a design is traced.

ghost use Rattle.std.specs.Prelude.{◌≡◌, None, IfOk, length};
ghost use Rattle.sap_check.specs.Checked.{levels_in, tree_in};
ghost use Rattle.sap_check.specs.Sites.{sites_of};
ghost use Rattle.sap_cycle.specs.Running.{Shows};
ghost use Rattle.sap_interface.specs.Designs.{StandsForDesign};
ghost use Rattle.sap_trace.specs.Seen.{AreWires};

use crate::known::known;
use crate::wires::{Wires, wires_of};
use sap_check::Checked;
use sap_cycle::runner::Runner;
use sap_net::netlist::Netlist;
use std::alloc::{AllocError, Global};

// A runner of a netlist.
fn load(alloc: Global, netlist: Netlist) -> Result<Runner, AllocError>
    ensures netlist { IfOk result (λ runner. runner.net ≡ netlist) }
    ensures unstepped { IfOk result (λ runner. Shows runner None) }
{
    match Runner::load(alloc, netlist) {
        Ok(runner) => Ok(runner),
        Err((_, fault)) => Err(fault),
    }
}

/// A runner of a netlist that stands for a design, and the wires of its check sites.
pub(crate) fn planned(
    alloc: Global,
    checked: &Checked,
    netlist: Netlist,
) -> Result<(Runner, Wires), AllocError>
    requires stands { StandsForDesign (levels_in checked.now) (tree_in checked.now) netlist }
    ensures netlist { IfOk result (λ r. r.0.net ≡ netlist) }
    ensures unstepped { IfOk result (λ r. Shows r.0 None) }
    ensures wires { IfOk result (λ r. AreWires netlist (length (sites_of (tree_in checked.now))) r.1) }
{
    known(checked);
    netlist.rules();
    let runner = load(alloc, netlist)?;
    let wires = wires_of(alloc, &runner, checked.site_count())?;
    Ok((runner, wires))
}
