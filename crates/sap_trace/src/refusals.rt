//! The refusals of a runner's last cycle.

ghost use Rattle.std.specs.Prelude.{◌≡◌, List, IfOk};
ghost use Rattle.sap_check.specs.Checked.{levels_in, tree_in};
ghost use Rattle.sap_interface.specs.Designs.{StandsForDesign};
ghost use Rattle.sap_meaning.specs.Store.{Refusal};
ghost use Rattle.sap_trace.specs.Lines.{refusal_lines};
ghost use Rattle.sap_trace.specs.Shows.{ShowsRefused, StepsShowRefused};

use crate::known::known;
use crate::line::push_refused;
use crate::wires::wires_of;
use sap_check::Checked;
use sap_cycle::runner::Runner;
use sap_desk::Bytes;
use sap_net::laws::one_run;
use sap_net::netlist::Netlist;
use sap_stim::stimulus_fits;
use std::alloc::{AllocError, Global};

/// A runner of a netlist that stands for a design shows what the last cycle of the labelled run refuses, as `suppressed` asks,
/// once it is stepped on the lines of a stream, from the first on.
pub fn steps_show_refused(checked: &Checked, netlist: &Netlist)
    requires { StandsForDesign (levels_in checked.now) (tree_in checked.now) netlist.now }
    ensures { StepsShowRefused (levels_in checked.now) (tree_in checked.now) netlist.now }
{
    known(checked);
    one_run(netlist);
    stimulus_fits();
}

/// The lines of the check sites that the last cycle refused, each with the level at which it is refused.
pub fn suppressed(
    alloc: Global,
    runner: &Runner,
    checked: &Checked,
    cycle: u64,
) -> Result<Bytes, AllocError>
    requires shows { (rs : List Refusal) × ShowsRefused (levels_in checked.now) (tree_in checked.now) runner.now rs }
    ensures lines { IfOk result (λ text. (rs : List Refusal) → ShowsRefused (levels_in checked.now) (tree_in checked.now) runner.now rs
        → text ≡ refusal_lines (levels_in checked.now) (tree_in checked.now) cycle rs) }
{
    known(checked);
    runner.netlist().rules();
    let wires = wires_of(alloc, runner, checked.site_count())?;
    let mut out = Vec::new(alloc);
    push_refused(&mut out, runner, checked, &wires, cycle)?;
    Ok(Bytes::new(out))
}
