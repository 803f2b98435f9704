//! The cycles of a run.

ghost use Rattle.std.specs.Prelude.{◌≡◌, ◌≤◌, [], ◌∷◌, ℕ, IfOk, OnOk, length};
ghost use Rattle.sap_meaning.specs.Cycle.{run_from};
ghost use Rattle.sap_meaning.specs.State.{InputsFit};
ghost use Rattle.sap_sem.specs.Machine.{program_of, refusals_of, site_count_of, state_of};
ghost use Rattle.sap_gen.specs.Running.{last_store};
ghost use Rattle.sap_gen.specs.Stream.{generated_stream, given};
ghost use Rattle.sap_gen.specs.Text.{refusal_count};

use crate::stream::inputs;
use sap_sem::machine::Machine;
use std::alloc::{AllocError, Global};

/// How many check sites the last cycle refused.
fn refused_count(machine: &Machine, sites: u32) -> u64
    requires { sites ≡ site_count_of machine.now }
    ensures count { result ≡ length (refusals_of machine.now) }
    ensures few { result ≤ sites }
{
    let mut count = 0;
    for site in 0..sites {
        if machine.refused(site + 1).is_some() {
            count += 1;
        }
    }
    count
}

/// Runs the cycles of the run of `n`, and counts the refusals.
pub(crate) fn run(
    alloc: Global,
    machine: &mut Machine,
    sites: u32,
    n: u32,
) -> Result<u64, AllocError>
    requires within { n ≤ 1000 }
    requires fit { (c : ℕ) → InputsFit (program_of machine.old).world (given n c ∷ []) }
    requires sites { sites ≡ site_count_of machine.old }
    ensures program { program_of machine.new ≡ program_of machine.old }
    ensures refusals { IfOk result (λ k. k ≡ refusal_count (run_from (program_of machine.old) (state_of machine.old) (generated_stream n))) }
    ensures state { OnOk result (state_of machine.new ≡ last_store (state_of machine.old) (run_from (program_of machine.old) (state_of machine.old) (generated_stream n))) }
{
    let mut refusals = 0;
    for cycle in 0..4 * n {
        let inputs = inputs(alloc, n, cycle + 1)?;
        machine.step(&inputs);
        refusals += refused_count(machine, sites);
    }
    Ok(refusals)
}
