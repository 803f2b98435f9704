//! Machines at their start.

ghost use Rattle.std.specs.Prelude.{◌≡◌, ◌+◌, ◌<◌, ◌^◌, ℕ, None, [], IfOk, length, replicate};
ghost use Rattle.sap_check.specs.Checked.{levels_in, tree_in};
ghost use Rattle.sap_check.specs.Sites as check;
ghost use Rattle.sap_hang.specs.Hang.{IsHangTable};
ghost use Rattle.sap_meaning.specs.Fine.{ExactProgram, FineProgram};
ghost use Rattle.sap_meaning.specs.Program as program;
ghost use Rattle.sap_meaning.specs.Sites.{numbers_from, program_sites};
ghost use Rattle.sap_meaning.specs.State.{first};
ghost use Rattle.sap_resolved.specs.Fill as resolve;
ghost use Rattle.sap_sem.specs.Machine.{levels_of, program_of, refusals_of, refused_at, site_count_of, state_of};
ghost use Rattle.sap_shape.specs.Sites.{check_sites};
ghost use Rattle.sap_store.specs.Able.{AbleGroup};

use crate::machine::Machine;
use sap_check::Checked;
use sap_hang::HangTable;
use sap_lattice::level::Level;
use sap_meaning::states_keep;
use sap_resolve::resolve::resolve;
use sap_resolved::premises::well_formed_serves;
use sap_resolved::sized::{sizes_fit, widths_in_range};
use sap_secure::check_sites::sites_agree;
use sap_store::environment::Environment;
use sap_store::first::first_store;
use sap_tree::whole::design_is_whole;
use std::alloc::{AllocError, Global};

/// What a machine needs of a design's program.
fn program_serves(checked: &Checked)
    ensures able { let p = resolve.program_of (levels_in checked.now) (tree_in checked.now) in AbleGroup p.world p.states }
    ensures fine { FineProgram (resolve.program_of (levels_in checked.now) (tree_in checked.now)) }
    ensures exact { ExactProgram (resolve.program_of (levels_in checked.now) (tree_in checked.now)) }
    ensures initials { let w = (resolve.program_of (levels_in checked.now) (tree_in checked.now)).world in
        (x : ℕ) → (program.entity w x).initial < 2 ^ program.width w x }
    ensures sites { program_sites (resolve.program_of (levels_in checked.now) (tree_in checked.now)) ≡ numbers_from 1 (length (check.sites_of (tree_in checked.now))) }
    ensures count { length (check_sites (tree_in checked.now)) ≡ length (check.sites_of (tree_in checked.now)) }
{
    checked.lawful();
    let lattice = checked.lattice();
    lattice.lawful();
    let design = checked.design();
    design_is_whole(design);
    well_formed_serves();
    sizes_fit();
    widths_in_range();
    sites_agree();
    let _ = checked.entity_count();
}

/// No site refused, of so many.
fn no_refusals(alloc: Global, sites: u32) -> Result<Vec<Option<Level>>, AllocError>
    ensures { IfOk result (λ v. v.items ≡ replicate (sites + 1) None) }
{
    let mut refusals = Vec::new(alloc);
    refusals.resize(sites as usize + 1, None)?;
    Ok(refusals)
}

impl Machine {
    /// The design at its start. The table is of what hangs in the design.
    pub fn new(alloc: Global, checked: &Checked, table: &HangTable) -> Result<Machine, AllocError>
        requires { IsHangTable (tree_in checked.now) table.now }
        ensures levels { IfOk result (λ m. levels_of m ≡ levels_in checked.now) }
        ensures program { IfOk result (λ m. program_of m ≡ resolve.program_of (levels_in checked.now) (tree_in checked.now)) }
        ensures sites { IfOk result (λ m. site_count_of m ≡ length (check.sites_of (tree_in checked.now))) }
        ensures state { IfOk result (λ m. state_of m ≡ first (program_of m).world) }
        ensures refusals { IfOk result (λ m. refusals_of m ≡ []) }
        ensures refused { IfOk result (λ m. (k : ℕ) → refused_at m k ≡ None) }
    {
        program_serves(checked);
        states_keep();
        let levels = checked.lattice();
        let lattice = levels.copy(alloc)?;
        let program = resolve(alloc, checked, table)?;
        let environment = Environment {
            lattice: &lattice,
            program: &program,
        };
        let store = first_store(alloc, &environment)?;
        let refusals = no_refusals(alloc, program.sites)?;
        Ok(Machine {
            lattice,
            program,
            store,
            refusals,
        })
    }
}
