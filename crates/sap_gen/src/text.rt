//! The text of the generated run.

ghost use Rattle.std.specs.Prelude.{◌≡◌, ◌≤◌, ◌++◌, [], ◌∷◌, ℕ, IfOk, OnOk, length};
ghost use Rattle.std.specs.Fmt.{decimal};
ghost use Rattle.sap_check.specs.Checked.{levels_in, tree_in};
ghost use Rattle.sap_check.specs.Sites as check;
ghost use Rattle.sap_interface.specs.Designs.{named_of};
ghost use Rattle.sap_lattice.specs.Built.{IsLatticeOf};
ghost use Rattle.sap_meaning.specs.State.{InputsFit, first};
ghost use Rattle.sap_resolved.specs.Fill as resolve;
ghost use Rattle.sap_sem.specs.Machine.{program_of, site_count_of, state_of};
ghost use Rattle.sap_sim.specs.Labelled.LabelledRows.{labelled_row};
ghost use Rattle.sap_lattice.specs.Diamond.{level_names, level_pairs};
ghost use Rattle.sap_gen.specs.Design.{design_of_counts, register_count, state_count};
ghost use Rattle.sap_gen.specs.Stream.{cycle_count, given};
ghost use Rattle.sap_gen.specs.Text.{generated_text, summary};

use crate::checked::checked;
use crate::levels::diamond;
use crate::row::push_row;
use crate::run::run;
use crate::size::{Size, size_of};
use sap_check::Checked;
use sap_desk::Bytes;
use sap_hang::hang::hang;
use sap_sem::machine::Machine;
use sap_text::digits::push_number;
use std::alloc::{AllocError, Global};

/// Appends a number and what stands behind it.
fn push_count(out: &mut Vec<u8>, count: u64, words: &[u8]) -> Result<(), AllocError>
    ensures { OnOk result (out.new.items ≡ out.old.items ++ (decimal count ++ words.now)) }
{
    push_number(out, count)?;
    out.extend_from_slice(words)
}

/// Appends the line of the counts.
fn push_summary(out: &mut Vec<u8>, n: u32, size: Size, refusals: u64) -> Result<(), AllocError>
    requires within { n ≤ 1000 }
    requires registers { size.registers ≡ register_count n }
    requires states { size.states ≡ state_count n }
    ensures { OnOk result (out.new.items ≡ out.old.items ++ summary n refusals) }
{
    out.extend_from_slice(b"gen ")?;
    push_count(out, u64::from(n), b": ")?;
    push_count(out, u64::from(size.registers), b" registers, ")?;
    push_count(out, u64::from(size.states), b" states, ")?;
    push_count(out, u64::from(4 * n), b" cycles, ")?;
    push_count(out, refusals, b" refusals\n")
}

/// What the input gets fits it.
fn inputs_fit(checked: &Checked, size: Size)
    requires names { (levels_in checked.now).names ≡ level_names }
    requires design { tree_in checked.now ≡ design_of_counts size.registers size.states }
    ensures { (n c : ℕ) → InputsFit (resolve.program_of (levels_in checked.now) (tree_in checked.now)).world (given n c ∷ []) }
{}

/// The design of this size, checked for the lattice of the four levels.
fn checked_design(alloc: Global, size: Size) -> Result<Checked, AllocError>
    ensures design { IfOk result (λ checked. tree_in checked ≡ design_of_counts size.registers size.states) }
    ensures lattice { IfOk result (λ checked. IsLatticeOf level_names level_pairs (levels_in checked)) }
{
    let lattice = diamond(alloc)?;
    checked(alloc, size, &lattice)
}

/// A machine before the first cycle.
fn machine_of(alloc: Global, checked: &Checked) -> Result<Machine, AllocError>
    ensures program { IfOk result (λ m. program_of m ≡ resolve.program_of (levels_in checked.now) (tree_in checked.now)) }
    ensures sites { IfOk result (λ m. site_count_of m ≡ length (check.sites_of (tree_in checked.now))) }
    ensures state { IfOk result (λ m. state_of m ≡ first (program_of m).world) }
{
    let table = hang(alloc, checked.design(), checked.names())?;
    Machine::new(alloc, checked, &table)
}

/// The line of the counts, and the row of the last cycle. The machine is that of the design.
fn text_of(
    alloc: Global,
    n: u32,
    size: Size,
    refusals: u64,
    checked: &Checked,
    machine: &Machine,
) -> Result<Vec<u8>, AllocError>
    requires within { n ≤ 1000 }
    requires registers { size.registers ≡ register_count n }
    requires states { size.states ≡ state_count n }
    requires program { program_of machine.now ≡ resolve.program_of (levels_in checked.now) (tree_in checked.now) }
    ensures { IfOk result (λ text. text.items ≡ summary n refusals ++ labelled_row (levels_in checked.now) (named_of (levels_in checked.now) (tree_in checked.now)) (cycle_count n) (state_of machine.now)) }
{
    let mut out = Vec::new(alloc);
    push_summary(&mut out, n, size, refusals)?;
    push_row(&mut out, alloc, checked, machine, 4 * n)?;
    Ok(out)
}

/// The text of the run of a number. The design is the one of that number.
fn run_text(alloc: Global, n: u32, size: Size, checked: &Checked) -> Result<Vec<u8>, AllocError>
    requires some { 1 ≤ n }
    requires within { n ≤ 1000 }
    requires registers { size.registers ≡ register_count n }
    requires states { size.states ≡ state_count n }
    requires design { tree_in checked.now ≡ design_of_counts size.registers size.states }
    requires lattice { IsLatticeOf level_names level_pairs (levels_in checked.now) }
    ensures { IfOk result (λ text. text.items ≡ generated_text n) }
{
    inputs_fit(checked, size);
    let mut machine = machine_of(alloc, checked)?;
    let refusals = run(alloc, &mut machine, checked.site_count(), n)?;
    text_of(alloc, n, size, refusals, checked, &machine)
}

/// The text of the generated run of a number.
pub fn generated(alloc: Global, n: u32) -> Result<Bytes, AllocError>
    requires some { 1 ≤ n }
    requires within { n ≤ 1000 }
    ensures { IfOk result (λ text. text ≡ generated_text n) }
{
    let size = size_of(n);
    let checked = checked_design(alloc, size)?;
    let text = run_text(alloc, n, size, &checked)?;
    Ok(Bytes::new(text))
}
