//! The lines of refused sites.

ghost use Rattle.std.specs.Prelude.{◌≡◌, ◌≤◌, ◌<◌, ◌+◌, ◌*◌, ◌++◌, ℕ, OnErr, OnOk, length, vec_capacity, Option};
ghost use Rattle.sap_maps.specs.Maps.{Valuation};
ghost use Rattle.sap_check.specs.Checked.{levels_in, tree_in};
ghost use Rattle.sap_check.specs.Sites.{sites_of};
ghost use Rattle.sap_cycle.specs.Running.{Shows, seen};
ghost use Rattle.sap_sim.specs.Labelled.LabelledRows.{level_name};
ghost use Rattle.sap_sim.specs.Stepped.{HasMore};
ghost use Rattle.sap_trace.specs.Lines.{line_before, line_head, refusal_line, site_line};
ghost use Rattle.sap_trace.specs.Rooms.{HoldsCycle, HoldsLine, site_room};
ghost use Rattle.sap_trace.specs.Seen.{AreWires, coded_name, seen_line, seen_lines};

use crate::wires::Wires;
use sap_check::Checked;
use sap_check::site_text::push_target;
use sap_cycle::runner::Runner;
use sap_desk::RowBuf;
use sap_lattice::level::Level;
use sap_stim::rows::push_level;
use sap_text::digits::push_number;
use std::alloc::AllocError;

#[tactic(auto, unfolding(crate::specs::Lines::line_head))]
fn push_head(out: &mut Vec<u8>, cycle: u64, site: u32) -> Result<(), AllocError>
    ensures text { OnOk result (out.new.items ≡ out.old.items ++ line_head cycle site) }
    ensures room { vec_capacity out.old ≤ vec_capacity out.new }
    ensures full { OnErr result (vec_capacity out.old < length out.old.items + length (line_head cycle site)) }
{
    out.extend_from_slice(b"cycle ")?;
    push_number(out, cycle)?;
    out.extend_from_slice(b": site ")?;
    push_number(out, u64::from(site))?;
    out.extend_from_slice(b" ")
}

// The line of a site up to its level.
fn push_before(
    out: &mut Vec<u8>,
    checked: &Checked,
    cycle: u64,
    site: u32,
) -> Result<(), AllocError>
    requires from_one { 1 ≤ site }
    requires within { site ≤ length (sites_of (tree_in checked.now)) }
    ensures text { OnOk result (out.new.items ≡ out.old.items ++ line_before (tree_in checked.now) cycle site) }
    ensures room { vec_capacity out.old ≤ vec_capacity out.new }
    ensures full { OnErr result (vec_capacity out.old < length out.old.items + length (line_before (tree_in checked.now) cycle site)) }
{
    push_head(out, cycle, site)?;
    push_target(out, checked, checked.site(site))?;
    out.extend_from_slice(b" at ")
}

// The line of a site that is refused at the level of a code.
fn push_line(
    out: &mut Vec<u8>,
    checked: &Checked,
    cycle: u64,
    site: u32,
    tag: u64,
) -> Result<(), AllocError>
    requires from_one { 1 ≤ site }
    requires within { site ≤ length (sites_of (tree_in checked.now)) }
    ensures text { OnOk result (out.new.items ≡ out.old.items ++ site_line (tree_in checked.now) cycle site (coded_name (levels_in checked.now) tag)) }
    ensures room { vec_capacity out.old ≤ vec_capacity out.new }
    ensures full { OnErr result (vec_capacity out.old < length out.old.items + length (site_line (tree_in checked.now) cycle site (coded_name (levels_in checked.now) tag))) }
{
    push_before(out, checked, cycle, site)?;
    push_level(out, tag, checked.lattice())?;
    out.extend_from_slice(b"\n")
}

// The line of a site that is refused at a level.
fn push_refusal(
    out: &mut Vec<u8>,
    checked: &Checked,
    site: u32,
    cycle: u64,
    at: Level,
) -> Result<(), AllocError>
    requires from_one { 1 ≤ site }
    requires within { site ≤ length (sites_of (tree_in checked.now)) }
    ensures text { OnOk result (out.new.items ≡ out.old.items ++ refusal_line (levels_in checked.now) (tree_in checked.now) cycle (record { site = site; level = at })) }
    ensures room { vec_capacity out.old ≤ vec_capacity out.new }
    ensures full { OnErr result (vec_capacity out.old < length out.old.items + length (refusal_line (levels_in checked.now) (tree_in checked.now) cycle (record { site = site; level = at }))) }
{
    push_before(out, checked, cycle, site)?;
    out.extend_from_slice(checked.lattice().name(at).as_bytes())?;
    out.extend_from_slice(b"\n")
}

/// Appends the line of a check site that a cycle refuses at a level, for which there is room. It takes no memory.
pub fn site_into(out: &mut RowBuf, checked: &Checked, site: u32, cycle: u64, at: Level)
    requires from_one { 1 ≤ site }
    requires within { site ≤ length (sites_of (tree_in checked.now)) }
    requires fits { length out.old.bytes + site_room (tree_in checked.now) site (level_name (levels_in checked.now) at) ≤ out.old.room }
    ensures text { out.new.bytes ≡ out.old.bytes ++ refusal_line (levels_in checked.now) (tree_in checked.now) cycle (record { site = site; level = at }) }
    ensures room { out.old.room ≤ out.new.room }
{
    let mut bytes = out.take();
    push_refusal(&mut bytes, checked, site, cycle, at).unwrap();
    out.put(bytes);
}

// The line of a site, where its wire tells that the last cycle refused it.
fn push_site(
    out: &mut Vec<u8>,
    runner: &Runner,
    checked: &Checked,
    wires: &Wires,
    cycle: u64,
    site: u32,
) -> Result<(), AllocError>
    requires wires { AreWires runner.now.net (length (sites_of (tree_in checked.now))) wires.now }
    requires from_one { 1 ≤ site }
    requires within { site ≤ length (sites_of (tree_in checked.now)) }
    ensures text { OnOk result ((shown : Option Valuation) → Shows runner.now shown
        → out.new.items ≡ out.old.items ++ seen_line (levels_in checked.now) (tree_in checked.now) cycle site (seen runner.now.net shown)) }
    ensures room { vec_capacity out.old ≤ vec_capacity out.new }
    ensures more { OnOk result ((line : ℕ) → HoldsLine (levels_in checked.now) (tree_in checked.now) line → HasMore line out.old.items out.new.items) }
    ensures full { OnErr result ((line : ℕ) → HoldsLine (levels_in checked.now) (tree_in checked.now) line → vec_capacity out.old < length out.old.items + line) }
{
    let place = site as usize - 1;
    if runner.at(wires.refused[place]) == 1 {
        push_line(out, checked, cycle, site, runner.at(wires.levels[place]))?;
    }
    Ok(())
}

/// Appends the lines of the sites that the last cycle refused, in rising order. It takes no memory where there is room for the
/// lines of all sites.
pub(crate) fn push_refused(
    out: &mut Vec<u8>,
    runner: &Runner,
    checked: &Checked,
    wires: &Wires,
    cycle: u64,
) -> Result<(), AllocError>
    requires { AreWires runner.now.net (length (sites_of (tree_in checked.now))) wires.now }
    ensures text { OnOk result ((shown : Option Valuation) → Shows runner.now shown
        → out.new.items ≡ out.old.items ++ seen_lines (levels_in checked.now) (tree_in checked.now) cycle 1 (length (sites_of (tree_in checked.now))) (seen runner.now.net shown)) }
    ensures more { OnOk result ((line : ℕ) → HoldsLine (levels_in checked.now) (tree_in checked.now) line → HasMore (length (sites_of (tree_in checked.now)) * line) out.old.items out.new.items) }
    ensures room { vec_capacity out.old ≤ vec_capacity out.new }
    ensures full { OnErr result ((line : ℕ) → HoldsLine (levels_in checked.now) (tree_in checked.now) line → vec_capacity out.old < length out.old.items + length (sites_of (tree_in checked.now)) * line) }
{
    for k in 0..checked.site_count() {
        push_site(out, runner, checked, wires, cycle, k + 1)?;
    }
    Ok(())
}

/// The same into a buffer that has room for the lines of all sites. It takes no memory.
pub(crate) fn refused_into(
    out: &mut RowBuf,
    runner: &Runner,
    checked: &Checked,
    wires: &Wires,
    cycle: u64,
)
    requires wires { AreWires runner.now.net (length (sites_of (tree_in checked.now))) wires.now }
    requires fits { (room : ℕ) × HoldsCycle (levels_in checked.now) (tree_in checked.now) room × (length out.old.bytes + room ≤ out.old.room) }
    ensures text { (shown : Option Valuation) → Shows runner.now shown
        → out.new.bytes ≡ out.old.bytes ++ seen_lines (levels_in checked.now) (tree_in checked.now) cycle 1 (length (sites_of (tree_in checked.now))) (seen runner.now.net shown) }
    ensures more { (room : ℕ) → HoldsCycle (levels_in checked.now) (tree_in checked.now) room → HasMore room out.old.bytes out.new.bytes }
    ensures room { out.old.room ≤ out.new.room }
{
    let mut bytes = out.take();
    push_refused(&mut bytes, runner, checked, wires, cycle).unwrap();
    out.put(bytes);
}
