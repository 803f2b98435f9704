//! Assignments to the tags of many entities.

ghost use Rattle.std.specs.Prelude.{◌≡◌, IsTrue, OnOk, if◌then◌else◌, nat_lt};
ghost use Rattle.sap_meaning.specs.Program as program;
ghost use Rattle.sap_meaning.specs.Runs.{listed_alone};
ghost use Rattle.sap_ir.specs.Plain.Nested.{stop};
ghost use Rattle.sap_ir.specs.Plain.Views.{body_of, follow};
ghost use Rattle.sap_program.specs.Hangs.{flags, rises};
ghost use Rattle.sap_program.specs.Views as views;
ghost use Rattle.sap_tagged.specs.Commands as spec;
ghost use Rattle.sap_tagged.specs.Keys.{first_key, tag_key, wire_key};
ghost use Rattle.sap_tagged.specs.Levels as levels;
ghost use Rattle.sap_tagged.specs.States as states;
ghost use Rattle.sap_tags_terms.specs.Code.{entities_in, setting_in, home_in, world_in};

use crate::pushes::{push, set_tag, wire_variable};
use sap_ir::guarded::Act;
use sap_ir::plain::nested::PlainCmd;
use sap_program::home::Home;
use sap_program::program::Step;
use sap_tags_terms::calcs::{bits, lub, tag_variable};
use sap_tags_terms::entities::is_saved;
use sap_tags_terms::names::first_name;
use sap_tags_terms::setting::Setting;
use std::alloc::{AllocError, Global};

/// The tag of an entity becomes its join with the level in a wire.
fn raise(
    alloc: Global,
    setting: &Setting<'_>,
    out: &mut Vec<PlainCmd>,
    x: usize,
    wire: u32,
) -> Result<(), AllocError>
    ensures { let d = setting_in setting.now in
        OnOk result (body_of out.new.items ≡ follow (body_of out.old.items) (spec.gives d (tag_key x) (levels.lub (levels.var d (tag_key x)) (levels.var d (wire_key wire))) stop)) }
{
    let own = tag_variable(alloc, setting, x)?;
    let level = wire_variable(setting, wire);
    let joined = lub(alloc, own, level)?;
    set_tag(alloc, setting, out, x, joined)
}

/// The same, where there is an entity of that number.
#[tactic(auto, using(crate::proofs::Pushed::behind))]
fn raise_entity(
    alloc: Global,
    setting: &Setting<'_>,
    out: &mut Vec<PlainCmd>,
    x: usize,
    wire: u32,
) -> Result<(), AllocError>
    ensures { let d = setting_in setting.now in
        OnOk result (body_of out.new.items ≡ follow (body_of out.old.items) (if nat_lt x (entities_in setting.now) then spec.gives d (tag_key x) (levels.lub (levels.var d (tag_key x)) (levels.var d (wire_key wire))) stop else stop)) }
{
    if x < setting.program.entities.len() {
        raise(alloc, setting, out, x, wire)
    } else {
        Ok(())
    }
}

/// Raises the tags of all that hangs, of which the numbers rise.
pub fn raise_all(
    alloc: Global,
    setting: &Setting<'_>,
    out: &mut Vec<PlainCmd>,
    hang: &[usize],
    wire: u32,
) -> Result<(), AllocError>
    requires { IsTrue (rises hang.now) }
    ensures { OnOk result (body_of out.new.items ≡ follow (body_of out.old.items) (spec.raises (setting_in setting.now) (program.listed (flags (entities_in setting.now) hang.now)) wire stop)) }
{
    for x in hang {
        raise_entity(alloc, setting, out, *x, wire)?;
    }
    Ok(())
}

/// Raises what a step with no handler raises: by a goto the state that is left, by a fall what hangs on it.
pub fn raise_alone(
    alloc: Global,
    setting: &Setting<'_>,
    at: &Home<'_>,
    out: &mut Vec<PlainCmd>,
    wire: u32,
    step: &Step,
) -> Result<(), AllocError>
    ensures { OnOk result (body_of out.new.items ≡ follow (body_of out.old.items) (spec.raises (setting_in setting.now) (listed_alone (world_in setting.now) (home_in setting.now at.now) (views.step_of (entities_in setting.now) step.now)) wire stop)) }
{
    match step {
        Step::Goto { .. } => {
            if setting.program.is_dynamic(at.state) {
                raise_entity(alloc, setting, out, at.state, wire)
            } else {
                Ok(())
            }
        }
        Step::Fall { hang, .. } => raise_all(alloc, setting, out, hang.numbers(), wire),
        Step::Set { .. } => Ok(()),
        Step::Write { .. } => Ok(()),
        Step::Retag { .. } => Ok(()),
        Step::RetagCell { .. } => Ok(()),
    }
}

/// Whether a goto to the target resets the tag of an entity.
fn is_reset(setting: &Setting<'_>, target: usize, x: usize) -> bool
    ensures { result ≡ spec.resets (world_in setting.now) target x }
{
    setting.program.is_state(x)
        && target < x
        && x <= setting.program.last(target)
        && setting.program.is_dynamic(x)
}

/// Resets one tag, where a goto to the target does.
#[tactic(auto, using(crate::proofs::Pushed::behind))]
fn reset(
    alloc: Global,
    setting: &Setting<'_>,
    out: &mut Vec<PlainCmd>,
    target: usize,
    x: usize,
) -> Result<(), AllocError>
    ensures { let d = setting_in setting.now in
        OnOk result (body_of out.new.items ≡ follow (body_of out.old.items) (if spec.resets d.world target x then spec.gives d (tag_key x) (levels.bits d d.world.order.bottom) stop else stop)) }
{
    if is_reset(setting, target, x) {
        set_tag(
            alloc,
            setting,
            out,
            x,
            bits(setting, setting.lattice.bottom()),
        )
    } else {
        Ok(())
    }
}

/// Resets the tags of the dynamic states below a target.
#[tactic(auto, using(crate::proofs::Raised::sweeps))]
pub(crate) fn reset_below(
    alloc: Global,
    setting: &Setting<'_>,
    out: &mut Vec<PlainCmd>,
    target: usize,
) -> Result<(), AllocError>
    ensures { let d = setting_in setting.now in
        OnOk result (body_of out.new.items ≡ follow (body_of out.old.items) (spec.for_each d tag_key (spec.resets d.world target) (λ x. levels.bits d d.world.order.bottom) stop)) }
{
    for x in 0..setting.program.entities.len() {
        reset(alloc, setting, out, target, x)?;
    }
    Ok(())
}

/// Keeps the tag of one entity, where it is a dynamic memory.
#[tactic(auto, using(crate::proofs::Pushed::behind))]
fn save(
    alloc: Global,
    setting: &Setting<'_>,
    out: &mut Vec<PlainCmd>,
    x: usize,
) -> Result<(), AllocError>
    ensures { let d = setting_in setting.now in
        OnOk result (body_of out.new.items ≡ follow (body_of out.old.items) (if states.saved d.world x then spec.gives d (first_key x) (levels.var d (tag_key x)) stop else stop)) }
{
    if is_saved(setting, x) {
        let name = first_name(setting, x);
        let tag = tag_variable(alloc, setting, x)?;
        push(out, Act::Set(name, tag))
    } else {
        Ok(())
    }
}

/// Keeps the tags of the dynamic memories.
#[tactic(auto, using(crate::proofs::Raised::sweeps))]
pub fn save_all(
    alloc: Global,
    setting: &Setting<'_>,
    out: &mut Vec<PlainCmd>,
) -> Result<(), AllocError>
    ensures { OnOk result (body_of out.new.items ≡ follow (body_of out.old.items) (states.saves (setting_in setting.now) stop)) }
{
    for x in 0..setting.program.entities.len() {
        save(alloc, setting, out, x)?;
    }
    Ok(())
}
