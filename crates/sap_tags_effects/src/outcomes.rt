//! What a step does when it isn't refused.

ghost use Rattle.std.specs.Prelude.{◌≡◌, ◌+◌, ◌<◌, ◌^◌, IfOk, OnOk, if◌then◌else◌};
ghost use Rattle.sap_ir.specs.Calcs.{term_of};
ghost use Rattle.sap_maps.specs.Term as term;
ghost use Rattle.sap_meaning.specs.Program as program;
ghost use Rattle.sap_ir.specs.Plain.Nested.{goto, stop};
ghost use Rattle.sap_ir.specs.Plain.Views.{body_of, follow};
ghost use Rattle.sap_program.specs.Views as views;
ghost use Rattle.sap_resolved.specs.Sized.Ranges.{RangedStep, RangedTerm};
ghost use Rattle.sap_tagged.specs.Commands as spec;
ghost use Rattle.sap_tagged.specs.Keys.{tag_key, value_key, wire_key};
ghost use Rattle.sap_tagged.specs.Levels as levels;
ghost use Rattle.sap_tags_terms.specs.Code.{entities_in, setting_in, home_in, world_in};

use crate::pushes::{
    put_tag, put_value, set_inner, set_tag, set_value, value_variable, wire_variable,
};
use crate::raises::reset_below;
use sap_ir::guarded::Calc;
use sap_ir::plain::nested::PlainCmd;
use sap_program::home::Home;
use sap_program::program::{Number, Step};
use sap_tags_terms::calcs::{expr, lub, tag_variable};
use sap_tags_terms::names::{state_name, value_name};
use sap_tags_terms::setting::Setting;
use std::alloc::{AllocError, Global};

/// A 0 of an entity's width.
fn zero(setting: &Setting<'_>, x: usize) -> Calc
    ensures { term_of result ≡ term.constant (program.width (world_in setting.now) x) 0 }
{
    Calc::Constant {
        width: setting.program.width(x) as u32,
        value: 0,
    }
}

/// What is there where the wire says that it stays, else 0.
fn kept(
    alloc: Global,
    setting: &Setting<'_>,
    wire: u32,
    x: usize,
    now: Calc,
) -> Result<Calc, AllocError>
    ensures { IfOk result (λ c. term_of c ≡ term.choose (levels.var (setting_in setting.now) (wire_key wire)) (term_of now) (term.constant (program.width (world_in setting.now) x) 0)) }
{
    let stays = wire_variable(setting, wire);
    Calc::choose(alloc, stays, now, zero(setting, x))
}

/// A cell of a memory as the cycle began.
fn cell(
    alloc: Global,
    setting: &Setting<'_>,
    memory: usize,
    index: Calc,
) -> Result<Calc, AllocError>
    ensures { let d = setting_in setting.now in
        IfOk result (λ c. term_of c ≡ term.cell (d.name (value_key memory)) (term_of index)) }
{
    let name = value_name(alloc, setting, memory)?;
    Calc::cell(alloc, name, index)
}

/// Sets the tag of a dynamic entity to the level in a wire.
#[tactic(auto, using(crate::proofs::Pushed::behind))]
fn follow_wire(
    alloc: Global,
    setting: &Setting<'_>,
    out: &mut Vec<PlainCmd>,
    x: usize,
    wire: u32,
) -> Result<(), AllocError>
    ensures { let d = setting_in setting.now in
        OnOk result (body_of out.new.items ≡ follow (body_of out.old.items) (if program.is_dynamic d.world x then spec.gives d (tag_key x) (levels.var d (wire_key wire)) stop else stop)) }
{
    if setting.program.is_dynamic(x) {
        let level = wire_variable(setting, wire);
        set_tag(alloc, setting, out, x, level)
    } else {
        Ok(())
    }
}

/// Joins the level in a wire to the tag of a dynamic memory.
#[tactic(auto, using(crate::proofs::Pushed::behind))]
fn join_wire(
    alloc: Global,
    setting: &Setting<'_>,
    out: &mut Vec<PlainCmd>,
    x: usize,
    wire: u32,
) -> Result<(), AllocError>
    ensures { let d = setting_in setting.now in
        OnOk result (body_of out.new.items ≡ follow (body_of out.old.items) (if program.is_dynamic d.world x then spec.gives d (tag_key x) (levels.lub (levels.var d (tag_key x)) (levels.var d (wire_key wire))) stop else stop)) }
{
    if setting.program.is_dynamic(x) {
        let own = tag_variable(alloc, setting, x)?;
        let level = wire_variable(setting, wire);
        let joined = lub(alloc, own, level)?;
        set_tag(alloc, setting, out, x, joined)
    } else {
        Ok(())
    }
}

/// Keeps the number of a register or sets it to 0, as the wire says.
#[tactic(auto, using(crate::proofs::Pushed::behind))]
fn keep_register(
    alloc: Global,
    setting: &Setting<'_>,
    out: &mut Vec<PlainCmd>,
    x: usize,
    wire: u32,
) -> Result<(), AllocError>
    ensures { let d = setting_in setting.now in
        OnOk result (body_of out.new.items ≡ follow (body_of out.old.items) (if program.is_register d.world x then spec.gives d (value_key x) (term.choose (levels.var d (wire_key wire)) (levels.var d (value_key x)) (term.constant (program.width d.world x) 0)) stop else stop)) }
{
    if setting.program.is_register(x) {
        let now = value_variable(alloc, setting, x)?;
        let value = kept(alloc, setting, wire, x, now)?;
        set_value(alloc, setting, out, x, value)
    } else {
        Ok(())
    }
}

/// Keeps the number of a cell or sets it to 0, as the wire says.
fn keep_cell(
    alloc: Global,
    setting: &Setting<'_>,
    out: &mut Vec<PlainCmd>,
    memory: usize,
    index: &Number,
    wire: u32,
) -> Result<(), AllocError>
    requires { RangedTerm (world_in setting.now) (views.term_of index.now) }
    ensures { let d = setting_in setting.now in
        let i = levels.expr d (views.term_of index.now) in
        OnOk result (body_of out.new.items ≡ follow (body_of out.old.items) (spec.stores d (value_key memory) i (term.choose (levels.var d (wire_key wire)) (term.cell (d.name (value_key memory)) i) (term.constant (program.width d.world memory) 0)) stop)) }
{
    let place = expr(alloc, setting, index)?;
    let now = cell(alloc, setting, memory, place)?;
    let value = kept(alloc, setting, wire, memory, now)?;
    let place = expr(alloc, setting, index)?;
    put_value(alloc, setting, out, memory, place, value)
}

/// Goes to a state.
#[tactic(auto, using(sap_ir::proofs::plain::Views::commands))]
fn go(
    alloc: Global,
    setting: &Setting<'_>,
    out: &mut Vec<PlainCmd>,
    target: usize,
) -> Result<(), AllocError>
    ensures { let d = setting_in setting.now in
        OnOk result (body_of out.new.items ≡ follow (body_of out.old.items) (goto (d.state_name target) stop)) }
{
    let name = state_name(alloc, setting, target)?;
    out.push(PlainCmd::Goto(name))?;
    Ok(())
}

/// The effect of a step, which finds what it looked at in the wires from `k` on.
#[tactic(auto, using(sap_ir::proofs::plain::Views::commands, crate::proofs::Pushed::effects))]
pub fn effect(
    alloc: Global,
    setting: &Setting<'_>,
    at: &Home<'_>,
    out: &mut Vec<PlainCmd>,
    k: u32,
    step: &Step,
) -> Result<(), AllocError>
    requires few { k + 5 < 2 ^ 32 }
    requires ranged { RangedStep (world_in setting.now) (views.step_of (entities_in setting.now) step.now) }
    ensures { OnOk result (body_of out.new.items ≡ follow (body_of out.old.items) (spec.effect_of (setting_in setting.now) (home_in setting.now at.now) k (views.step_of (entities_in setting.now) step.now))) }
{
    match step {
        Step::Set {
            register,
            value,
            ..
        } => {
            follow_wire(alloc, setting, out, *register, k + 3)?;
            let value = expr(alloc, setting, value)?;
            set_value(alloc, setting, out, *register, value)
        }
        Step::Write {
            memory,
            index,
            value,
            ..
        } => {
            let index = expr(alloc, setting, index)?;
            let value = expr(alloc, setting, value)?;
            put_value(alloc, setting, out, *memory, index, value)?;
            join_wire(alloc, setting, out, *memory, k + 3)
        }
        Step::Retag { entity, .. } => {
            let level = wire_variable(setting, k + 3);
            set_tag(alloc, setting, out, *entity, level)?;
            keep_register(alloc, setting, out, *entity, k + 4)
        }
        Step::RetagCell { memory, index, .. } => {
            let place = expr(alloc, setting, index)?;
            let level = wire_variable(setting, k + 3);
            put_tag(alloc, setting, out, *memory, place, level)?;
            keep_cell(alloc, setting, out, *memory, index, k + 4)
        }
        Step::Goto { target, .. } => {
            reset_below(alloc, setting, out, *target)?;
            follow_wire(alloc, setting, out, *target, k + 3)?;
            go(alloc, setting, out, *target)
        }
        Step::Fall { .. } => {
            let context = wire_variable(setting, k + 2);
            set_inner(setting, out, at.state, context)?;
            out.push(PlainCmd::Fall)?;
            Ok(())
        }
    }
}
