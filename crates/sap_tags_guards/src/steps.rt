//! The terms of steps: their guards, their tests and the levels that they write.

ghost use Rattle.std.specs.Prelude.{◌≡◌, ◌+◌, ◌<◌, ◌^◌, IfOk, if◌then◌else◌, length};
ghost use Rattle.sap_ir.specs.Calcs as calcs;
ghost use Rattle.sap_maps.specs.Term as term;
ghost use Rattle.sap_meaning.specs.Checks.{entry};
ghost use Rattle.sap_meaning.specs.Program as program;
ghost use Rattle.sap_program.specs.Views as views;
ghost use Rattle.sap_resolved.specs.Sized.Ranges.{RangedLevel, RangedStep, RangedTerm};
ghost use Rattle.sap_tagged.specs.Keys.{tag_key};
ghost use Rattle.sap_tagged.specs.Levels as spec;
ghost use Rattle.sap_tags_terms.specs.Code.{entities_in, setting_in, home_in, world_in};

use sap_bits::Op2;
use sap_ir::guarded::Calc;
use sap_ir::plain::seats;
use sap_program::home::Home;
use sap_program::program::{Number, State, Step, TagOf};
use sap_tags_terms::calcs::{
    below_or_at, bits, cell_variable, enters, expr, is_number, lub, new_tag, tag_of, tag_variable,
    told_tag, yes,
};
use sap_tags_terms::names::seat_name;
use sap_tags_terms::setting::Setting;
use std::alloc::{AllocError, Global};

/// The width of the number of a state's current child.
fn seat_bits(setting: &Setting<'_>, state: usize) -> u32
    ensures { result ≡ spec.seat_bits (setting_in setting.now) state }
{
    seats::width(setting.program.child_count(state))
}

/// The number of a state's current child.
fn seat_of(alloc: Global, setting: &Setting<'_>, state: usize) -> Result<Calc, AllocError>
    ensures { IfOk result (λ c. calcs.term_of c ≡ spec.seat_of (setting_in setting.now) state) }
{
    Ok(Calc::Read(seat_name(alloc, setting, state)?))
}

/// The tag of the current child, whose number is `seat`, of the children from the i-th on.
fn child_tag(
    alloc: Global,
    setting: &Setting<'_>,
    width: u32,
    seat: &Calc,
    children: &[State],
    i: u64,
) -> Result<Calc, AllocError>
    requires { i + length children.now < 2 ^ 64 }
    ensures { IfOk result (λ c. calcs.term_of c ≡ spec.child_tag (setting_in setting.now) width (calcs.term_of seat.now) (views.group_of (entities_in setting.now) children.now) i) }
{
    match children {
        [] => Ok(bits(setting, setting.lattice.bottom())),
        [only] => tag_variable(alloc, setting, only.number),
        [first, rest @ ..] => {
            let test = is_number(alloc, seat, width, i)?;
            let own = tag_variable(alloc, setting, first.number)?;
            let others = child_tag(alloc, setting, width, seat, rest, i + 1)?;
            Calc::choose(alloc, test, own, others)
        }
    }
}

/// The current child, likewise, may be entered in a context.
fn child_enters(
    alloc: Global,
    setting: &Setting<'_>,
    context: &Calc,
    width: u32,
    seat: &Calc,
    children: &[State],
    i: u64,
) -> Result<Calc, AllocError>
    requires { i + length children.now < 2 ^ 64 }
    ensures { IfOk result (λ c. calcs.term_of c ≡ spec.child_enters (setting_in setting.now) (calcs.term_of context.now) width (calcs.term_of seat.now) (views.group_of (entities_in setting.now) children.now) i) }
{
    match children {
        [] => Ok(yes()),
        [only] => {
            let context = context.copy(alloc)?;
            enters(alloc, setting, context, only.number)
        }
        [first, rest @ ..] => {
            let test = is_number(alloc, seat, width, i)?;
            let again = context.copy(alloc)?;
            let own = enters(alloc, setting, again, first.number)?;
            let others = child_enters(alloc, setting, context, width, seat, rest, i + 1)?;
            Calc::choose(alloc, test, own, others)
        }
    }
}

/// Whether each child is dynamic.
fn all_dynamic(setting: &Setting<'_>, children: &[State]) -> bool
    ensures { result ≡ spec.all_dynamic (world_in setting.now) (views.group_of (entities_in setting.now) children.now) }
{
    match children {
        [] => true,
        [first, rest @ ..] => setting.program.is_dynamic(first.number)
            && all_dynamic(setting, rest),
    }
}

/// The level of a cell of a memory that isn't dynamic, and of which cell it is.
fn cell_guard(
    alloc: Global,
    setting: &Setting<'_>,
    memory: usize,
    index: &Number,
) -> Result<Calc, AllocError>
    requires { RangedTerm (world_in setting.now) (views.term_of index.now) }
    ensures { let s = setting_in setting.now in let i = views.term_of index.now in
        IfOk result (λ c. calcs.term_of c ≡ spec.lub (spec.tag_of s i) (term.cell (s.name (tag_key memory)) (spec.expr s i))) }
{
    let picked = tag_of(alloc, setting, index)?;
    let cell = cell_variable(alloc, setting, memory, index)?;
    lub(alloc, picked, cell)
}

/// The guard of a step: the level of what it overwrites, and of what decides that.
pub fn guard_of(
    alloc: Global,
    setting: &Setting<'_>,
    at: &Home<'_>,
    step: &Step,
) -> Result<Calc, AllocError>
    requires { RangedStep (world_in setting.now) (views.step_of (entities_in setting.now) step.now) }
    ensures { IfOk result (λ c. calcs.term_of c ≡ spec.guard_of (setting_in setting.now) (home_in setting.now at.now) (views.step_of (entities_in setting.now) step.now)) }
{
    match step {
        Step::Set { register, .. } => {
            if setting.program.is_dynamic(*register) {
                Ok(bits(setting, setting.lattice.bottom()))
            } else {
                tag_variable(alloc, setting, *register)
            }
        }
        Step::Write { memory, index, .. } => {
            if setting.program.is_dynamic(*memory) {
                Ok(bits(setting, setting.lattice.bottom()))
            } else {
                cell_guard(alloc, setting, *memory, index)
            }
        }
        Step::Retag { entity, .. } => Ok(bits(setting, setting.program.authority(*entity))),
        Step::RetagCell { memory, .. } => Ok(bits(setting, setting.program.authority(*memory))),
        Step::Goto { target, .. } => Ok(bits(
            setting,
            setting.program.entry(setting.lattice, *target),
        )),
        Step::Fall { .. } => {
            let width = seat_bits(setting, at.state);
            let seat = seat_of(alloc, setting, at.state)?;
            child_tag(alloc, setting, width, &seat, at.children, 0)
        }
    }
}

/// The join of a context and a level.
fn in_context(alloc: Global, context: &Calc, level: Calc) -> Result<Calc, AllocError>
    ensures { IfOk result (λ c. calcs.term_of c ≡ spec.lub (calcs.term_of context.now) (calcs.term_of level)) }
{
    let context = context.copy(alloc)?;
    lub(alloc, context, level)
}

/// The level that a register gets in a context.
fn set_level(
    alloc: Global,
    setting: &Setting<'_>,
    context: &Calc,
    value: &Number,
) -> Result<Calc, AllocError>
    requires { RangedTerm (world_in setting.now) (views.term_of value.now) }
    ensures { IfOk result (λ c. calcs.term_of c ≡ spec.lub (calcs.term_of context.now) (spec.tag_of (setting_in setting.now) (views.term_of value.now))) }
{
    let value = tag_of(alloc, setting, value)?;
    in_context(alloc, context, value)
}

/// The level that a cell gets in a context.
fn write_level(
    alloc: Global,
    setting: &Setting<'_>,
    context: &Calc,
    index: &Number,
    value: &Number,
) -> Result<Calc, AllocError>
    requires index { RangedTerm (world_in setting.now) (views.term_of index.now) }
    requires value { RangedTerm (world_in setting.now) (views.term_of value.now) }
    ensures { let s = setting_in setting.now in
        IfOk result (λ c. calcs.term_of c ≡ spec.lub (calcs.term_of context.now) (spec.lub (spec.tag_of s (views.term_of index.now)) (spec.tag_of s (views.term_of value.now)))) }
{
    let picked = tag_of(alloc, setting, index)?;
    let value = tag_of(alloc, setting, value)?;
    let both = lub(alloc, picked, value)?;
    in_context(alloc, context, both)
}

/// A register that isn't dynamic may be set in a context.
fn may_set(
    alloc: Global,
    setting: &Setting<'_>,
    context: &Calc,
    register: usize,
    value: &Number,
) -> Result<Calc, AllocError>
    requires { RangedTerm (world_in setting.now) (views.term_of value.now) }
    ensures { let s = setting_in setting.now in
        IfOk result (λ c. calcs.term_of c ≡ spec.below_or_at (spec.lub (calcs.term_of context.now) (spec.tag_of s (views.term_of value.now))) (spec.var s (tag_key register))) }
{
    let level = set_level(alloc, setting, context, value)?;
    let own = tag_variable(alloc, setting, register)?;
    below_or_at(alloc, level, own)
}

/// A cell of a memory that isn't dynamic may be written in a context.
fn may_write(
    alloc: Global,
    setting: &Setting<'_>,
    context: &Calc,
    memory: usize,
    index: &Number,
    value: &Number,
) -> Result<Calc, AllocError>
    requires index { RangedTerm (world_in setting.now) (views.term_of index.now) }
    requires value { RangedTerm (world_in setting.now) (views.term_of value.now) }
    ensures { let s = setting_in setting.now in let i = views.term_of index.now in
        IfOk result (λ c. calcs.term_of c ≡ spec.below_or_at (spec.lub (calcs.term_of context.now) (spec.lub (spec.tag_of s i) (spec.tag_of s (views.term_of value.now)))) (term.cell (s.name (tag_key memory)) (spec.expr s i))) }
{
    let level = write_level(alloc, setting, context, index, value)?;
    let cell = cell_variable(alloc, setting, memory, index)?;
    below_or_at(alloc, level, cell)
}

/// What a retag of a cell tells.
fn told_cell(
    alloc: Global,
    setting: &Setting<'_>,
    index: &Number,
    tag: &TagOf,
) -> Result<Calc, AllocError>
    requires index { RangedTerm (world_in setting.now) (views.term_of index.now) }
    requires tag { RangedLevel (world_in setting.now) (views.level_of tag.now) }
    ensures { let s = setting_in setting.now in
        IfOk result (λ c. calcs.term_of c ≡ spec.lub (spec.told_tag s (views.level_of tag.now)) (spec.tag_of s (views.term_of index.now))) }
{
    let told = told_tag(alloc, setting, tag)?;
    let picked = tag_of(alloc, setting, index)?;
    lub(alloc, told, picked)
}

/// What is told and the context are at or below an entity's authority, and that at or below the new level.
fn may_retag(
    alloc: Global,
    setting: &Setting<'_>,
    context: &Calc,
    told: Calc,
    entity: usize,
    tag: &TagOf,
) -> Result<Calc, AllocError>
    requires { RangedLevel (world_in setting.now) (views.level_of tag.now) }
    ensures { let s = setting_in setting.now in let own = spec.bits s (program.authority (world_in setting.now) entity) in
        IfOk result (λ c. calcs.term_of c ≡ term.two Op2.And (spec.below_or_at (spec.lub (calcs.term_of context.now) (calcs.term_of told)) own) (spec.below_or_at own (spec.new_tag s (views.level_of tag.now)))) }
{
    let level = in_context(alloc, context, told)?;
    let told_below = below_or_at(
        alloc,
        level,
        bits(setting, setting.program.authority(entity)),
    )?;
    let own = bits(setting, setting.program.authority(entity));
    let new_above = below_new(alloc, setting, own, tag)?;
    Calc::two(alloc, Op2::And, told_below, new_above)
}

/// A state may be left for another in a context.
fn may_leave(
    alloc: Global,
    setting: &Setting<'_>,
    context: &Calc,
    state: usize,
    target: usize,
) -> Result<Calc, AllocError>
    ensures { let s = setting_in setting.now in let w = world_in setting.now in
        IfOk result (λ c. calcs.term_of c ≡ (if program.is_dynamic w state then spec.yes else spec.below_or_at (spec.lub (calcs.term_of context.now) (spec.bits s (entry w target))) (spec.var s (tag_key state)))) }
{
    if setting.program.is_dynamic(state) {
        Ok(yes())
    } else {
        let level = in_context(
            alloc,
            context,
            bits(setting, setting.program.entry(setting.lattice, target)),
        )?;
        let own = tag_variable(alloc, setting, state)?;
        below_or_at(alloc, level, own)
    }
}

/// A state may be left for another, and that entered, in a context.
fn may_go(
    alloc: Global,
    setting: &Setting<'_>,
    context: &Calc,
    state: usize,
    target: usize,
) -> Result<Calc, AllocError>
    ensures { let s = setting_in setting.now in let w = world_in setting.now in
        IfOk result (λ c. calcs.term_of c ≡ term.two Op2.And (spec.enters s (calcs.term_of context.now) target) (if program.is_dynamic w state then spec.yes else spec.below_or_at (spec.lub (calcs.term_of context.now) (spec.bits s (entry w target))) (spec.var s (tag_key state)))) }
{
    let again = context.copy(alloc)?;
    let may_enter = enters(alloc, setting, again, target)?;
    let may_leave = may_leave(alloc, setting, context, state, target)?;
    Calc::two(alloc, Op2::And, may_enter, may_leave)
}

/// A step passes its check in a context.
pub fn test_of(
    alloc: Global,
    setting: &Setting<'_>,
    at: &Home<'_>,
    context: &Calc,
    step: &Step,
) -> Result<Calc, AllocError>
    requires { RangedStep (world_in setting.now) (views.step_of (entities_in setting.now) step.now) }
    ensures { IfOk result (λ c. calcs.term_of c ≡ spec.test_of (setting_in setting.now) (home_in setting.now at.now) (calcs.term_of context.now) (views.step_of (entities_in setting.now) step.now)) }
{
    match step {
        Step::Set {
            register,
            value,
            ..
        } => {
            if setting.program.is_dynamic(*register) {
                Ok(yes())
            } else {
                may_set(alloc, setting, context, *register, value)
            }
        }
        Step::Write {
            memory,
            index,
            value,
            ..
        } => {
            if setting.program.is_dynamic(*memory) {
                Ok(yes())
            } else {
                may_write(alloc, setting, context, *memory, index, value)
            }
        }
        Step::Retag { entity, tag, .. } => {
            let told = told_tag(alloc, setting, tag)?;
            may_retag(alloc, setting, context, told, *entity, tag)
        }
        Step::RetagCell {
            memory,
            index,
            tag,
            ..
        } => {
            let told = told_cell(alloc, setting, index, tag)?;
            may_retag(alloc, setting, context, told, *memory, tag)
        }
        Step::Goto { target, .. } => may_go(alloc, setting, context, at.state, *target),
        Step::Fall { .. } => {
            let width = seat_bits(setting, at.state);
            let seat = seat_of(alloc, setting, at.state)?;
            child_enters(alloc, setting, context, width, &seat, at.children, 0)
        }
    }
}

/// The level that a step writes in a context.
pub fn written(
    alloc: Global,
    setting: &Setting<'_>,
    context: &Calc,
    step: &Step,
) -> Result<Calc, AllocError>
    requires { RangedStep (world_in setting.now) (views.step_of (entities_in setting.now) step.now) }
    ensures { IfOk result (λ c. calcs.term_of c ≡ spec.written (setting_in setting.now) (calcs.term_of context.now) (views.step_of (entities_in setting.now) step.now)) }
{
    match step {
        Step::Set { value, .. } => set_level(alloc, setting, context, value),
        Step::Write { index, value, .. } => write_level(alloc, setting, context, index, value),
        Step::Retag { tag, .. } => new_tag(alloc, setting, tag),
        Step::RetagCell { tag, .. } => new_tag(alloc, setting, tag),
        Step::Goto { .. } => context.copy(alloc),
        Step::Fall { .. } => context.copy(alloc),
    }
}

/// A level is at or below the one that a tag expression gives.
fn below_new(
    alloc: Global,
    setting: &Setting<'_>,
    level: Calc,
    tag: &TagOf,
) -> Result<Calc, AllocError>
    requires { RangedLevel (world_in setting.now) (views.level_of tag.now) }
    ensures { IfOk result (λ c. calcs.term_of c ≡ spec.below_or_at (calcs.term_of level) (spec.new_tag (setting_in setting.now) (views.level_of tag.now))) }
{
    let new = new_tag(alloc, setting, tag)?;
    below_or_at(alloc, level, new)
}

/// The number stays where the level does not fall.
pub fn stays(alloc: Global, setting: &Setting<'_>, step: &Step) -> Result<Calc, AllocError>
    requires { RangedStep (world_in setting.now) (views.step_of (entities_in setting.now) step.now) }
    ensures { IfOk result (λ c. calcs.term_of c ≡ spec.stays (setting_in setting.now) (views.step_of (entities_in setting.now) step.now)) }
{
    match step {
        Step::Retag { entity, tag, .. } => {
            let own = tag_variable(alloc, setting, *entity)?;
            below_new(alloc, setting, own, tag)
        }
        Step::RetagCell {
            memory,
            index,
            tag,
            ..
        } => {
            let own = cell_variable(alloc, setting, *memory, index)?;
            below_new(alloc, setting, own, tag)
        }
        Step::Set { .. } => Ok(yes()),
        Step::Write { .. } => Ok(yes()),
        Step::Goto { .. } => Ok(yes()),
        Step::Fall { .. } => Ok(yes()),
    }
}

/// Whether a step is no check site.
pub fn always(setting: &Setting<'_>, at: &Home<'_>, step: &Step) -> bool
    ensures { result ≡ spec.always (world_in setting.now) (home_in setting.now at.now) (views.step_of (entities_in setting.now) step.now) }
{
    match step {
        Step::Set { register, .. } => setting.program.is_dynamic(*register),
        Step::Write { memory, .. } => setting.program.is_dynamic(*memory),
        Step::Retag { .. } => false,
        Step::RetagCell { .. } => false,
        Step::Goto { target, .. } => setting.program.is_dynamic(*target)
            && setting.program.is_dynamic(at.state),
        Step::Fall { .. } => all_dynamic(setting, at.children),
    }
}
