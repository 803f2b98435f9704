//! Bodies of states.

ghost use Rattle.std.specs.Prelude.{◌≡◌, ◌+◌, ◌++◌, ◌<◌, ◌≤◌, ◌^◌, IfOk, OnOk, length, map};
ghost use Rattle.sap_ir.specs.Calcs.{term_of};
ghost use Rattle.sap_meaning.specs.Expressions.{width_of as term_width};
ghost use Rattle.sap_meaning.specs.Program as program;
ghost use Rattle.sap_ir.specs.Plain.Nested.{cases, stop};
ghost use Rattle.sap_ir.specs.Plain.Views.{body_of, follow};
ghost use Rattle.sap_meaning.specs.Runs.{listed_alone};
ghost use Rattle.sap_program.specs.Hangs.{flags};
ghost use Rattle.sap_program.specs.Views as views;
ghost use Rattle.sap_resolved.specs.Sized.Ranges.{RangedStep, RangedTerm};
ghost use Rattle.sap_tagged.specs.Commands as spec;
ghost use Rattle.sap_tagged.specs.Keys.{wire_key};
ghost use Rattle.sap_tagged.specs.Levels as levels;
ghost use Rattle.sap_tags_terms.specs.Parts.{ArmsFew, ArmsRanged, CommandFew, CommandRanged, CommandsFew, CommandsRanged, arm_wires, command_wires, commands_wires};
ghost use Rattle.sap_tags.specs.Built.{arm_bodies, command_body, commands_body, decided};
ghost use Rattle.sap_tree.specs.Limits.{most_arms};
ghost use Rattle.sap_tags_terms.specs.Code.{entities_in, setting_in, home_in, world_in};

use sap_ir::guarded::{Act, Calc};
use sap_ir::plain::nested::PlainCmd;
use sap_ir::plain::seats;
use sap_program::hang::Hang;
use sap_program::home::Home;
use sap_program::program::{Arm, Command, Number, Step};
use sap_tags_effects::arms::{Sized, decide_block, pick};
use sap_tags_effects::outcomes::effect;
use sap_tags_effects::pushes::{push, set_wire, wire_variable};
use sap_tags_effects::raises::{raise_all, raise_alone};
use sap_tags_guards::steps::{always, guard_of, stays, test_of, written};
use sap_tags_terms::calcs::{expr, lub, tag_of, width_of, yes};
use sap_tags_terms::names::{refused_level_name, refused_name};
use sap_tags_terms::setting::Setting;
use std::alloc::{AllocError, Global};

/// A context inside another, which is in the wire `p`.
fn inside(alloc: Global, setting: &Setting<'_>, p: u32, own: u32) -> Result<Calc, AllocError>
    ensures { let d = setting_in setting.now in
        IfOk result (λ c. term_of c ≡ levels.lub (levels.var d (wire_key p)) (levels.var d (wire_key own))) }
{
    let context = wire_variable(setting, p);
    let own = wire_variable(setting, own);
    lub(alloc, context, own)
}

/// A wire gets the test of a step in the context of the wire `p`.
fn set_test(
    alloc: Global,
    setting: &Setting<'_>,
    at: &Home<'_>,
    out: &mut Vec<PlainCmd>,
    p: u32,
    wire: u32,
    step: &Step,
) -> Result<(), AllocError>
    requires { RangedStep (world_in setting.now) (views.step_of (entities_in setting.now) step.now) }
    ensures { let d = setting_in setting.now in
        OnOk result (body_of out.new.items ≡ follow (body_of out.old.items) (spec.gives d (wire_key wire) (levels.test_of d (home_in setting.now at.now) (levels.var d (wire_key p)) (views.step_of (entities_in setting.now) step.now)) stop)) }
{
    let context = wire_variable(setting, p);
    let test = test_of(alloc, setting, at, &context, step)?;
    set_wire(setting, out, wire, test)
}

/// A wire gets the guard of a step.
fn set_guard(
    alloc: Global,
    setting: &Setting<'_>,
    at: &Home<'_>,
    out: &mut Vec<PlainCmd>,
    wire: u32,
    step: &Step,
) -> Result<(), AllocError>
    requires { RangedStep (world_in setting.now) (views.step_of (entities_in setting.now) step.now) }
    ensures { let d = setting_in setting.now in
        OnOk result (body_of out.new.items ≡ follow (body_of out.old.items) (spec.gives d (wire_key wire) (levels.guard_of d (home_in setting.now at.now) (views.step_of (entities_in setting.now) step.now)) stop)) }
{
    let guard = guard_of(alloc, setting, at, step)?;
    set_wire(setting, out, wire, guard)
}

/// A wire gets the context inside another, which is in the wire `p`.
fn set_inside(
    alloc: Global,
    setting: &Setting<'_>,
    out: &mut Vec<PlainCmd>,
    p: u32,
    own: u32,
    wire: u32,
) -> Result<(), AllocError>
    ensures { let d = setting_in setting.now in
        OnOk result (body_of out.new.items ≡ follow (body_of out.old.items) (spec.gives d (wire_key wire) (levels.lub (levels.var d (wire_key p)) (levels.var d (wire_key own))) stop)) }
{
    let inner = inside(alloc, setting, p, own)?;
    set_wire(setting, out, wire, inner)
}

/// A wire gets the level that a step writes in the context of the wire `p`.
fn set_written(
    alloc: Global,
    setting: &Setting<'_>,
    out: &mut Vec<PlainCmd>,
    p: u32,
    wire: u32,
    step: &Step,
) -> Result<(), AllocError>
    requires { RangedStep (world_in setting.now) (views.step_of (entities_in setting.now) step.now) }
    ensures { let d = setting_in setting.now in
        OnOk result (body_of out.new.items ≡ follow (body_of out.old.items) (spec.gives d (wire_key wire) (levels.written d (levels.var d (wire_key p)) (views.step_of (entities_in setting.now) step.now)) stop)) }
{
    let context = wire_variable(setting, p);
    let level = written(alloc, setting, &context, step)?;
    set_wire(setting, out, wire, level)
}

/// A wire tells whether the number stays.
fn set_stays(
    alloc: Global,
    setting: &Setting<'_>,
    out: &mut Vec<PlainCmd>,
    wire: u32,
    step: &Step,
) -> Result<(), AllocError>
    requires { RangedStep (world_in setting.now) (views.step_of (entities_in setting.now) step.now) }
    ensures { let d = setting_in setting.now in
        OnOk result (body_of out.new.items ≡ follow (body_of out.old.items) (spec.gives d (wire_key wire) (levels.stays d (views.step_of (entities_in setting.now) step.now)) stop)) }
{
    let stays = stays(alloc, setting, step)?;
    set_wire(setting, out, wire, stays)
}

/// What a step in the context of the wire `p` looks at goes into the wires from `k` on.
#[tactic(auto, using(sap_tags_effects::proofs::Pushed::behind))]
fn look(
    alloc: Global,
    setting: &Setting<'_>,
    at: &Home<'_>,
    out: &mut Vec<PlainCmd>,
    p: u32,
    k: u32,
    step: &Step,
) -> Result<(), AllocError>
    requires few { k + 5 < 2 ^ 32 }
    requires ranged { RangedStep (world_in setting.now) (views.step_of (entities_in setting.now) step.now) }
    ensures { OnOk result (body_of out.new.items ≡ follow (body_of out.old.items) (spec.looks (setting_in setting.now) (home_in setting.now at.now) p k (views.step_of (entities_in setting.now) step.now) stop)) }
{
    set_test(alloc, setting, at, out, p, k, step)?;
    set_guard(alloc, setting, at, out, k + 1, step)?;
    set_inside(alloc, setting, out, p, k + 1, k + 2)?;
    set_written(alloc, setting, out, p, k + 3, step)?;
    set_stays(alloc, setting, out, k + 4, step)
}

/// What a step in the context of the wire `p` looks at, and the raises of what hangs there.
#[tactic(auto, using(sap_tags_effects::proofs::Pushed::behind))]
fn begin(
    alloc: Global,
    setting: &Setting<'_>,
    at: &Home<'_>,
    out: &mut Vec<PlainCmd>,
    p: u32,
    k: u32,
    hang: &Hang,
    step: &Step,
) -> Result<(), AllocError>
    requires few { k + 5 < 2 ^ 32 }
    requires ranged { RangedStep (world_in setting.now) (views.step_of (entities_in setting.now) step.now) }
    ensures { let d = setting_in setting.now in
        OnOk result (body_of out.new.items ≡ follow (body_of out.old.items) (spec.looks d (home_in setting.now at.now) p k (views.step_of (entities_in setting.now) step.now) (spec.raises d (program.listed (flags (entities_in setting.now) hang.now)) (k + 1) stop))) }
{
    look(alloc, setting, at, out, p, k, step)?;
    raise_all(alloc, setting, out, hang.numbers(), k + 1)
}

/// Sets what tells of a refusal.
#[tactic(auto, using(sap_tags_effects::proofs::Pushed::behind))]
fn refuse(
    setting: &Setting<'_>,
    out: &mut Vec<PlainCmd>,
    k: u32,
    step: &Step,
) -> Result<(), AllocError>
    requires { k + 5 < 2 ^ 32 }
    ensures { OnOk result (body_of out.new.items ≡ follow (body_of out.old.items) (spec.refusal (setting_in setting.now) k (views.step_of (entities_in setting.now) step.now) stop)) }
{
    let site = step.site();
    let refused = refused_name(setting, site);
    push(out, Act::Set(refused, yes()))?;
    let level = refused_level_name(setting, site);
    let context = wire_variable(setting, k + 2);
    push(out, Act::Set(level, context))
}

/// What comes behind the raises of a step; `accepted` comes behind its effect, and `refused` is what a refusal does.
#[tactic(auto, using(sap_ir::proofs::plain::Views::commands, sap_tags_effects::proofs::Pushed::accepted), unfolding(crate::specs::Built::decided))]
fn decide(
    alloc: Global,
    setting: &Setting<'_>,
    at: &Home<'_>,
    out: &mut Vec<PlainCmd>,
    k: u32,
    step: &Step,
    mut accepted: Vec<PlainCmd>,
    refused: Vec<PlainCmd>,
) -> Result<(), AllocError>
    requires few { k + 5 < 2 ^ 32 }
    requires ranged { RangedStep (world_in setting.now) (views.step_of (entities_in setting.now) step.now) }
    ensures { OnOk result (body_of out.new.items ≡ follow (body_of out.old.items) (decided (setting_in setting.now) (home_in setting.now at.now) k (views.step_of (entities_in setting.now) step.now) (body_of accepted.items) (body_of refused.items))) }
{
    if always(setting, at, step) {
        effect(alloc, setting, at, out, k, step)?;
        out.append(&mut accepted)
    } else {
        let mut passed = Vec::new(alloc);
        effect(alloc, setting, at, &mut passed, k, step)?;
        passed.append(&mut accepted)?;
        let test = wire_variable(setting, k);
        out.push(PlainCmd::If {
            test,
            yes: passed,
            no: refused,
        })?;
        Ok(())
    }
}

/// A step without a handler, whose wires are those from `k` on.
fn attempt(
    alloc: Global,
    setting: &Setting<'_>,
    at: &Home<'_>,
    out: &mut Vec<PlainCmd>,
    p: u32,
    k: u32,
    step: &Step,
) -> Result<(), AllocError>
    requires few { k + 5 < 2 ^ 32 }
    requires ranged { RangedStep (world_in setting.now) (views.step_of (entities_in setting.now) step.now) }
    ensures { let d = setting_in setting.now in
        let at = home_in setting.now at.now in
        let step = views.step_of (entities_in setting.now) step.now in
        OnOk result (body_of out.new.items ≡ follow (body_of out.old.items) (spec.attempt_of d at p k step (listed_alone d.world at step) stop)) }
{
    look(alloc, setting, at, out, p, k, step)?;
    raise_alone(alloc, setting, at, out, k + 1, step)?;
    let mut refused = Vec::new(alloc);
    refuse(setting, &mut refused, k, step)?;
    let accepted = Vec::new(alloc);
    decide(alloc, setting, at, out, k, step, accepted, refused)
}

/// The wires of a choice.
#[tactic(auto, using(sap_tags_effects::proofs::Pushed::behind))]
fn choose(
    alloc: Global,
    setting: &Setting<'_>,
    out: &mut Vec<PlainCmd>,
    p: u32,
    k: u32,
    condition: &Number,
) -> Result<(), AllocError>
    requires few { k + 2 < 2 ^ 32 }
    requires ranged { RangedTerm (world_in setting.now) (views.term_of condition.now) }
    ensures { let d = setting_in setting.now in
        OnOk result (body_of out.new.items ≡ follow (body_of out.old.items) (spec.gives d (wire_key k) (levels.tag_of d (views.term_of condition.now)) (spec.gives d (wire_key (k + 1)) (levels.lub (levels.var d (wire_key p)) (levels.var d (wire_key k))) stop))) }
{
    let level = tag_of(alloc, setting, condition)?;
    set_wire(setting, out, k, level)?;
    set_inside(alloc, setting, out, p, k, k + 1)
}

/// The wires of a choice by a condition, and the raises of what hangs there.
#[tactic(auto, using(sap_tags_effects::proofs::Pushed::behind))]
fn choose_branch(
    alloc: Global,
    setting: &Setting<'_>,
    out: &mut Vec<PlainCmd>,
    p: u32,
    k: u32,
    hang: &Hang,
    condition: &Number,
) -> Result<(), AllocError>
    requires few { k + 2 < 2 ^ 32 }
    requires ranged { RangedTerm (world_in setting.now) (views.term_of condition.now) }
    ensures { let d = setting_in setting.now in
        OnOk result (body_of out.new.items ≡ follow (body_of out.old.items) (spec.gives d (wire_key k) (levels.tag_of d (views.term_of condition.now)) (spec.gives d (wire_key (k + 1)) (levels.lub (levels.var d (wire_key p)) (levels.var d (wire_key k)))
        (spec.raises d (program.listed (flags (entities_in setting.now) hang.now)) k stop)))) }
{
    choose(alloc, setting, out, p, k, condition)?;
    raise_all(alloc, setting, out, hang.numbers(), k)
}

/// The wires of a choice by a number, which goes into wire `k + 2`, and the raises of what hangs there.
#[tactic(auto, using(sap_tags_effects::proofs::Pushed::behind))]
fn choose_arm(
    alloc: Global,
    setting: &Setting<'_>,
    out: &mut Vec<PlainCmd>,
    p: u32,
    k: u32,
    hang: &Hang,
    number: &Number,
) -> Result<(), AllocError>
    requires few { k + 4 < 2 ^ 32 }
    requires ranged { RangedTerm (world_in setting.now) (views.term_of number.now) }
    ensures { let d = setting_in setting.now in
        OnOk result (body_of out.new.items ≡ follow (body_of out.old.items) (spec.gives d (wire_key k) (levels.tag_of d (views.term_of number.now)) (spec.gives d (wire_key (k + 1)) (levels.lub (levels.var d (wire_key p)) (levels.var d (wire_key k)))
        (spec.gives d (wire_key (k + 2)) (levels.expr d (views.term_of number.now)) (spec.raises d (program.listed (flags (entities_in setting.now) hang.now)) k stop))))) }
{
    choose(alloc, setting, out, p, k, number)?;
    let value = expr(alloc, setting, number)?;
    set_wire(setting, out, k + 2, value)?;
    raise_all(alloc, setting, out, hang.numbers(), k)
}

/// Where the condition isn't 0 `yes`, else `no`.
#[tactic(auto, using(sap_ir::proofs::plain::Views::commands))]
fn select(
    alloc: Global,
    setting: &Setting<'_>,
    out: &mut Vec<PlainCmd>,
    condition: &Number,
    yes: Vec<PlainCmd>,
    no: Vec<PlainCmd>,
) -> Result<(), AllocError>
    requires { RangedTerm (world_in setting.now) (views.term_of condition.now) }
    ensures { let d = setting_in setting.now in
        OnOk result (body_of out.new.items ≡ follow (body_of out.old.items) (cases (levels.expr d (views.term_of condition.now)) (body_of yes.items) (body_of no.items) stop)) }
{
    let test = expr(alloc, setting, condition)?;
    out.push(PlainCmd::If { test, yes, no })?;
    Ok(())
}

/// A command in the context of the wire `p`, whose own wires are those from `next` on.
#[cycle(body)]
#[tactic(auto, using(sap_tags_terms::proofs::Listed::counts))]
fn command(
    alloc: Global,
    setting: &Setting<'_>,
    at: &Home<'_>,
    out: &mut Vec<PlainCmd>,
    p: u32,
    next: &mut u32,
    command: &Command,
) -> Result<(), AllocError>
    requires few { next.old + command_wires command.now < 2 ^ 32 }
    requires ranged { CommandRanged setting.now command.now }
    requires arms { CommandFew command.now }
    ensures body { OnOk result (body_of out.new.items ≡ follow (body_of out.old.items) (command_body setting.now at.now p next.old command.now)) }
    ensures wires { OnOk result (next.new ≡ next.old + command_wires command.now) }
{
    let k = *next;
    match command {
        Command::Do(step) => {
            *next = k + 5;
            attempt(alloc, setting, at, out, p, k, step)
        }
        Command::Try {
            step,
            hang,
            handler,
        } => {
            *next = k + 5;
            begin(alloc, setting, at, out, p, k, hang, step)?;
            let mut refused = Vec::new(alloc);
            refuse(setting, &mut refused, k, step)?;
            let handler = handler.as_slice();
            commands(alloc, setting, at, &mut refused, k + 2, next, handler)?;
            let accepted = Vec::new(alloc);
            decide(alloc, setting, at, out, k, step, accepted, refused)
        }
        Command::If {
            hang,
            condition,
            yes,
            no,
        } => {
            *next = k + 2;
            choose_branch(alloc, setting, out, p, k, hang, condition)?;
            let mut first = Vec::new(alloc);
            commands(alloc, setting, at, &mut first, k + 1, next, yes.as_slice())?;
            let mut second = Vec::new(alloc);
            commands(alloc, setting, at, &mut second, k + 1, next, no.as_slice())?;
            select(alloc, setting, out, condition, first, second)
        }
        Command::TryThen {
            step,
            hang,
            accepted,
            refused,
        } => {
            *next = k + 5;
            begin(alloc, setting, at, out, p, k, hang, step)?;
            let mut passed = Vec::new(alloc);
            let accepted = accepted.as_slice();
            commands(alloc, setting, at, &mut passed, k + 2, next, accepted)?;
            let mut failed = Vec::new(alloc);
            refuse(setting, &mut failed, k, step)?;
            let refused = refused.as_slice();
            commands(alloc, setting, at, &mut failed, k + 2, next, refused)?;
            decide(alloc, setting, at, out, k, step, passed, failed)
        }
        Command::Case {
            hang,
            number,
            arms,
            last,
        } => {
            *next = k + 4;
            choose_arm(alloc, setting, out, p, k, hang, number)?;
            let mut blocks = Vec::new(alloc);
            let arms = arms.as_slice();
            add_arms(alloc, setting, at, &mut blocks, k + 1, next, arms)?;
            let mut block = Vec::new(alloc);
            let last = last.as_slice();
            commands(alloc, setting, at, &mut block, k + 1, next, last)?;
            blocks.push(block)?;
            pick_block(alloc, setting, out, k, number, arms, blocks)
        }
    }
}

/// Picks a block by the number of an expression, which wire `k + 2` has, and the number of the block goes into wire `k + 3`.
#[tactic(auto, using(sap_tags_effects::proofs::Pushed::behind))]
fn pick_block(
    alloc: Global,
    setting: &Setting<'_>,
    out: &mut Vec<PlainCmd>,
    k: u32,
    number: &Number,
    arms: &[Arm],
    blocks: Vec<Vec<PlainCmd>>,
) -> Result<(), AllocError>
    requires few { k + 4 < 2 ^ 32 }
    requires ranged { RangedTerm (world_in setting.now) (views.term_of number.now) }
    requires arms { length arms.now ≤ most_arms }
    ensures { let d = setting_in setting.now in
        let all = views.arms_before (entities_in setting.now) arms.now (program.last_arm program.end_block) in
        OnOk result (body_of out.new.items ≡ follow (body_of out.old.items)
        (spec.picks d (term_width (world_in setting.now) (views.term_of number.now)) (k + 2) (spec.pick_width all) (k + 3) 0 all
        (spec.decides d (k + 3) (spec.pick_width all) (map (λ b. body_of b.items) blocks.items)))) }
{
    let seen = Sized {
        wire: k + 2,
        width: width_of(setting, number),
    };
    let picked = Sized {
        wire: k + 3,
        width: seats::width(arms.len() + 1),
    };
    pick(alloc, setting, out, &seen, &picked, arms)?;
    decide_block(alloc, setting, out, picked.wire, picked.width, blocks)
}

/// The blocks of arms.
#[cycle(body)]
#[tactic(auto, using(sap_tags_terms::proofs::Listed::counts))]
fn add_arms(
    alloc: Global,
    setting: &Setting<'_>,
    at: &Home<'_>,
    blocks: &mut Vec<Vec<PlainCmd>>,
    p: u32,
    next: &mut u32,
    arms: &[Arm],
) -> Result<(), AllocError>
    requires few { next.old + arm_wires arms.now < 2 ^ 32 }
    requires ranged { ArmsRanged setting.now arms.now }
    requires arms { ArmsFew arms.now }
    ensures blocks { OnOk result (map (λ b. body_of b.items) blocks.new.items ≡ map (λ b. body_of b.items) blocks.old.items ++ arm_bodies setting.now at.now p next.old arms.now) }
    ensures wires { OnOk result (next.new ≡ next.old + arm_wires arms.now) }
{
    for arm in arms {
        let mut block = Vec::new(alloc);
        let list = arm.block.as_slice();
        commands(alloc, setting, at, &mut block, p, next, list)?;
        blocks.push(block)?;
    }
    Ok(())
}

/// Commands in the context of the wire `p`, in order.
#[cycle(body)]
#[tactic(auto, using(sap_tags_terms::proofs::Listed::counts))]
pub(crate) fn commands(
    alloc: Global,
    setting: &Setting<'_>,
    at: &Home<'_>,
    out: &mut Vec<PlainCmd>,
    p: u32,
    next: &mut u32,
    commands: &[Command],
) -> Result<(), AllocError>
    requires few { next.old + commands_wires commands.now < 2 ^ 32 }
    requires ranged { CommandsRanged setting.now commands.now }
    requires arms { CommandsFew commands.now }
    ensures body { OnOk result (body_of out.new.items ≡ follow (body_of out.old.items) (commands_body setting.now at.now p next.old commands.now)) }
    ensures wires { OnOk result (next.new ≡ next.old + commands_wires commands.now) }
{
    for one in commands {
        command(alloc, setting, at, out, p, next, one)?;
    }
    Ok(())
}
