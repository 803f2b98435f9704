//! Wires.

ghost use Rattle.std.specs.Prelude.{◌≡◌, ◌+◌, ◌<◌, ◌^◌, ◌++◌, ◌∷◌, [], IfOk, OnOk};
ghost use Rattle.sap_meaning.specs.Program as program;
ghost use Rattle.sap_program.specs.Views.{arms_before, block_of, command_of, group_of, state_of};
ghost use Rattle.sap_tagged.specs.Commands as commands;
ghost use Rattle.sap_tagged.specs.Keys as keys;
ghost use Rattle.sap_tagged.specs.Plain as plain;
ghost use Rattle.sap_tagged.specs.States as states;
ghost use Rattle.sap_tags_terms.specs.Parts.{ArmsFew, ArmsRanged, CommandFew, CommandRanged, CommandsFew, CommandsRanged, StateFew, StateRanged, StatesFew, StatesRanged, arm_wires};
ghost use Rattle.sap_tags_terms.specs.Code.{entities_in, named_in, tag_width};

use sap_ir::guarded::Var;
use sap_ir::plain::seats;
use sap_program::program::{Arm, Command, State};
use sap_tags_terms::calcs::width_of;
use sap_tags_terms::entities::is_saved;
use sap_tags_terms::names::{first_name, inner_name, refused_level_name, refused_name, wire_name};
use sap_tags_terms::setting::Setting;
use std::alloc::{AllocError, Global};

/// Whether a site is refused, and at which level.
fn add_site(setting: &Setting<'_>, wires: &mut Vec<Var>, site: u32) -> Result<(), AllocError>
    ensures { OnOk result (wires.new.items ≡ wires.old.items ++ plain.site_wires (named_in setting.now) (tag_width setting.now) site 1) }
{
    let name = refused_name(setting, site);
    wires.push(Var {
        name,
        width: 1,
        start: 0,
    })?;
    let name = refused_level_name(setting, site);
    let width = setting.lattice.width();
    wires.push(Var {
        name,
        width,
        start: 0,
    })?;
    Ok(())
}

/// Two wires for each check site: these are ports.
pub fn add_site_wires(setting: &Setting<'_>, wires: &mut Vec<Var>) -> Result<(), AllocError>
    ensures { OnOk result (wires.new.items ≡ wires.old.items ++ plain.site_wires (named_in setting.now) (tag_width setting.now) 1 setting.now.program.now.sites) }
{
    for before in 0..setting.program.sites {
        add_site(setting, wires, before + 1)?;
    }
    Ok(())
}

/// The tag of a memory as the cycle began.
fn add_first(setting: &Setting<'_>, wires: &mut Vec<Var>, m: usize) -> Result<(), AllocError>
    ensures { OnOk result (wires.new.items ≡ wires.old.items ++ plain.variable (keys.key_name (named_in setting.now) (keys.first_key m)) (tag_width setting.now) 0 ∷ []) }
{
    let name = first_name(setting, m);
    let width = setting.lattice.width();
    wires.push(Var {
        name,
        width,
        start: 0,
    })?;
    Ok(())
}

/// The tags of dynamic memories as the cycle began.
pub fn add_first_wires(setting: &Setting<'_>, wires: &mut Vec<Var>) -> Result<(), AllocError>
    ensures { OnOk result (wires.new.items ≡ wires.old.items ++ plain.first_wires (named_in setting.now) (tag_width setting.now)) }
{
    for m in 0..setting.program.entities.len() {
        if is_saved(setting, m) {
            add_first(setting, wires, m)?;
        }
    }
    Ok(())
}

/// The context of the children of a state.
fn add_inner(setting: &Setting<'_>, wires: &mut Vec<Var>, state: usize) -> Result<(), AllocError>
    ensures { OnOk result (wires.new.items ≡ wires.old.items ++ plain.variable (keys.key_name (named_in setting.now) (keys.inner_key state)) (tag_width setting.now) 0 ∷ []) }
{
    let name = inner_name(setting, state);
    let width = setting.lattice.width();
    wires.push(Var {
        name,
        width,
        start: 0,
    })?;
    Ok(())
}

/// The contexts of the children of all states that have children.
pub fn add_inner_wires(setting: &Setting<'_>, wires: &mut Vec<Var>) -> Result<(), AllocError>
    ensures { OnOk result (wires.new.items ≡ wires.old.items ++ plain.inner_wires (named_in setting.now) (tag_width setting.now)) }
{
    for state in 0..setting.program.entities.len() {
        if setting.program.child_count(state) > 0 {
            add_inner(setting, wires, state)?;
        }
    }
    Ok(())
}

/// A wire of the program's own.
fn add_wire(
    setting: &Setting<'_>,
    wires: &mut Vec<Var>,
    k: u32,
    width: u32,
) -> Result<(), AllocError>
    ensures { OnOk result (wires.new.items ≡ wires.old.items ++ plain.wire (named_in setting.now) k width ∷ []) }
{
    let name = wire_name(setting, k);
    wires.push(Var {
        name,
        width,
        start: 0,
    })?;
    Ok(())
}

/// A step's wires, from wire k on, and the number of the next wire.
fn add_step(setting: &Setting<'_>, wires: &mut Vec<Var>, k: u32) -> Result<u32, AllocError>
    requires { k + 5 < 2 ^ 32 }
    ensures wires { OnOk result (wires.new.items ≡ wires.old.items ++ plain.step_wires (named_in setting.now) (tag_width setting.now) k) }
    ensures next { IfOk result (λ next. next ≡ k + 5) }
{
    let tag = setting.lattice.width();
    add_wire(setting, wires, k, 1)?;
    add_wire(setting, wires, k + 1, tag)?;
    add_wire(setting, wires, k + 2, tag)?;
    add_wire(setting, wires, k + 3, tag)?;
    add_wire(setting, wires, k + 4, 1)?;
    Ok(k + 5)
}

/// A command's wires, from wire k on, and the number of the next wire.
#[cycle(body)]
#[tactic(auto, using(crate::proofs::Wirings::commands))]
fn add_command(
    alloc: Global,
    setting: &Setting<'_>,
    wires: &mut Vec<Var>,
    k: u32,
    command: &Command,
) -> Result<u32, AllocError>
    requires few { k + commands.wires (command_of (entities_in setting.now) command.now) < 2 ^ 32 }
    requires ranged { CommandRanged setting.now command.now }
    requires arms { CommandFew command.now }
    ensures wires { OnOk result (wires.new.items ≡ wires.old.items ++ plain.command_wires (named_in setting.now) (tag_width setting.now) k (command_of (entities_in setting.now) command.now)) }
    ensures next { IfOk result (λ next. next ≡ k + commands.wires (command_of (entities_in setting.now) command.now)) }
{
    match command {
        Command::Do(_) => add_step(setting, wires, k),
        Command::Try { handler, .. } => {
            let next = add_step(setting, wires, k)?;
            add_block(alloc, setting, wires, next, handler.as_slice())
        }
        Command::If { yes, no, .. } => {
            let tag = setting.lattice.width();
            add_wire(setting, wires, k, tag)?;
            add_wire(setting, wires, k + 1, tag)?;
            let next = add_block(alloc, setting, wires, k + 2, yes.as_slice())?;
            add_block(alloc, setting, wires, next, no.as_slice())
        }
        Command::TryThen {
            accepted,
            refused,
            ..
        } => {
            let next = add_step(setting, wires, k)?;
            let next = add_block(alloc, setting, wires, next, accepted.as_slice())?;
            add_block(alloc, setting, wires, next, refused.as_slice())
        }
        Command::Case {
            number,
            arms,
            last,
            ..
        } => {
            let tag = setting.lattice.width();
            add_wire(setting, wires, k, tag)?;
            add_wire(setting, wires, k + 1, tag)?;
            let width = width_of(setting, number);
            add_wire(setting, wires, k + 2, width)?;
            let width = seats::width(arms.len() + 1);
            add_wire(setting, wires, k + 3, width)?;
            let next = add_arms(alloc, setting, wires, k + 4, arms.as_slice())?;
            add_block(alloc, setting, wires, next, last.as_slice())
        }
    }
}

/// The wires of the blocks of arms, from wire k on, and the number of the next wire.
#[cycle(body)]
#[tactic(auto, using(crate::proofs::Wirings::arms))]
fn add_arms(
    alloc: Global,
    setting: &Setting<'_>,
    wires: &mut Vec<Var>,
    k: u32,
    arms: &[Arm],
) -> Result<u32, AllocError>
    requires few { k + arm_wires arms.now < 2 ^ 32 }
    requires ranged { ArmsRanged setting.now arms.now }
    requires arms { ArmsFew arms.now }
    ensures wires { OnOk result (wires.new.items ≡ wires.old.items ++ plain.arms_wires (named_in setting.now) (tag_width setting.now) k (arms_before (entities_in setting.now) arms.now (program.last_arm program.end_block))) }
    ensures next { IfOk result (λ next. next ≡ k + arm_wires arms.now) }
{
    let mut next = k;
    for arm in arms {
        next = add_block(alloc, setting, wires, next, arm.block.as_slice())?;
    }
    Ok(next)
}

/// The wires of commands, from wire k on, and the number of the next wire.
#[cycle(body)]
#[tactic(auto, using(crate::proofs::Wirings::blocks))]
fn add_block(
    alloc: Global,
    setting: &Setting<'_>,
    wires: &mut Vec<Var>,
    k: u32,
    block: &[Command],
) -> Result<u32, AllocError>
    requires few { k + commands.wires_block (block_of (entities_in setting.now) block.now) < 2 ^ 32 }
    requires ranged { CommandsRanged setting.now block.now }
    requires arms { CommandsFew block.now }
    ensures wires { OnOk result (wires.new.items ≡ wires.old.items ++ plain.block_wires (named_in setting.now) (tag_width setting.now) k (block_of (entities_in setting.now) block.now)) }
    ensures next { IfOk result (λ next. next ≡ k + commands.wires_block (block_of (entities_in setting.now) block.now)) }
{
    let mut next = k;
    for command in block {
        next = add_command(alloc, setting, wires, next, command)?;
    }
    Ok(next)
}

/// The wires of a state and of all below it, from wire k on, and the number of the next wire.
#[cycle(group)]
#[tactic(auto, using(crate::proofs::Wirings::states))]
fn add_state(
    alloc: Global,
    setting: &Setting<'_>,
    wires: &mut Vec<Var>,
    k: u32,
    state: &State,
) -> Result<u32, AllocError>
    requires few { k + states.wires_state (state_of (entities_in setting.now) state.now) < 2 ^ 32 }
    requires ranged { StateRanged setting.now state.now }
    requires arms { StateFew state.now }
    ensures wires { OnOk result (wires.new.items ≡ wires.old.items ++ plain.state_wires (named_in setting.now) (tag_width setting.now) k (state_of (entities_in setting.now) state.now)) }
    ensures next { IfOk result (λ next. next ≡ k + states.wires_state (state_of (entities_in setting.now) state.now)) }
{
    add_wire(setting, wires, k, setting.lattice.width())?;
    let next = add_block(alloc, setting, wires, k + 1, state.body.as_slice())?;
    add_group(alloc, setting, wires, next, state.children.as_slice())
}

/// The wires of the states of a group, from wire k on, and the number of the next wire.
#[cycle(group)]
#[tactic(auto, using(crate::proofs::Wirings::groups))]
fn add_group(
    alloc: Global,
    setting: &Setting<'_>,
    wires: &mut Vec<Var>,
    k: u32,
    group: &[State],
) -> Result<u32, AllocError>
    requires few { k + states.wires_group (group_of (entities_in setting.now) group.now) < 2 ^ 32 }
    requires ranged { StatesRanged setting.now group.now }
    requires arms { StatesFew group.now }
    ensures wires { OnOk result (wires.new.items ≡ wires.old.items ++ plain.group_wires (named_in setting.now) (tag_width setting.now) k (group_of (entities_in setting.now) group.now)) }
    ensures next { IfOk result (λ next. next ≡ k + states.wires_group (group_of (entities_in setting.now) group.now)) }
{
    let mut next = k;
    for state in group {
        next = add_state(alloc, setting, wires, next, state)?;
    }
    Ok(next)
}

/// The wires of all states.
pub fn add_state_wires(
    alloc: Global,
    setting: &Setting<'_>,
    wires: &mut Vec<Var>,
) -> Result<(), AllocError>
    requires few { states.wires_group (group_of (entities_in setting.now) setting.now.program.now.states.items) < 2 ^ 32 }
    requires ranged { StatesRanged setting.now setting.now.program.now.states.items }
    requires arms { StatesFew setting.now.program.now.states.items }
    ensures { OnOk result (wires.new.items ≡ wires.old.items ++ plain.group_wires (named_in setting.now) (tag_width setting.now) 0 (group_of (entities_in setting.now) setting.now.program.now.states.items)) }
{
    add_group(alloc, setting, wires, 0, setting.program.states.as_slice())?;
    Ok(())
}
