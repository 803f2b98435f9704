//! The states of a plain program.

ghost use Rattle.std.specs.Prelude.{◌≡◌, ◌+◌, ◌<◌, ◌^◌, IfOk, OnOk};
ghost use Rattle.sap_meaning.specs.Program.{listed};
ghost use Rattle.sap_ir.specs.Plain.Nested.{none};
ghost use Rattle.sap_ir.specs.Plain.Views.{forest_of, state_before};
ghost use Rattle.sap_program.specs.Hangs.{flags};
ghost use Rattle.sap_program.specs.Views as views;
ghost use Rattle.sap_resolved.specs.Sized.Ranges.{RangedGroup};
ghost use Rattle.sap_tagged.specs.States.{top_plain, wires_group};
ghost use Rattle.sap_tags_terms.specs.Parts.{StateFew, StateRanged, StatesFew, StatesRanged, state_wires, states_wires};
ghost use Rattle.sap_tags.specs.Built.{state_forest, states_forest, top_forest};
ghost use Rattle.sap_tags_terms.specs.Code.{entities_in, setting_in, world_in};

use crate::commands::commands;
use sap_ir::plain::nested::PlainState;
use sap_program::home::Home;
use sap_program::program::State;
use sap_tags_effects::pushes::{inner_variable, set_wire};
use sap_tags_effects::raises::{raise_all, save_all};
use sap_tags_terms::calcs::tag_variable;
use sap_tags_terms::names::state_name;
use sap_tags_terms::setting::Setting;
use std::alloc::{AllocError, Global};

/// A state of a group; the wires from `next` on are its own, those of its body and those of all below it.
#[cycle(group)]
fn state(
    alloc: Global,
    setting: &Setting<'_>,
    parent: usize,
    next: &mut u32,
    state: &State,
) -> Result<PlainState, AllocError>
    requires few { next.old + state_wires state.now < 2 ^ 32 }
    requires ranged { StateRanged setting.now state.now }
    requires arms { StateFew state.now }
    ensures state { IfOk result (λ t. state_before t none ≡ state_forest setting.now parent next.old state.now) }
    ensures wires { OnOk result (next.new ≡ next.old + state_wires state.now) }
{
    let body = state.body.as_slice();
    let children = state.children.as_slice();
    let own = *next;
    *next = own + 1;
    let at = Home {
        state: state.number,
        parent,
        children,
    };
    let mut cmds = Vec::new(alloc);
    let context = inner_variable(setting, parent);
    set_wire(setting, &mut cmds, own, context)?;
    commands(alloc, setting, &at, &mut cmds, own, next, body)?;
    let children = states(alloc, setting, state.number, next, children)?;
    let name = state_name(alloc, setting, state.number)?;
    Ok(PlainState {
        name,
        cmds,
        children,
    })
}

/// The states of a group, in order.
#[cycle(group)]
fn states(
    alloc: Global,
    setting: &Setting<'_>,
    parent: usize,
    next: &mut u32,
    states: &[State],
) -> Result<Vec<PlainState>, AllocError>
    requires few { next.old + states_wires states.now < 2 ^ 32 }
    requires ranged { StatesRanged setting.now states.now }
    requires arms { StatesFew states.now }
    ensures states { IfOk result (λ ts. forest_of ts.items ≡ states_forest setting.now parent next.old states.now) }
    ensures wires { OnOk result (next.new ≡ next.old + states_wires states.now) }
{
    let mut made = Vec::new(alloc);
    for one in states {
        let built = state(alloc, setting, parent, next, one)?;
        made.push(built)?;
    }
    Ok(made)
}

/// A top-level state, whose own level is its context. What hangs on the root's fall is raised by it first.
fn top_state(
    alloc: Global,
    setting: &Setting<'_>,
    next: &mut u32,
    state: &State,
) -> Result<PlainState, AllocError>
    requires few { next.old + state_wires state.now < 2 ^ 32 }
    requires ranged { StateRanged setting.now state.now }
    requires arms { StateFew state.now }
    ensures state { IfOk result (λ t. state_before t none ≡ top_forest setting.now next.old state.now) }
    ensures wires { OnOk result (next.new ≡ next.old + state_wires state.now) }
{
    let body = state.body.as_slice();
    let children = state.children.as_slice();
    let own = *next;
    *next = own + 1;
    let at = Home {
        state: state.number,
        parent: setting.program.entities.len(),
        children,
    };
    let mut cmds = Vec::new(alloc);
    save_all(alloc, setting, &mut cmds)?;
    let level = tag_variable(alloc, setting, state.number)?;
    set_wire(setting, &mut cmds, own, level)?;
    raise_all(
        alloc,
        setting,
        &mut cmds,
        setting.program.hang.numbers(),
        own,
    )?;
    commands(alloc, setting, &at, &mut cmds, own, next, body)?;
    let children = states(alloc, setting, state.number, next, children)?;
    let name = state_name(alloc, setting, state.number)?;
    Ok(PlainState {
        name,
        cmds,
        children,
    })
}

/// The top-level states, whose wires are numbered from 0.
pub(crate) fn top_states(
    alloc: Global,
    setting: &Setting<'_>,
) -> Result<Vec<PlainState>, AllocError>
    requires ranged { RangedGroup (world_in setting.now) (views.group_of (entities_in setting.now) setting.now.program.now.states.items) }
    requires few { wires_group (views.group_of (entities_in setting.now) setting.now.program.now.states.items) < 2 ^ 32 }
    requires arms { StatesFew setting.now.program.now.states.items }
    ensures { IfOk result (λ ss. forest_of ss.items ≡ top_plain (setting_in setting.now) (listed (flags (entities_in setting.now) setting.now.program.now.hang)) 0 (views.group_of (entities_in setting.now) setting.now.program.now.states.items)) }
{
    let states = setting.program.states.as_slice();
    let mut next = 0;
    let mut made = Vec::new(alloc);
    for one in states {
        let built = top_state(alloc, setting, &mut next, one)?;
        made.push(built)?;
    }
    Ok(made)
}
