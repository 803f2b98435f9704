//! The check sites of a design.

ghost use Rattle.std.specs.Prelude.{◌≡◌, ◌++◌, OnOk, map};
ghost use Rattle.sap_check.specs.Lists as lists;
ghost use Rattle.sap_check.specs.Lists.{surroundings_of};
ghost use Rattle.sap_check.specs.Sites as spec;
ghost use Rattle.sap_check.specs.Sites.{site_of};
ghost use Rattle.sap_shape.specs.Sites as walk;
ghost use Rattle.sap_tree.specs.Trees.{command_of, else_of, simple_of, state_of};

use crate::body::Body;
use crate::site::{Site, SiteKind};
use sap_names::table::Names;
use sap_shape::sites::is_site;
use sap_tree::name::Name;
use sap_tree::place::Place;
use sap_tree::syntax::{Arm, Block, Cmd, Simple, State};
use std::alloc::AllocError;

fn entity_number(names: &Names, name: &Name) -> u32
    ensures { result ≡ spec.entity_number names.now name.now }
{
    names.number(name).unwrap_or(0)
}

fn site_place(command: &Simple) -> Place
    ensures { result ≡ spec.place_of (simple_of command.now) }
{
    match command {
        Simple::Assign(target, _) => target.place,
        Simple::Write(target, _, _) => target.place,
        Simple::SetTag(place, _, _) => *place,
        Simple::SetCellTag(place, _, _, _) => *place,
        Simple::Goto(place, _) => *place,
        Simple::Fall(place) => *place,
    }
}

fn site_kind(command: &Simple) -> SiteKind
    ensures { result ≡ spec.kind_of_command (simple_of command.now) }
{
    match command {
        Simple::Assign(_, _) => SiteKind::Write,
        Simple::Write(_, _, _) => SiteKind::Write,
        Simple::SetTag(_, _, _) => SiteKind::SetTag,
        Simple::SetCellTag(_, _, _, _) => SiteKind::SetTag,
        Simple::Goto(_, _) => SiteKind::Goto,
        Simple::Fall(_) => SiteKind::Fall,
    }
}

fn site_entity(names: &Names, body: &Body<'_>, command: &Simple) -> u32
    ensures { result ≡ spec.entity_number names.now (spec.target_of (surroundings_of names.now body.now) (simple_of command.now)) }
{
    match command {
        Simple::Assign(target, _) => entity_number(names, &target.name),
        Simple::Write(target, _, _) => entity_number(names, &target.name),
        Simple::SetTag(_, target, _) => entity_number(names, &target.name),
        Simple::SetCellTag(_, target, _, _) => entity_number(names, &target.name),
        Simple::Goto(_, target) => entity_number(names, &target.name),
        Simple::Fall(_) => entity_number(names, body.name),
    }
}

fn add_simple(
    names: &Names,
    body: &Body<'_>,
    command: &Simple,
    sites: &mut Vec<Site>,
) -> Result<(), AllocError>
    ensures { OnOk result (sites.new.items ≡ sites.old.items ++ map site_of (walk.simple_sites (surroundings_of names.now body.now) (simple_of command.now))) }
{
    if is_site(names, body.kind, body.children, command) {
        let site = Site {
            place: site_place(command),
            kind: site_kind(command),
            entity: site_entity(names, body, command),
        };
        sites.push(site)?;
    }
    Ok(())
}

#[cycle(body)]
#[tactic(auto, using(sap_tree::proofs::Views::views, crate::proofs::SiteLists::blocks))]
fn add_command(
    names: &Names,
    body: &Body<'_>,
    command: &Cmd,
    sites: &mut Vec<Site>,
) -> Result<(), AllocError>
    ensures { OnOk result (sites.new.items ≡ sites.old.items ++ map site_of (walk.command_sites (surroundings_of names.now body.now) (command_of command.now))) }
{
    match command {
        Cmd::Do(simple) => add_simple(names, body, simple, sites),
        Cmd::Try(simple, _, handler) => {
            add_simple(names, body, simple, sites)?;
            add_list(names, body, handler.commands.as_slice(), sites)
        }
        Cmd::If(_, _, one, other) => {
            add_list(names, body, one.commands.as_slice(), sites)?;
            add_else(names, body, other, sites)
        }
        Cmd::TryThen(simple, _, accepted, refused) => {
            add_simple(names, body, simple, sites)?;
            add_list(names, body, accepted.commands.as_slice(), sites)?;
            add_list(names, body, refused.commands.as_slice(), sites)
        }
        Cmd::Case(_, _, arms, last) => {
            add_arms(names, body, arms.as_slice(), sites)?;
            add_list(names, body, last.commands.as_slice(), sites)
        }
    }
}

/// The arms of a `case`, without the block after `else`.
#[cycle(body)]
#[tactic(auto, using(crate::proofs::SiteLists::lists))]
fn add_arms(
    names: &Names,
    body: &Body<'_>,
    arms: &[Arm],
    sites: &mut Vec<Site>,
) -> Result<(), AllocError>
    ensures { OnOk result (sites.new.items ≡ sites.old.items ++ lists.arms_sites (surroundings_of names.now body.now) arms.now) }
{
    for arm in arms {
        add_list(names, body, arm.block.commands.as_slice(), sites)?;
    }
    Ok(())
}

#[cycle(body)]
#[tactic(auto, using(crate::proofs::SiteLists::blocks))]
fn add_else(
    names: &Names,
    body: &Body<'_>,
    other: &Option<Block>,
    sites: &mut Vec<Site>,
) -> Result<(), AllocError>
    ensures { OnOk result (sites.new.items ≡ sites.old.items ++ map site_of (walk.else_sites (surroundings_of names.now body.now) (else_of other.now))) }
{
    match other {
        Some(block) => add_list(names, body, block.commands.as_slice(), sites),
        None => Ok(()),
    }
}

#[cycle(body)]
#[tactic(auto, using(crate::proofs::SiteLists::lists))]
fn add_list(
    names: &Names,
    body: &Body<'_>,
    commands: &[Cmd],
    sites: &mut Vec<Site>,
) -> Result<(), AllocError>
    ensures { OnOk result (sites.new.items ≡ sites.old.items ++ lists.list_sites (surroundings_of names.now body.now) commands.now) }
{
    for command in commands {
        add_command(names, body, command, sites)?;
    }
    Ok(())
}

#[cycle(states)]
#[tactic(auto, using(crate::proofs::SiteLists::states))]
fn add_state(names: &Names, state: &State, sites: &mut Vec<Site>) -> Result<(), AllocError>
    ensures { OnOk result (sites.new.items ≡ sites.old.items ++ map site_of (walk.state_sites names.now (state_of state.now))) }
{
    let body = Body {
        name: &state.name.name,
        kind: &state.kind,
        children: state.children.as_slice(),
    };
    add_list(names, &body, state.body.commands.as_slice(), sites)?;
    add_states(names, state.children.as_slice(), sites)
}

/// Adds the sites of states and of those below them.
#[cycle(states)]
#[tactic(auto, using(crate::proofs::SiteLists::lists))]
pub(crate) fn add_states(
    names: &Names,
    states: &[State],
    sites: &mut Vec<Site>,
) -> Result<(), AllocError>
    ensures { OnOk result (sites.new.items ≡ sites.old.items ++ lists.group_sites names.now states.now) }
{
    for state in states {
        add_state(names, state, sites)?;
    }
    Ok(())
}
