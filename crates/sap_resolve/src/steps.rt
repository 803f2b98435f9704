//! Commands that may be check sites, with the numbers of these sites.

ghost use Rattle.std.specs.Prelude.{◌≡◌, ◌+◌, ◌<◌, ◌^◌, [], IfOk, OnOk, length};
ghost use Rattle.sap_meaning.specs.Program as meaning;
ghost use Rattle.sap_resolve.specs.Surroundings.{surroundings_of, rows_of};
ghost use Rattle.sap_resolve.specs.Rows.{step_points, step_with};
ghost use Rattle.sap_program.specs.Views.{step_of};
ghost use Rattle.sap_resolved.specs.Resolve as resolve;
ghost use Rattle.sap_shape.specs.Sites.{simple_sites};
ghost use Rattle.sap_tree.specs.Syntax as tree;
ghost use Rattle.sap_tree.specs.Trees.{expression_of, simple_of, tag_of};

use crate::names::entity_number;
use crate::numbers::number;
use crate::rows::row;
use crate::standing::Standing;
use crate::tags::tag;
use sap_names::width::{cell_width, index_width, register_width};
use sap_program::program::Step;
use sap_shape::sites::is_site;
use sap_tree::name::Mention;
use sap_tree::syntax::{Expr, Simple, TagExpr};
use std::alloc::{AllocError, Global};

/// The number of a command, 0 where it is no site. The next site's number is kept.
pub(crate) fn take_site(standing: &Standing<'_>, next: &mut u32, command: &Simple) -> u32
    requires { next.old + length (simple_sites (surroundings_of standing.now) (simple_of command.now)) < 2 ^ 32 }
    ensures number { result ≡ resolve.site_number (surroundings_of standing.now) next.old (simple_of command.now) }
    ensures next { next.new ≡ next.old + length (simple_sites (surroundings_of standing.now) (simple_of command.now)) }
{
    if is_site(standing.names, standing.kind, standing.children, command) {
        let site = *next;
        *next += 1;
        site
    } else {
        0
    }
}

fn set(
    alloc: Global,
    standing: &Standing<'_>,
    site: u32,
    target: &Mention,
    e: &Expr,
) -> Result<Step, AllocError>
    ensures { IfOk result (λ s. step_of (length standing.now.names.now) s ≡ resolve.step_of standing.now.lattice.now (surroundings_of standing.now) site (tree.assign target.now (expression_of e.now))) }
{
    let asked = register_width(standing.names.look(&target.name));
    Ok(Step::Set {
        site,
        register: entity_number(standing.names, &target.name),
        value: number(alloc, standing.names, e, asked)?,
    })
}

fn write(
    alloc: Global,
    standing: &Standing<'_>,
    site: u32,
    target: &Mention,
    index: &Expr,
    e: &Expr,
) -> Result<Step, AllocError>
    ensures { IfOk result (λ s. step_of (length standing.now.names.now) s ≡ resolve.step_of standing.now.lattice.now (surroundings_of standing.now) site (tree.write target.now (expression_of index.now) (expression_of e.now))) }
{
    let what = standing.names.look(&target.name);
    let at = number(alloc, standing.names, index, index_width(what))?;
    let value = number(alloc, standing.names, e, cell_width(what))?;
    Ok(Step::Write {
        site,
        memory: entity_number(standing.names, &target.name),
        index: at,
        value,
    })
}

fn retag_cell(
    alloc: Global,
    standing: &Standing<'_>,
    site: u32,
    target: &Mention,
    index: &Expr,
    t: &TagExpr,
) -> Result<Step, AllocError>
    ensures { IfOk result (λ s. step_of (length standing.now.names.now) s ≡ resolve.step_of standing.now.lattice.now (surroundings_of standing.now) site (tree.set_cell_tag target.now.place target.now (expression_of index.now) (tag_of t.now))) }
{
    let asked = index_width(standing.names.look(&target.name));
    let at = number(alloc, standing.names, index, asked)?;
    Ok(Step::RetagCell {
        site,
        memory: entity_number(standing.names, &target.name),
        index: at,
        tag: tag(alloc, standing.names, standing.lattice, t)?,
    })
}

/// A fall, with what hangs on it; `point` is the number of the next point.
fn fall(
    alloc: Global,
    standing: &Standing<'_>,
    site: u32,
    point: &mut u32,
) -> Result<Step, AllocError>
    requires { point.old + 1 < 2 ^ 32 }
    ensures step { IfOk result (λ s. step_of (length standing.now.names.now) s ≡ step_with (rows_of standing.now) point.old (meaning.fall_to_child site [])) }
    ensures point { OnOk result (point.new ≡ point.old + 1) }
{
    let hang = row(alloc, standing.table, standing.names.count(), *point)?;
    *point += 1;
    Ok(Step::Fall { site, hang })
}

/// A command with its site's number and with what hangs on it; `point` is the number of the next point.
pub(crate) fn step(
    alloc: Global,
    standing: &Standing<'_>,
    site: u32,
    point: &mut u32,
    command: &Simple,
) -> Result<Step, AllocError>
    requires { point.old + step_points (resolve.step_of standing.now.lattice.now (surroundings_of standing.now) site (simple_of command.now)) < 2 ^ 32 }
    ensures step { IfOk result (λ s. step_of (length standing.now.names.now) s
        ≡ step_with (rows_of standing.now) point.old (resolve.step_of standing.now.lattice.now (surroundings_of standing.now) site (simple_of command.now))) }
    ensures point { OnOk result (point.new ≡ point.old + step_points (resolve.step_of standing.now.lattice.now (surroundings_of standing.now) site (simple_of command.now))) }
{
    match command {
        Simple::Assign(target, e) => set(alloc, standing, site, target, e),
        Simple::Write(target, index, e) => write(alloc, standing, site, target, index, e),
        Simple::SetTag(_, target, t) => Ok(Step::Retag {
            site,
            entity: entity_number(standing.names, &target.name),
            tag: tag(alloc, standing.names, standing.lattice, t)?,
        }),
        Simple::SetCellTag(_, target, index, t) => retag_cell(
            alloc, standing, site, target, index, t,
        ),
        Simple::Goto(_, target) => Ok(Step::Goto {
            site,
            target: entity_number(standing.names, &target.name),
        }),
        Simple::Fall(_) => fall(alloc, standing, site, point),
    }
}
