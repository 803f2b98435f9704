//! What a command touches that can have a handler.

ghost use Rattle.std.specs.Prelude.{◌≡◌, ◌&&◌, ◌||◌, ◌++◌, ◌∷◌, [], ℕ, bytes_eq, OnOk};
ghost use Rattle.sap_hang.specs.Sets.{has};
ghost use Rattle.sap_hang.specs.Walks.{Adds, Sees, declared_in, entities_in, home_of, stored, table_of, touched_at};
ghost use Rattle.sap_tree.specs.Points as points;
ghost use Rattle.sap_tree.specs.Touches as tree;
ghost use Rattle.sap_tree.specs.Trees.{simple_of};

use crate::set::Set;
use crate::standing::Standing;
use sap_names::table::Names;
use sap_tree::name::Name;
use sap_tree::syntax::{Kind, Simple};
use std::alloc::AllocError;

/// Adds the entity of this name where it is dynamic.
pub(crate) fn add_dynamic(
    names: &Names,
    name: &Name,
    kind: &Kind,
    set: &mut Set,
) -> Result<(), AllocError>
    ensures { OnOk result (Adds names.now (λ x. bytes_eq name.now x && tree.is_dynamic_kind kind.now) set.old set.new) }
{
    if !kind.is_dynamic() {
        return Ok(());
    }
    match names.number(name) {
        Some(number) => set.insert(number),
        None => Ok(()),
    }
}

/// Adds the register or memory that is assigned, where it is dynamic.
fn add_store(
    standing: &Standing<'_, '_>,
    name: &Name,
    assigned: &mut Set,
    touched: &mut Set,
) -> Result<(), AllocError>
    requires { Sees standing.now }
    ensures assigned { OnOk result (Adds (entities_in standing.now) (stored (declared_in standing.now) (λ x. bytes_eq name.now x)) assigned.old assigned.new) }
    ensures touched { OnOk result (Adds (entities_in standing.now) (stored (declared_in standing.now) (λ x. bytes_eq name.now x)) touched.old touched.new) }
{
    let walk = standing.walk;
    match walk.names.number(name) {
        Some(number) => {
            if !walk.stores.has(number) {
                return Ok(());
            }
            assigned.insert(number)?;
            touched.insert(number)
        }
        None => Ok(()),
    }
}

/// Adds what a command assigns, and what it touches.
pub(crate) fn add_simple(
    standing: &Standing<'_, '_>,
    command: &Simple,
    assigned: &mut Set,
    touched: &mut Set,
) -> Result<(), AllocError>
    requires { Sees standing.now }
    ensures assigned { OnOk result (Adds (entities_in standing.now) (stored (declared_in standing.now) (λ x. tree.simple_assigns (simple_of command.now) x)) assigned.old assigned.new) }
    ensures touched { OnOk result (Adds (entities_in standing.now) (λ x. tree.simple_touches (declared_in standing.now) (home_of standing.now) (simple_of command.now) x) touched.old touched.new) }
{
    match command {
        Simple::Assign(target, _) => add_store(standing, &target.name, assigned, touched),
        Simple::Write(target, _, _) => add_store(standing, &target.name, assigned, touched),
        Simple::SetTag(_, _, _) => Ok(()),
        Simple::SetCellTag(_, _, _, _) => Ok(()),
        Simple::Goto(_, _) => {
            add_dynamic(standing.walk.names, standing.state, standing.kind, touched)
        }
        Simple::Fall(_) => touched.union(standing.falls),
    }
}

/// Adds the row of a `fall`.
pub(crate) fn add_fall(
    standing: &Standing<'_, '_>,
    command: &Simple,
    rows: &mut Vec<Set>,
) -> Result<(), AllocError>
    requires { Sees standing.now }
    ensures { OnOk result (table_of (entities_in standing.now) rows.new.items
        ≡ touched_at (entities_in standing.now) (declared_in standing.now) (home_of standing.now) (points.simple_points (simple_of command.now)) ++ table_of (entities_in standing.now) rows.old.items) }
{
    if let Simple::Fall(_) = command {
        let mut here = Set::new(standing.walk.alloc);
        here.union(standing.falls)?;
        rows.push(here)?;
    }
    Ok(())
}

/// Adds the row of a point with blocks, and what it touches.
pub(crate) fn add_point(here: Set, rows: &mut Vec<Set>, touched: &mut Set) -> Result<(), AllocError>
    ensures row { OnOk result (rows.new.items ≡ rows.old.items ++ here ∷ []) }
    ensures touched { OnOk result ((x : ℕ) → has touched.new x ≡ (has here x || has touched.old x)) }
{
    touched.union(&here)?;
    rows.push(here)?;
    Ok(())
}
