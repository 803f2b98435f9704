//! The program of a checked design.

ghost use Rattle.std.specs.Prelude.{◌≡◌, IfOk, length};
ghost use Rattle.sap_check.specs.Checked.{levels_in, tree_in};
ghost use Rattle.sap_hang.specs.Hang.{IsHangTable};
ghost use Rattle.sap_names.specs.Entities.{entities_of};
ghost use Rattle.sap_program.specs.Design.{IsProgramOf};
ghost use Rattle.sap_resolve.specs.Surroundings.{known_rows};
ghost use Rattle.sap_resolve.specs.Rows.{group_with};
ghost use Rattle.sap_program.specs.Views.{group_of};
ghost use Rattle.sap_resolved.specs.Resolve as resolve;
ghost use Rattle.sap_shape.specs.Sites.{check_sites};
ghost use Rattle.sap_tree.specs.Designs.{design_of};

use crate::children::children;
use crate::entities::entities;
use crate::rows::root_row;
use crate::standing::Known;
use crate::states::states;
use sap_check::Checked;
use sap_hang::HangTable;
use sap_program::program::{Program, State};
use sap_resolved::kept::hangs_agree;
use sap_tree::design::Design;
use sap_tree::whole::design_is_whole;
use std::alloc::{AllocError, Global};

/// The states of a design, and how many check sites they have. What is known is of that design.
fn resolve_states(
    alloc: Global,
    known: &Known<'_>,
    design: &Design,
) -> Result<(Vec<State>, u32), AllocError>
    requires { known.now.names.now ≡ entities_of (design_of design.now) }
    ensures states { IfOk result (λ r. group_of (length known.now.names.now) r.0.items ≡ group_with (known_rows known.now) 1 (resolve.states_of known.now.lattice.now (design_of design.now))) }
    ensures sites { IfOk result (λ r. r.1 ≡ length (check_sites (design_of design.now))) }
{
    design_is_whole(design);
    let mut next = 1;
    let mut point = 1;
    let mut number = design.declarations.len();
    let states = states(
        alloc,
        known,
        &mut next,
        &mut point,
        &mut number,
        design.states.as_slice(),
    )?;
    Ok((states, next - 1))
}

/// The program of a design. The table is that design's.
pub fn resolve(alloc: Global, checked: &Checked, table: &HangTable) -> Result<Program, AllocError>
    requires { IsHangTable (tree_in checked.now) table.now }
    ensures { IfOk result (λ p. IsProgramOf (levels_in checked.now) (tree_in checked.now) p) }
{
    checked.lawful();
    hangs_agree();
    let design = checked.design();
    design_is_whole(design);
    let known = Known {
        names: checked.names(),
        lattice: checked.lattice(),
        table,
    };
    let entities = entities(alloc, design, known.lattice)?;
    let children = children(alloc, design)?;
    let (states, sites) = resolve_states(alloc, &known, design)?;
    let hang = root_row(alloc, table, known.names.count())?;
    Ok(Program {
        entities,
        children,
        states,
        hang,
        sites,
    })
}
