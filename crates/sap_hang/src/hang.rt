//! Makes tables of what hangs where.

ghost use Rattle.std.specs.Prelude.{◌≡◌, IfOk, OnOk};
ghost use Rattle.sap_hang.specs.Hang.{IsHangTable};
ghost use Rattle.sap_hang.specs.Walks.{Adds, Stands, firsts_of};
ghost use Rattle.sap_tree.specs.Touches as tree;
ghost use Rattle.sap_names.specs.Entities.{entities_of};
ghost use Rattle.sap_tree.specs.Designs.{design_of};

use crate::set::Set;
use crate::simple::add_dynamic;
use crate::standing::Walk;
use crate::states::add_states;
use crate::table::HangTable;
use sap_names::table::Names;
use sap_tree::design::Design;
use sap_tree::syntax::Decl;
use std::alloc::{AllocError, Global};

fn add_declared(names: &Names, declaration: &Decl, stores: &mut Set) -> Result<(), AllocError>
    ensures { OnOk result (Adds names.now (λ x. tree.declares_dynamic x declaration.now) stores.old stores.new) }
{
    match declaration {
        Decl::Input(_, _, _) => Ok(()),
        Decl::Register(_, name, _, kind, _) => add_dynamic(names, &name.name, kind, stores),
        Decl::Memory(_, name, _, _, kind) => add_dynamic(names, &name.name, kind, stores),
    }
}

fn stores(alloc: Global, names: &Names, declarations: &[Decl]) -> Result<Set, AllocError>
    ensures { IfOk result (λ s. Stands names.now (λ x. tree.is_dynamic_store declarations.now x) s) }
{
    let mut stores = Set::new(alloc);
    for at in (0..declarations.len()).rev() {
        add_declared(names, &declarations[at], &mut stores)?;
    }
    Ok(stores)
}

fn firsts(alloc: Global, names: &Names) -> Result<Vec<u32>, AllocError>
    ensures { IfOk result (λ v. v.items ≡ firsts_of names.now) }
{
    let mut firsts = Vec::new(alloc);
    for entity in 0..names.count() {
        firsts.push(names.number(names.name(entity)).unwrap_or(0))?;
    }
    Ok(firsts)
}

/// What hangs on each point of a design and on its root. The names are that design's.
pub fn hang(alloc: Global, design: &Design, names: &Names) -> Result<HangTable, AllocError>
    requires { names.now ≡ entities_of (design_of design.now) }
    ensures { IfOk result (λ table. IsHangTable (design_of design.now) table) }
{
    let firsts = firsts(alloc, names)?;
    let declarations = design.declarations.as_slice();
    let walk = Walk {
        alloc,
        names,
        declarations,
        stores: stores(alloc, names, declarations)?,
    };
    let mut rows = Vec::new(alloc);
    let below = add_states(&walk, design.states.as_slice(), &mut rows)?;
    rows.reverse();
    Ok(HangTable {
        rows,
        root: below.falls,
        firsts,
    })
}
