//! Tag expressions with numbers for names and for levels.

ghost use Rattle.std.specs.Prelude.{◌≡◌, IfOk};
ghost use Rattle.sap_resolved.specs.Terms as terms;
ghost use Rattle.sap_program.specs.Views.{level_of};
ghost use Rattle.sap_tree.specs.Trees.{tag_of, tags_of};

use crate::names::level_named;
use crate::numbers::number;
use sap_lattice::lattice::Lattice;
use sap_names::table::Names;
use sap_program::program::TagOf;
use sap_tree::syntax::TagExpr;
use std::alloc::{AllocError, Global};

/// A tag expression of a design with these names.
#[cycle(level)]
#[tactic(auto, using(sap_tree::proofs::Views::views))]
pub fn tag(
    alloc: Global,
    names: &Names,
    lattice: &Lattice,
    t: &TagExpr,
) -> Result<TagOf, AllocError>
    ensures { IfOk result (λ m. level_of m ≡ terms.level_term lattice.now names.now (tag_of t.now)) }
{
    match t {
        TagExpr::Level(level) => Ok(TagOf::Fixed(level_named(lattice, level))),
        TagExpr::TagOf(_, e) => Ok(TagOf::Of(number(alloc, names, e, None)?)),
        TagExpr::LevelAt(_, e) => Ok(TagOf::AtPlace(number(alloc, names, e, None)?)),
        TagExpr::Join(_, parts) => tags(alloc, names, lattice, parts),
    }
}

#[cycle(level)]
#[tactic(auto, using(sap_tree::proofs::Views::views))]
fn tags(
    alloc: Global,
    names: &Names,
    lattice: &Lattice,
    parts: &[TagExpr],
) -> Result<TagOf, AllocError>
    ensures { IfOk result (λ m. level_of m ≡ terms.level_terms lattice.now names.now (tags_of parts.now)) }
{
    match parts {
        [] => Ok(TagOf::Fixed(lattice.bottom())),
        [only] => tag(alloc, names, lattice, only),
        [first, rest @ ..] => {
            let front = tag(alloc, names, lattice, first)?;
            let back = tags(alloc, names, lattice, rest)?;
            TagOf::both(alloc, front, back)
        }
    }
}
