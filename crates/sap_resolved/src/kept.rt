//! Resolving keeps a design: what each construct of the tree is in the program, and what hangs on the commands of small designs.
//!
//! The laws stand on functions that do nothing, whose clauses a caller in another crate has by calling them.

pub mod examples;

ghost use Rattle.sap_resolved.specs.Kept.Laws.{HangsAgree, ResolvingKeeps};

/// Where no fault of names and widths stands in a design, its program has every construct of it, with the same operands by
/// name, and nothing else.
pub fn resolving_keeps()
    ensures { ResolvingKeeps }
{}

/// Where no fault of names and widths stands in a design, what hangs on each point of its program is what the command there
/// touches in the tree.
pub fn hangs_agree()
    ensures { HangsAgree }
{}
