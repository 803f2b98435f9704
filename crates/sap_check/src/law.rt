//! The laws of the check.

ghost use Rattle.std.specs.Prelude.{◌≡◌};
ghost use Rattle.sap_tree.specs.Syntax.{DesignTree};
ghost use Rattle.sap_lattice.specs.Levels.{Levels};
ghost use Rattle.sap_names.specs.declared.fault.Fault.{Fault};
ghost use Rattle.sap_shape.specs.WellFormed.{IsFirstFault, WellFormed};

/// Over a lattice's levels a design has at most one first fault, and none where it is well formed.
pub fn one_first_fault()
    ensures one_fault { (ls : Levels) (d : DesignTree) (one other : Fault) → IsFirstFault ls d one → IsFirstFault ls d other → one ≡ other }
    ensures not_both { (ls : Levels) (d : DesignTree) (fault : Fault) → WellFormed ls d → IsFirstFault ls d fault → ⊥ }
{}
