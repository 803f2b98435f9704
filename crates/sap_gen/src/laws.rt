//! What holds of the generated run of every number.

ghost use Rattle.std.specs.Prelude.{◌≡◌, ℕ, true};
ghost use Rattle.sap_lattice.specs.Built.{IsLatticeOf};
ghost use Rattle.sap_tree.specs.Whole.{is_whole};
ghost use Rattle.sap_shape.specs.WellFormed.{WellFormed};
ghost use Rattle.sap_lattice.specs.Diamond.{diamond, level_names, level_pairs};
ghost use Rattle.sap_gen.specs.Design.{generated_design};

/// Its lattice is that of its names and pairs; its design is a tree of the grammar within the limits, and well formed over the
/// lattice.
pub fn generated_is_sound()
    ensures lattice { IsLatticeOf level_names level_pairs diamond }
    ensures whole { (n : ℕ) → is_whole (generated_design n) ≡ true }
    ensures well_formed { (n : ℕ) → WellFormed diamond (generated_design n) }
{}
