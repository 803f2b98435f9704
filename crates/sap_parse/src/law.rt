//! The laws of texts.

ghost use Rattle.std.specs.Prelude.{◌≡◌, List, ℕ};
ghost use Rattle.sap_lex.specs.declared.fault.ReadFault.{ReadFault};
ghost use Rattle.sap_parse.specs.Text.{IsReadFault, IsText};
ghost use Rattle.sap_tree.specs.Syntax.{DesignTree};

/// A text has at most one design, or at most one read fault, and not both.
pub fn one_reading()
    ensures one_design { (text : List ℕ) (one other : DesignTree) → IsText text one → IsText text other → one ≡ other }
    ensures one_fault { (text : List ℕ) (one other : ReadFault) → IsReadFault text one → IsReadFault text other → one ≡ other }
    ensures not_both { (text : List ℕ) (design : DesignTree) (fault : ReadFault) → IsText text design → IsReadFault text fault → ⊥ }
{}
