//! The laws of texts.

ghost use Rattle.std.specs.Prelude.{◌≡◌, List, ℕ};
ghost use Rattle.sap_vtext.specs.Items.{File};
ghost use Rattle.sap_vlex.specs.declared.fault.ReadFault.{ReadFault};
ghost use Rattle.sap_vparse.specs.Text.{IsReadFault, IsText};

/// A text has at most one file, or at most one read fault, and not both.
pub fn one_reading()
    ensures one_file { (text : List ℕ) (one other : File) → IsText text one → IsText text other → one ≡ other }
    ensures one_fault { (text : List ℕ) (one other : ReadFault) → IsReadFault text one → IsReadFault text other → one ≡ other }
    ensures not_both { (text : List ℕ) (file : File) (fault : ReadFault) → IsText text file → IsReadFault text fault → ⊥ }
{}
