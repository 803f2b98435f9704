//! What holds of all lattice files.

ghost use Rattle.sap_latfile.specs.OneFault.{NotBoth, OneFault};
ghost use Rattle.sap_latfile.specs.OneLattice.{OneLattice};

/// A file is at most one lattice.
pub fn one_lattice()
    ensures { OneLattice }
{}

/// A file breaks at most one rule first, and none where it is a lattice.
pub fn one_fault()
    ensures one_fault { OneFault }
    ensures not_both { NotBoth }
{}
