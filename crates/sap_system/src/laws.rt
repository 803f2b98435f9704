//! What holds of all system files, and of all wires.

ghost use Rattle.sap_system.specs.Laws.{NotBoth, OneFault, OneSystem};
ghost use Rattle.sap_system.specs.Wires.{NoneWhereKept, OneLinkFault};

/// A file is at most one system.
pub fn one_system()
    ensures { OneSystem }
{}

/// A file breaks at most one rule first, and none where it is a system.
pub fn one_fault()
    ensures one_fault { OneFault }
    ensures not_both { NotBoth }
{}

/// Wires break at most one rule first, and none where they keep the rules.
pub fn one_link_fault()
    ensures one_fault { OneLinkFault }
    ensures none_where_kept { NoneWhereKept }
{}
