//! The check sites of a small design.

ghost use Rattle.sap_secure.specs.CheckSites.Examples.{NestedSites};

/// The sites of the program of a small design, worked out.
pub fn worked_numbers()
    ensures { NestedSites }
{}
