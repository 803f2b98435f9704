//! The plain program of a design is small.
//!
//! The law stands on an empty function, whose clause a caller in another crate has by calling it.

ghost use Rattle.sap_tagged.specs.Small.Law.{PlainsAreSmall};

/// The plain program of a whole and well-formed design weighs at most as much as its module may have items.
pub fn plain_small()
    ensures { PlainsAreSmall }
{}
