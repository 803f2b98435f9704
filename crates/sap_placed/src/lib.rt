//! Where the check sites, the points and the entities of a design stand in its text.
//!
//! The law stands on an empty function, whose clauses a caller in another crate has by calling it.
#![tactic(auto)]

ghost use Rattle.sap_placed.specs.Placed.{SitesRise, PointsRise, EntitiesRise};

/// The check sites of a design are numbered in the order of their first tokens, its points in the order of their words,
/// and its entities in the order of their names: each stands behind the one before it.
pub fn places_rise()
    ensures sites { SitesRise }
    ensures points { PointsRise }
    ensures entities { EntitiesRise }
{}
