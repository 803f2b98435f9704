//! One numbering of check sites: the sites of a design's program are the design's, and a cycle comes to each at most once.
//!
//! The laws stand on functions that do nothing, whose clauses a caller in another crate has by calling them.

pub mod examples;

ghost use Rattle.sap_secure.specs.CheckSites.Numbering.{SitesAgree};
ghost use Rattle.sap_secure.specs.CheckSites.Once.{EachSiteOnce, RefusedMet, SitesInTurn};

use sap_resolved::premises::well_formed_serves;

/// The check sites of a well-formed design's program have the numbers from 1 on, in the order of their first tokens; and
/// each is the command that has this number in the design: it does the same, to the same entity.
pub fn sites_agree()
    ensures { SitesAgree }
{}

/// A cycle of a well-formed design comes to its check sites in the order of the text, to each at most once, whether it is
/// refused or not; and those that it refuses are among them, in the same order.
pub fn each_site_once()
    ensures turn { SitesInTurn }
    ensures once { EachSiteOnce }
    ensures refused { RefusedMet }
{
    well_formed_serves();
    sap_meaning::refusals_in_order()
}
