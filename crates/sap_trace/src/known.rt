//! What holds of every checked design.

ghost use Rattle.std.specs.Prelude.{◌<◌, List, length};
ghost use Rattle.sap_lattice.specs.Codes.{Codes};
ghost use Rattle.sap_lattice.specs.Levels.{order_of};
ghost use Rattle.sap_lattice.specs.Order.{Laws};
ghost use Rattle.sap_check.specs.Checked.{levels_in, tree_in};
ghost use Rattle.sap_meaning.specs.Store.{Store};
ghost use Rattle.sap_meaning.specs.Cycle.{Tagged, cycle};
ghost use Rattle.sap_meaning.specs.Sites.{Sublist, program_sites, refused_sites};
ghost use Rattle.sap_resolved.specs.Fill.{program_of};
ghost use Rattle.sap_secure.specs.CheckSites.Numbering.{OneNumbering};

use sap_check::Checked;
use sap_meaning::refusals_in_order;
use sap_resolved::premises::well_formed_serves;
use sap_secure::check_sites::sites_agree;

/// The laws of a design's levels and check sites.
pub(crate) fn known(checked: &Checked)
    ensures codes { Codes (order_of (levels_in checked.now)) }
    ensures order { Laws (order_of (levels_in checked.now)) }
    ensures some { 0 < length (levels_in checked.now).names }
    ensures numbering { OneNumbering (levels_in checked.now) (tree_in checked.now) }
    ensures in_order { let p = program_of (levels_in checked.now) (tree_in checked.now) in
        (inputs : List Tagged) (s : Store) → Sublist (refused_sites (cycle p inputs s).refused) (program_sites p) }
{
    checked.lawful();
    checked.lattice().lawful();
    refusals_in_order();
    well_formed_serves();
    sites_agree();
}
