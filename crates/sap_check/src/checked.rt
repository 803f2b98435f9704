//! Checked designs.

ghost use Rattle.std.specs.Prelude.{◌≡◌};
ghost use Rattle.sap_check.specs.Points.{points_of};
ghost use Rattle.sap_check.specs.Sites.{sites_of};
ghost use Rattle.sap_names.specs.Entities.{entities_of};
ghost use Rattle.sap_shape.specs.WellFormed.{WellFormed};
ghost use Rattle.sap_tree.specs.Designs.{design_of};

use crate::point::Point;
use crate::site::Site;
use sap_lattice::lattice::Lattice;
use sap_names::fault::CheckFault;
use sap_names::table::Names;
use sap_tree::design::Design;

/// A design that is well formed for a lattice, with its names, its check sites and its points.
#[derive(Drop)]
pub struct Checked {
    pub(crate) design: Design,
    pub(crate) lattice: Lattice,
    pub(crate) names: Names,
    pub(crate) sites: Vec<Site>,
    pub(crate) points: Vec<Point>,
    ghost well_formed: { WellFormed lattice (design_of design) },
    ghost names_are: { names ≡ entities_of (design_of design) },
    ghost sites_are: { sites.items ≡ sites_of (design_of design) },
    ghost points_are: { points.items ≡ points_of (design_of design) },
}

/// Why a design isn't taken, and the design, which is handed back.
#[derive(Drop)]
pub struct Refused {
    pub fault: CheckFault,
    pub design: Design,
}
