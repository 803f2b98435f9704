//! What is known of a checked design.

ghost use Rattle.std.specs.Prelude.{◌≡◌, ◌<◌, ◌≤◌, ◌-◌, Some, length, slice_get, option_map};
ghost use Rattle.sap_check.specs.Checked.{design_in, tree_in, levels_in};
ghost use Rattle.sap_check.specs.Points.{points_of};
ghost use Rattle.sap_check.specs.Sites.{sites_of};
ghost use Rattle.sap_names.specs.Entities.{entities_of};
ghost use Rattle.sap_shape.specs.WellFormed.{WellFormed};

use crate::checked::Checked;
use crate::point::Point;
use crate::site::Site;
use sap_lattice::lattice::Lattice;
use sap_names::table::Names;
use sap_tree::design::Design;
use sap_tree::name::Name;
use sap_tree::whole::design_is_whole;

impl Checked {
    /// No fault stands in the design.
    pub fn lawful(&self)
        ensures { WellFormed (levels_in self.now) (tree_in self.now) }
    {}

    pub fn design(&self) -> &Design
        ensures { result.now ≡ design_in self.now }
    {
        &self.design
    }

    pub fn lattice(&self) -> &Lattice
        ensures { result.now ≡ levels_in self.now }
    {
        &self.lattice
    }

    pub fn names(&self) -> &Names
        ensures { result.now ≡ entities_of (tree_in self.now) }
    {
        &self.names
    }

    /// How many entities there are.
    pub fn entity_count(&self) -> u32
        ensures { result ≡ length (entities_of (tree_in self.now)) }
    {
        self.names.count()
    }

    /// The name of an entity; they are numbered from 0.
    pub fn entity(&self, n: u32) -> &Name
        requires { n < length (entities_of (tree_in self.now)) }
        ensures { option_map (λ e. e.name.name) (slice_get (entities_of (tree_in self.now)) n) ≡ Some result.now }
    {
        self.names.name(n)
    }

    /// How many check sites there are.
    #[tactic(auto, using(crate::proofs::Counts::counts))]
    pub fn site_count(&self) -> u32
        ensures { result ≡ length (sites_of (tree_in self.now)) }
    {
        design_is_whole(&self.design);
        self.sites.len() as u32
    }

    /// A check site; they are numbered from 1.
    pub fn site(&self, k: u32) -> &Site
        requires from_one { 1 ≤ k }
        requires within { k ≤ length (sites_of (tree_in self.now)) }
        ensures { slice_get (sites_of (tree_in self.now)) (k - 1) ≡ Some result.now }
    {
        &self.sites[k as usize - 1]
    }

    /// How many points there are.
    #[tactic(auto, using(crate::proofs::Counts::counts))]
    pub fn point_count(&self) -> u32
        ensures { result ≡ length (points_of (tree_in self.now)) }
    {
        design_is_whole(&self.design);
        self.points.len() as u32
    }

    /// A point; they are numbered from 1.
    pub fn point(&self, p: u32) -> &Point
        requires from_one { 1 ≤ p }
        requires within { p ≤ length (points_of (tree_in self.now)) }
        ensures { slice_get (points_of (tree_in self.now)) (p - 1) ≡ Some result.now }
    {
        &self.points[p as usize - 1]
    }
}
