//! Checks designs.

ghost use Rattle.std.specs.Prelude.{◌≡◌, IfErr, IfOk, IsErrOf, OnOk};
ghost use Rattle.sap_check.specs.Checked.{design_in, levels_in};
ghost use Rattle.sap_check.specs.Points.{points_of};
ghost use Rattle.sap_check.specs.Sites.{sites_of};
ghost use Rattle.sap_names.specs.Entities.{entities_of};
ghost use Rattle.sap_names.specs.declared.fault.CheckFault.TheVariants.{Memory, Rule};
ghost use Rattle.sap_names.specs.declared.kind.Code.{Code};
ghost use Rattle.sap_shape.specs.WellFormed.{IsFirstFault, WellFormed};
ghost use Rattle.sap_tree.specs.Designs.{design_of};
ghost use Rattle.sap_text.specs.declared.place.Place.{Place};

use crate::checked::{Checked, Refused};
use crate::parts::Parts;
use crate::point::Point;
use crate::site::Site;
use crate::{points, sites};
use sap_lattice::lattice::Lattice;
use sap_names::fault::CheckFault;
use sap_names::table::Names;
use sap_shape::shape::shape;
use sap_tree::design::Design;
use std::alloc::{AllocError, Global};

fn sites_of(alloc: Global, design: &Design, names: &Names) -> Result<Vec<Site>, AllocError>
    requires { names.now ≡ entities_of (design_of design.now) }
    ensures { IfOk result (λ v. v.items ≡ sites_of (design_of design.now)) }
{
    let mut sites = Vec::new(alloc);
    sites::add_states(names, design.states.as_slice(), &mut sites)?;
    Ok(sites)
}

fn points_of(alloc: Global, design: &Design) -> Result<Vec<Point>, AllocError>
    ensures { IfOk result (λ v. v.items ≡ points_of (design_of design.now)) }
{
    let mut points = Vec::new(alloc);
    points::add_states(design.states.as_slice(), &mut points)?;
    Ok(points)
}

fn parts(alloc: Global, design: &Design, lattice: &Lattice) -> Result<Parts, CheckFault>
    ensures lattice { IfOk result (λ p. p.lattice ≡ lattice.now) }
    ensures names { IfOk result (λ p. p.names ≡ entities_of (design_of design.now)) }
    ensures sites { IfOk result (λ p. p.sites.items ≡ sites_of (design_of design.now)) }
    ensures points { IfOk result (λ p. p.points.items ≡ points_of (design_of design.now)) }
    ensures well_formed { OnOk result (WellFormed lattice.now (design_of design.now)) }
    ensures first { (code : Code) (place : Place) → IsErrOf result (Rule code place)
        → IsFirstFault lattice.now (design_of design.now) (record { code = code; place = place }) }
{
    let names = Names::build(alloc, design, lattice)?;
    shape(alloc, design, &names)?;
    let sites = sites_of(alloc, design, &names)?;
    let points = points_of(alloc, design)?;
    Ok(Parts {
        lattice: lattice.copy(alloc)?,
        names,
        sites,
        points,
    })
}

/// Takes a design that is well formed for a lattice. Otherwise the first of its faults is answered: those of names and widths
/// before those of shape, then by place, then by code. The design is handed back then, and where memory is wanted.
pub fn check(alloc: Global, design: Design, lattice: &Lattice) -> Result<Checked, Refused>
    ensures well_formed { OnOk result (WellFormed lattice.now (design_of design)) }
    ensures design { IfOk result (λ c. design_in c ≡ design) }
    ensures lattice { IfOk result (λ c. levels_in c ≡ lattice.now) }
    ensures first { IfErr result (λ r. (code : Code) (place : Place) → r.fault ≡ Rule code place
        → IsFirstFault lattice.now (design_of design) (record { code = code; place = place })) }
    ensures accepted { IfErr result (λ r. WellFormed lattice.now (design_of design) → r.fault ≡ Memory) }
    ensures handed_back { IfErr result (λ r. r.design ≡ design) }
{
    match parts(alloc, &design, lattice) {
        Ok(parts) => Ok(Checked {
            design,
            lattice: parts.lattice,
            names: parts.names,
            sites: parts.sites,
            points: parts.points,
        }),
        Err(fault) => Err(Refused { fault, design }),
    }
}
