//! The first fault of shape of a design.

ghost use Rattle.std.specs.Prelude.{◌≡◌, IfOk, OnOk, IsErrOf, None};
ghost use Rattle.sap_names.specs.Best.{best_of};
ghost use Rattle.sap_names.specs.Entities.{entities_of};
ghost use Rattle.sap_names.specs.declared.fault.CheckFault.TheVariants.{Rule};
ghost use Rattle.sap_names.specs.declared.kind.Code.{Code};
ghost use Rattle.sap_shape.specs.Lists.{shape_faults};
ghost use Rattle.sap_shape.specs.ShapeFaults.{HasShape, IsFirstShapeFault};
ghost use Rattle.sap_tree.specs.Designs.{design_of};
ghost use Rattle.sap_text.specs.declared.place.Place.{Place};

use crate::states::{group_paths, group_shape};
use crate::written::Written;
use sap_names::fault::{CheckFault, Fault};
use sap_names::table::Names;
use sap_tree::design::Design;
use std::alloc::{AllocError, Global};

#[tactic(auto, using(crate::proofs::Sets::sets, sap_names::proofs::Faults::noting))]
fn first_fault(alloc: Global, design: &Design, names: &Names) -> Result<Option<Fault>, AllocError>
    requires { names.now ≡ entities_of (design_of design.now) }
    ensures { IfOk result (λ best. best ≡ best_of None (shape_faults (design_of design.now))) }
{
    let mut best = None;
    let above = Vec::new(alloc);
    group_shape(
        alloc,
        names,
        design.states.as_slice(),
        above.as_slice(),
        &mut best,
    )?;
    let written = Written::new(alloc);
    group_paths(alloc, design.states.as_slice(), &written, &mut best)?;
    Ok(best)
}

/// Whether a design has the shape that E10 to E17 ask for, or the first fault of it. The names are that design's.
pub fn shape(alloc: Global, design: &Design, names: &Names) -> Result<(), CheckFault>
    requires { names.now ≡ entities_of (design_of design.now) }
    ensures faultless { OnOk result (HasShape (design_of design.now)) }
    ensures first { (code : Code) (place : Place) → IsErrOf result (Rule code place)
        → IsFirstShapeFault (design_of design.now) (record { code = code; place = place }) }
{
    match first_fault(alloc, design, names) {
        Ok(None) => Ok(()),
        Ok(Some(fault)) => Err(CheckFault::Rule(fault.code, fault.place)),
        Err(_) => Err(CheckFault::Memory),
    }
}
