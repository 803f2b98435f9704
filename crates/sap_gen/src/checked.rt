//! The generated design, checked.

ghost use Rattle.std.specs.Prelude.{◌≡◌, IfOk};
ghost use Rattle.sap_check.specs.Checked.{levels_in, tree_in};
ghost use Rattle.sap_shape.specs.WellFormed.{WellFormed};
ghost use Rattle.sap_lattice.specs.Diamond.{level_names};
ghost use Rattle.sap_gen.specs.Design.{design_of_counts};

use crate::design::design;
use crate::size::Size;
use sap_check::Checked;
use sap_check::check::check;
use sap_lattice::Lattice;
use sap_names::fault::CheckFault;
use std::alloc::{AllocError, Global};

/// No fault stands in a design of this size.
fn no_fault(size: Size, lattice: &Lattice)
    requires { lattice.now.names ≡ level_names }
    ensures { WellFormed lattice.now (design_of_counts size.registers size.states) }
{}

/// The design of this size.
pub(crate) fn checked(alloc: Global, size: Size, lattice: &Lattice) -> Result<Checked, AllocError>
    requires { lattice.now.names ≡ level_names }
    ensures design { IfOk result (λ checked. tree_in checked ≡ design_of_counts size.registers size.states) }
    ensures lattice { IfOk result (λ checked. levels_in checked ≡ lattice.now) }
{
    no_fault(size, lattice);
    let design = design(alloc, size)?;
    match check(alloc, design, lattice) {
        Ok(checked) => Ok(checked),
        Err(refused) => match refused.fault {
            CheckFault::Memory => Err(AllocError),
            CheckFault::Rule(_, _) => unreachable!(),
        },
    }
}
