//! From the bytes of a lattice file and of a design to the design, checked.

ghost use Rattle.std.specs.Prelude.{◌≢◌, IfErr, IfOk, IsErr, IsOkUnless};
ghost use Rattle.sap_check.specs.Checked.{levels_in, tree_in};
ghost use Rattle.sap_compile.specs.Faults.{IsCompileFault};
ghost use Rattle.sap_compile.specs.declared.fault.CompileFault.TheVariants.{Memory};
ghost use Rattle.sap_compile.specs.declared.fault.CompileFault.{CompileFault as Fault};
ghost use Rattle.sap_latfile.specs.LatticeFile.{IsLatticeOfFile};
ghost use Rattle.sap_lattice.specs.Levels.{Levels};
ghost use Rattle.sap_parse.specs.Text.{IsText};
ghost use Rattle.sap_shape.specs.WellFormed.{WellFormed};
ghost use Rattle.sap_tree.specs.Syntax.{DesignTree};

use crate::fault::CompileFault;
use sap_check::Checked;
use sap_check::check::check;
use sap_latfile::laws::one_lattice;
use sap_latfile::read_lattice;
use sap_parse::law::one_reading;
use sap_parse::parse;
use std::alloc::Global;

/// Reads a lattice and a design, and checks the design over the lattice.
pub(crate) fn read(alloc: Global, lattice: &[u8], design: &[u8]) -> Result<Checked, CompileFault>
    ensures lattice { IfOk result (λ c. IsLatticeOfFile lattice.now (levels_in c)) }
    ensures design { IfOk result (λ c. IsText design.now (tree_in c)) }
    ensures refused { IfErr result (λ fault. fault ≢ Memory → IsCompileFault lattice.now design.now fault) }
    ensures exact { (fault : Fault) → IsCompileFault lattice.now design.now fault → IsErr result }
    ensures valid { (ls : Levels) (d : DesignTree) → IsLatticeOfFile lattice.now ls → IsText design.now d → WellFormed ls d → IsOkUnless result Memory }
{
    one_lattice();
    one_reading();
    let levels = read_lattice(alloc, lattice)?;
    let tree = parse(alloc, design)?;
    match check(alloc, tree, &levels) {
        Ok(checked) => Ok(checked),
        Err(refused) => Err(CompileFault::from(refused.fault)),
    }
}
