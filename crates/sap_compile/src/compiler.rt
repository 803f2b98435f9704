//! From the bytes of a lattice file and of a design to the text of a module.

ghost use Rattle.std.specs.Prelude.{◌≢◌, IfErr, IfOk, IsErr, IsOkUnless};
ghost use Rattle.sap_compile.specs.Compiles.{IsModuleFor};
ghost use Rattle.sap_compile.specs.Faults.{IsCompileFault};
ghost use Rattle.sap_compile.specs.Parts.{design_of, hang_of, levels_of, module_of, netlist_of};
ghost use Rattle.sap_compile.specs.declared.fault.CompileFault.TheVariants.{Memory};
ghost use Rattle.sap_compile.specs.declared.fault.CompileFault.{CompileFault as Fault};
ghost use Rattle.sap_hang.specs.Hang.{IsHangTable};
ghost use Rattle.sap_latfile.specs.LatticeFile.{IsLatticeOfFile};
ghost use Rattle.sap_lattice.specs.Levels.{Levels};
ghost use Rattle.sap_parse.specs.Text.{IsText};
ghost use Rattle.sap_shape.specs.WellFormed.{WellFormed};
ghost use Rattle.sap_tree.specs.Syntax.{DesignTree};

use crate::compiled::Compiled;
use crate::fault::CompileFault;
use crate::module::module;
use crate::read::read;
use std::alloc::Global;

/// Compiles a design, given as its text, over a lattice, given as the bytes of a lattice file.
pub fn compile(alloc: Global, lattice: &[u8], design: &[u8]) -> Result<Compiled, CompileFault>
    ensures lattice { IfOk result (λ c. IsLatticeOfFile lattice.now (levels_of c)) }
    ensures design { IfOk result (λ c. IsText design.now (design_of c)) }
    ensures hang { IfOk result (λ c. IsHangTable (design_of c) (hang_of c)) }
    ensures compiled { IfOk result (λ c. IsModuleFor (levels_of c) (design_of c) (netlist_of c) (module_of c)) }
    ensures refused { IfErr result (λ fault. fault ≢ Memory → IsCompileFault lattice.now design.now fault) }
    ensures exact { (fault : Fault) → IsCompileFault lattice.now design.now fault → IsErr result }
    ensures valid { (ls : Levels) (d : DesignTree) → IsLatticeOfFile lattice.now ls → IsText design.now d → WellFormed ls d → IsOkUnless result Memory }
{
    let checked = read(alloc, lattice, design)?;
    let compiled = module(alloc, checked)?;
    Ok(compiled)
}
