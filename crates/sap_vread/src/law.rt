//! The laws of modules' texts.

ghost use Rattle.std.specs.Prelude.{◌≡◌, List, ℕ};
ghost use Rattle.sap_vtext.specs.Modules.{IsModule};
ghost use Rattle.sap_net.specs.Net.{Net};
ghost use Rattle.sap_vread.specs.ModuleFault.{IsModuleFault};
ghost use Rattle.sap_vread.specs.declared.fault.ModFault.{ModFault};

use sap_vparse::law::one_reading;
use sap_vtext::one_module;

/// A text is at most one module, or has at most one fault, and not both.
pub fn one_module_or_fault()
    ensures one_module { (text : List ℕ) (one other : Net) → IsModule text one → IsModule text other → one ≡ other }
    ensures one_fault { (text : List ℕ) (one other : ModFault) → IsModuleFault text one → IsModuleFault text other → one ≡ other }
    ensures not_both { (text : List ℕ) (net : Net) (fault : ModFault) → IsModule text net → IsModuleFault text fault → ⊥ }
{
    one_module();
    one_reading();
}
