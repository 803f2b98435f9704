//! What a code means.

ghost use Rattle.std.specs.Prelude.{◌≡◌, IfSome, is_some};
ghost use Rattle.sap_help.specs.Codes.{IsTextOf, is_code};

use crate::assembly::assembly_fault;
use crate::design::design_fault;
use crate::lattice::lattice_fault;
use crate::module::module_fault;
use crate::stimulus::stimulus_fault;
use crate::system::system_fault;
use crate::wave::wave_fault;

/// What the code of a fault means, with a small example and its cure; none where it is no code.
pub fn explain(code: &str) -> Option<&'static str>
    ensures known { is_some result ≡ is_code code.now }
    ensures begins { IfSome result (λ text. IsTextOf code.now text.now) }
{
    if let Some(text) = design_fault(code) {
        return Some(text);
    }
    if let Some(text) = lattice_fault(code) {
        return Some(text);
    }
    if let Some(text) = stimulus_fault(code) {
        return Some(text);
    }
    if let Some(text) = module_fault(code) {
        return Some(text);
    }
    if let Some(text) = system_fault(code) {
        return Some(text);
    }
    if let Some(text) = wave_fault(code) {
        return Some(text);
    }
    assembly_fault(code)
}
