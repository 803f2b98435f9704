//! A small design, and that the premises of the laws can be met.

ghost use Rattle.sap_resolved.specs.Sized.Examples.{Lawful};
ghost use Rattle.sap_secure.specs.Designs.Examples.{Formed, SampleServes};

use sap_resolved::premises::well_formed_serves;

/// A design with nested states of both kinds, handlers and a memory is well formed, and so has all that the laws ask for.
pub fn premises_are_met()
    ensures lawful { Lawful }
    ensures formed { Formed }
    ensures meets { SampleServes }
{
    sap_resolved::sized::examples::premises_are_met();
    well_formed_serves()
}
