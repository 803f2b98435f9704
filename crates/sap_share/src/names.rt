//! The names of helping wires.

ghost use Rattle.std.specs.Prelude.{◌≡◌};
ghost use Rattle.sap_share.specs.Names.{helper};

use sap_net::parts::Name;

/// The name of the helping wire of a number.
#[tactic(auto, unfolding(crate::specs::Names::helper))]
pub fn helper_name(k: u64) -> Name
    ensures { result ≡ helper k }
{
    Name::numbered("n", k)
}
