//! The wires of right sides.

ghost use Rattle.std.specs.Prelude.{◌≡◌};
ghost use Rattle.sap_share.specs.Rights.{at_key};

use crate::keys::RightKey;
use crate::names::helper_name;
use sap_net::parts::Name;
use std::collections::HashMap;

/// The name of the wire with the bytes of its right side, by a map from these to the numbers in the names.
pub fn known(numbers: &HashMap<RightKey, u64>, key: &RightKey) -> Option<Name>
    ensures { result ≡ at_key numbers.now key.now }
{
    match numbers.get(key) {
        Some(number) => Some(helper_name(*number)),
        None => None,
    }
}
