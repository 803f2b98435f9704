//! Sets of names.

ghost use Rattle.std.specs.Prelude.{◌≡◌, IfOk};
ghost use Rattle.sap_joined.specs.Joined as spec;

use sap_net::parts::Port;
use sap_share::places::Places;
use std::alloc::{AllocError, Global};

/// The names of ports.
pub(crate) fn index_ports(alloc: Global, ports: &[Port]) -> Result<Places, AllocError>
    ensures { IfOk result (λ shown. shown ≡ spec.port_names ports.now) }
{
    let mut names = Vec::new(alloc);
    for port in ports {
        names.push(port.name.copy(alloc)?)?;
    }
    Places::new(alloc, names)
}
