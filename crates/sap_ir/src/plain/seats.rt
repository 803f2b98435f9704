//! The registers of current children.

ghost use Rattle.std.specs.Prelude.{◌≡◌, IfOk};
ghost use Rattle.sap_ir.specs.Plain.Nested.{seat_width};
ghost use Rattle.sap_net.specs.PortNames.{seat_name, root_seat};

use sap_net::parts::Name;
use std::alloc::{AllocError, Global};

/// The least width of 1 or more that can hold the number of each of so many children.
pub fn width(count: usize) -> u32
    ensures { result ≡ seat_width count }
{
    for bits in 1..64 {
        if count <= 1 << bits {
            return bits;
        }
    }
    64
}

/// The register of the current child of a state.
pub fn of_state(alloc: Global, state: &Name) -> Result<Name, AllocError>
    ensures { IfOk result (λ n. n ≡ seat_name state.now) }
{
    let text = format!(in alloc; "s_{state}")?;
    Ok(Name::new(text))
}

/// The register of the current top-level state.
pub fn of_root(alloc: Global) -> Result<Name, AllocError>
    ensures { IfOk result (λ n. n ≡ root_seat) }
{
    Ok(Name::new(String::from_str(alloc, "s_0")?))
}
