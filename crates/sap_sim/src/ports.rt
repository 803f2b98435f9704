//! Names of ports.

ghost use Rattle.std.specs.Prelude.{◌≡◌, ◌∷◌, IfOk};
ghost use Rattle.std.specs.Option.{option_copied};
ghost use Rattle.sap_net.specs.PortNames.{behind};

use std::alloc::{AllocError, Global};

/// What is behind this letter and `_`, where a name begins so and something is.
pub fn behind(letter: u8, name: &[u8]) -> Option<&[u8]>
    ensures { option_copied result ≡ behind letter name.now }
{
    if name.len() > 2 && name[0] == letter && name[1] == b'_' {
        Some(&name[2..])
    } else {
        None
    }
}

/// The letter, `_` and these bytes.
pub fn joined(alloc: Global, letter: u8, behind: &[u8]) -> Result<Vec<u8>, AllocError>
    ensures { IfOk result (λ name. name.items ≡ letter ∷ (95 ∷ behind.now)) }
{
    let mut name = Vec::new(alloc);
    name.push(letter)?;
    name.push(b'_')?;
    name.extend_from_slice(behind)?;
    Ok(name)
}
