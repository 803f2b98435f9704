//! What the input of the generated run gets.

ghost use Rattle.std.specs.Prelude.{◌≡◌, ◌≤◌, [], ◌∷◌, IfOk};
ghost use Rattle.sap_gen.specs.Stream.{given};

use sap_lattice::Level;
use sap_stream::inputs::{Inputs, Tagged};
use std::alloc::{AllocError, Global};

/// What the one input gets in a cycle of the run of `n`.
pub(crate) fn inputs(alloc: Global, n: u32, cycle: u32) -> Result<Inputs, AllocError>
    requires n { n ≤ 1000 }
    requires cycle { cycle ≤ 4000 }
    ensures { IfOk result (λ inputs. inputs ≡ given n cycle ∷ []) }
{
    let number = u64::from((37 * cycle + n) % 256);
    let level = Level::new((cycle % 4) as u8);
    let mut values = Vec::new(alloc);
    values.push(Tagged::new(number, level))?;
    Ok(Inputs::new(values))
}
