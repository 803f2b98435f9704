//! Maps from names to widths.

ghost use Rattle.std.specs.Prelude.{IfOk};
ghost use Rattle.sap_sim.specs.Fields.{input_widths};
ghost use Rattle.sap_sim.specs.Shown.{register_widths};
ghost use Rattle.sap_sim.specs.Lookup.{Finds};

use sap_net::name_map::put;
use sap_net::parts::{Input, Register};
use std::alloc::{AllocError, Global};
use std::collections::HashMap;

/// The widths of inputs, by name.
pub fn input_widths(alloc: Global, inputs: &[Input]) -> Result<HashMap<Vec<u8>, usize>, AllocError>
    ensures { IfOk result (λ m. Finds m (input_widths inputs.now)) }
{
    let mut widths = HashMap::new(alloc);
    // the last one first, so that the first of two of one name counts
    for k in (0..inputs.len()).rev() {
        put(
            &mut widths,
            alloc,
            &inputs[k].name,
            inputs[k].width as usize,
        )?;
    }
    Ok(widths)
}

/// The widths of registers, by name.
pub fn register_widths(
    alloc: Global,
    registers: &[Register],
) -> Result<HashMap<Vec<u8>, usize>, AllocError>
    ensures { IfOk result (λ m. Finds m (register_widths registers.now)) }
{
    let mut widths = HashMap::new(alloc);
    for k in (0..registers.len()).rev() {
        put(
            &mut widths,
            alloc,
            &registers[k].name,
            registers[k].width as usize,
        )?;
    }
    Ok(widths)
}
