//! Wires.

ghost use Rattle.std.specs.Prelude.{◌≡◌, ◌++◌, OnOk, flat_map};
ghost use Rattle.sap_vread.specs.Build.Firsts.{number_of};
ghost use Rattle.sap_vread.specs.Build.Built as spec;
ghost use Rattle.sap_vparse.specs.Views.{item_of};

use crate::build::firsts::Firsts;
use crate::build::narrow::narrow;
use crate::build::operands::right;
use sap_net::parts::Wire;
use sap_vparse::items::Item;
use std::alloc::{AllocError, Global};

/// The width that is one more than the number of a range.
fn width(range: Option<u64>) -> u32
    ensures { result ≡ spec.width_of_range range }
{
    match range {
        Some(range) => narrow(range) + 1,
        None => 0,
    }
}

fn push_wire(
    alloc: Global,
    ranges: &Firsts,
    wires: &mut Vec<Wire>,
    item: &Item,
) -> Result<(), AllocError>
    ensures { OnOk result (wires.new.items ≡ wires.old.items ++ spec.built_wires (number_of ranges.now) (item_of item.now)) }
{
    match item {
        Item::Assign(x, side) => {
            let name = x.name.copy(alloc)?;
            let width = width(ranges.get(&x.name));
            let right = right(alloc, side)?;
            wires.push(Wire { name, width, right })?;
        }
        _ => (),
    }
    Ok(())
}

/// The wires, in the order of their assigns.
pub fn push_wires(
    alloc: Global,
    ranges: &Firsts,
    wires: &mut Vec<Wire>,
    items: &[Item],
) -> Result<(), AllocError>
    ensures { OnOk result (wires.new.items ≡ wires.old.items ++ flat_map (λ x. spec.built_wires (number_of ranges.now) (item_of x)) items.now) }
{
    for item in items {
        push_wire(alloc, ranges, wires, item)?;
    }
    Ok(())
}
