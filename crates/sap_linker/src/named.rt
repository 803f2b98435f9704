// The parts of a system, from its file and from what was added for them.

ghost use Rattle.std.specs.Prelude.{◌≡◌, ◌≤◌, length, map, IfOk};
ghost use Rattle.sap_linker.specs.Adding as adding;
ghost use Rattle.sap_linker.specs.Given.{design_with_net};

use crate::parts::{AddedPart, LinkedPart};
use sap_system::Part;
use std::alloc::{AllocError, Global};

/// What was added, under the names of the first parts that are listed.
pub(crate) fn under_names<'a>(
    alloc: Global,
    listed: &'a [Part],
    added: &[AddedPart<'a>],
) -> Result<Vec<LinkedPart<'a>>, AllocError>
    requires { length added.now ≤ length listed.now }
    ensures { IfOk result (λ made. map design_with_net made.items ≡ adding.under_names listed.now added.now) }
{
    let mut made = Vec::new(alloc);
    for (place, part) in added.iter().enumerate() {
        made.push(LinkedPart {
            name: &listed[place].name,
            checked: part.checked,
            netlist: part.netlist,
        })?;
    }
    Ok(made)
}
