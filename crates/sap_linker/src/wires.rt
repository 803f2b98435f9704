// The wires between parts, from their texts.

ghost use Rattle.std.specs.Prelude.{◌≡◌, ◌≢◌, map, IfErr, IfOk, OnOk};
ghost use Rattle.sap_system.specs.Wires.{FirstLinkFault, KeepsWires};
ghost use Rattle.sap_wiring.specs.Wiring.{AreWiresOf, PartsNamed, named_part};
ghost use Rattle.sap_linker.specs.Given.{declares, designs_of, surroundings};

use crate::parts::LinkedPart;
use sap_lattice::lattice::Lattice;
use sap_system::{LinkFault, WireText};
use sap_wiring::{PartNames, Surroundings, Wire, wire_up};
use std::alloc::{AllocError, Global};

/// The name of each part, with those of its design.
fn part_names<'a>(alloc: Global, parts: &[LinkedPart<'a>]) -> Result<Vec<PartNames<'a>>, AllocError>
    ensures { IfOk result (λ made. map named_part made.items ≡ map declares parts.now) }
{
    let mut made = Vec::new(alloc);
    for part in parts {
        made.push(PartNames {
            name: part.name,
            names: part.checked.names(),
        })?;
    }
    Ok(made)
}

/// The wires that texts stand for between parts, or the first rule that a text breaks.
pub(crate) fn wires_between(
    alloc: Global,
    lattice: &Lattice,
    parts: &[LinkedPart<'_>],
    texts: &[WireText],
) -> Result<Vec<Wire>, LinkFault>
    requires { PartsNamed (surroundings lattice.now (designs_of parts.now)) }
    ensures wires { IfOk result (λ wires. AreWiresOf (surroundings lattice.now (designs_of parts.now)) texts.now wires.items) }
    ensures kept { OnOk result (KeepsWires (surroundings lattice.now (designs_of parts.now)) texts.now) }
    ensures refused { IfErr result (λ fault. fault ≢ LinkFault.Memory → FirstLinkFault (surroundings lattice.now (designs_of parts.now)) texts.now fault) }
{
    let names = part_names(alloc, parts)?;
    let around = Surroundings {
        parts: names.as_slice(),
        lattice,
    };
    wire_up(alloc, &around, texts)
}
