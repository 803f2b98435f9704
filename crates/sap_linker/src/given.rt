// The netlists of parts and the wires between them, by names.

ghost use Rattle.std.specs.Prelude.{◌≡◌, [], map, option_map, IfOk};
ghost use Rattle.sap_lattice.specs.Levels.{order_of};
ghost use Rattle.sap_lattice.specs.Codes.{code_of};
ghost use Rattle.sap_linked.specs.Designs.{named_system};
ghost use Rattle.sap_joined.specs.Seen as seen;
ghost use Rattle.sap_joined.specs.Systems.{feed_of};
ghost use Rattle.sap_linker.specs.Given.{Meets, WiresMeet, designs_of, named_net};

use crate::parts::LinkedPart;
use sap_joined::{Feed, NamedNet};
use sap_lattice::lattice::Lattice;
use sap_lattice::level::Level;
use sap_wiring::Wire;
use std::alloc::{AllocError, Global};

/// The netlist of each part under its name.
pub(crate) fn named_nets<'a>(
    alloc: Global,
    parts: &[LinkedPart<'a>],
) -> Result<Vec<NamedNet<'a>>, AllocError>
    ensures { IfOk result (λ made. map seen.named_net made.items ≡ map named_net parts.now) }
{
    let mut made = Vec::new(alloc);
    for part in parts {
        made.push(NamedNet {
            name: part.name,
            netlist: part.netlist,
        })?;
    }
    Ok(made)
}

/// The code of the level that there may be.
fn code_at(lattice: &Lattice, level: Option<Level>) -> Option<u64>
    ensures { result ≡ option_map (code_of (order_of lattice.now)) level }
{
    Some(lattice.code(level?))
}

/// The wire by names, with the code of its level.
fn feed<'a>(lattice: &Lattice, parts: &[LinkedPart<'a>], wire: Wire) -> Feed<'a>
    requires { Meets (designs_of parts.now) wire }
    ensures { seen.feed result ≡ feed_of (named_system lattice.now (designs_of parts.now) []) wire }
{
    let from = wire.from();
    let to = wire.to();
    let source = &parts[from.part()];
    let target = &parts[to.part()];
    Feed {
        from_part: source.name,
        from: source.checked.names().name(from.entity()),
        to_part: target.name,
        to: target.checked.names().name(to.entity()),
        width: target.checked.names().width(to.entity()),
        level: code_at(lattice, wire.level()),
    }
}

/// All wires by names.
pub(crate) fn feeds<'a>(
    alloc: Global,
    lattice: &Lattice,
    parts: &[LinkedPart<'a>],
    wires: &[Wire],
) -> Result<Vec<Feed<'a>>, AllocError>
    requires { WiresMeet (designs_of parts.now) wires.now }
    ensures { IfOk result (λ made. map seen.feed made.items ≡ map (feed_of (named_system lattice.now (designs_of parts.now) [])) wires.now) }
{
    let mut made = Vec::new(alloc);
    for wire in wires {
        made.push(feed(lattice, parts, *wire))?;
    }
    Ok(made)
}
