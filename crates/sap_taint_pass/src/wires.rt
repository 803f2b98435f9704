//! The wires of tags.

ghost use Rattle.std.specs.Prelude.{ℕ, [], OnOk};
ghost use Rattle.sap_net.specs.Net.{Net};
ghost use Rattle.sap_taint.specs.TagNames.{name_of_tag};
ghost use Rattle.sap_taint_pass.specs.Tainted as spec;
ghost use Rattle.sap_taint_pass.specs.Helping.{helping_name};
ghost use Rattle.sap_taint_pass.specs.Helped.{Helped, Adds};

use crate::joins::{add_joined, tags_read};
use crate::names::tag_name;
use sap_build::writer::Writer;
use sap_net::parts::Wire;
use std::alloc::{AllocError, Global};

fn add_tag_wire(
    alloc: Global,
    writer: &mut Writer,
    width: u32,
    wire: &Wire,
) -> Result<(), AllocError>
    ensures { OnOk result ((n : Net) (k : ℕ) → Helped n k writer.old
        → Adds n k (spec.help_for (spec.tags_read wire.now)) (spec.joined (helping_name n) width k (name_of_tag wire.now.name) (spec.tags_read wire.now)) []
        writer.old writer.new) }
{
    let name = tag_name(alloc, &wire.name)?;
    let tags = tags_read(alloc, &wire.right)?;
    add_joined(alloc, writer, width, name, tags)?;
    Ok(())
}

/// The tags of wires, behind others.
pub(crate) fn add_tag_wires(
    alloc: Global,
    writer: &mut Writer,
    width: u32,
    wires: &[Wire],
) -> Result<(), AllocError>
    ensures { OnOk result ((n : Net) (k : ℕ) → Helped n k writer.old
        → Adds n k (spec.help_for_wires wires.now) (spec.tag_wires (helping_name n) width k wires.now) [] writer.old writer.new) }
{
    for wire in wires {
        add_tag_wire(alloc, writer, width, wire)?;
    }
    Ok(())
}
