//! What a stimulus gives the inputs of a netlist.

ghost use Rattle.std.specs.Prelude.{◌≡◌, All, IfOk, map};
ghost use Rattle.sap_stim.specs.Line.{IsSized};
ghost use Rattle.sap_sim.specs.Fields.{fields_of, tag_width};
ghost use Rattle.sap_sim.specs.Layout.{source_of};

use crate::fields::line_of;
use crate::lookup::input_widths;
use crate::sources::{Source, sources};
use sap_lattice::Lattice;
use sap_net::netlist::Netlist;
use sap_stim::Fields;
use std::alloc::{AllocError, Global};

/// The fields of a line, and where the numbers of the inputs come from, in port order.
#[derive(Drop)]
pub struct Feed {
    pub fields: Fields,
    pub sources: Vec<Source>,
}

pub fn feed_of(alloc: Global, lattice: &Lattice, netlist: &Netlist) -> Result<Feed, AllocError>
    ensures fields { IfOk result (λ f. f.fields ≡ fields_of lattice.now netlist.now) }
    ensures sized { IfOk result (λ f. All IsSized f.fields) }
    ensures sources { IfOk result (λ f. f.sources.items ≡ map (source_of (tag_width lattice.now) netlist.now.inputs) netlist.now.inputs) }
{
    netlist.rules();
    let tag = lattice.width();
    let inputs = netlist.inputs();
    let widths = input_widths(alloc, inputs)?;
    let line = line_of(alloc, &widths, tag, inputs)?;
    let sources = sources(alloc, &widths, tag, inputs, &line.names)?;
    Ok(Feed {
        fields: line.fields,
        sources,
    })
}
