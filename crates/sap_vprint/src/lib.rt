//! Prints a netlist as the text of a module: one port a line, one item a line.
#![tactic(auto)]

mod head;
mod lines;
mod lookup;
mod words;

ghost use Rattle.std.specs.Prelude.{◌≡◌, ◌++◌, OnOk, IfOk};
ghost use Rattle.sap_vtext.specs.Modules.{IsModule};
ghost use Rattle.sap_vprint.specs.Parts.{front_text, inner_text, body_text};

use sap_desk::Bytes;
use sap_net::netlist::Netlist;
use std::alloc::{AllocError, Global};

/// What stands before the items.
#[tactic(auto, unfolding(crate::specs::Parts::front_text))]
fn front(out: &mut Vec<u8>, netlist: &Netlist, hints: &mut lookup::Hints) -> Result<(), AllocError>
    ensures { OnOk result (out.new.items ≡ out.old.items ++ front_text netlist.now) }
{
    head::begin(out, netlist.module_name())?;
    head::ports(out, netlist, hints)?;
    out.extend_from_slice(b"\n);\n")
}

/// The declarations of what is no port.
#[tactic(auto, unfolding(crate::specs::Parts::inner_text))]
fn inner(out: &mut Vec<u8>, netlist: &Netlist, hints: &mut lookup::Hints) -> Result<(), AllocError>
    ensures { OnOk result (out.new.items ≡ out.old.items ++ inner_text netlist.now) }
{
    netlist.rules();
    let names = &netlist.names()[netlist.ports().len()..];
    hints.restart_wires();
    head::declarations(out, netlist, names, hints)?;
    head::integer(out, netlist.memories())
}

/// The items behind the declarations.
#[tactic(auto, unfolding(crate::specs::Parts::body_text))]
fn body(out: &mut Vec<u8>, netlist: &Netlist) -> Result<(), AllocError>
    ensures { OnOk result (out.new.items ≡ out.old.items ++ body_text netlist.now) }
{
    lines::assigns(out, netlist.wires())?;
    lines::initials(out, netlist.registers())?;
    lines::initial_cells(out, netlist.memories())?;
    lines::steps(out, netlist.registers())?;
    lines::writes(out, netlist.memories())?;
    out.extend_from_slice(b"endmodule\n")
}

/// The text of the netlist's module.
pub fn print(alloc: Global, netlist: &Netlist) -> Result<Bytes, AllocError>
    ensures { IfOk result (λ text. IsModule text netlist.now) }
{
    netlist.rules();
    let mut out = Vec::new(alloc);
    let mut hints = lookup::Hints::new(alloc);
    front(&mut out, netlist, &mut hints)?;
    inner(&mut out, netlist, &mut hints)?;
    body(&mut out, netlist)?;
    Ok(Bytes::new(out))
}
