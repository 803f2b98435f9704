//! Ports and declarations.

ghost use Rattle.std.specs.Prelude.{◌≡◌, ◌++◌, [], ◌-◌, OnOk, codes, flat_map, decimal};
ghost use Rattle.sap_maps.specs.Scope.{find};
ghost use Rattle.sap_vprint.specs.Lookup.{shape_found};
ghost use Rattle.sap_vprint.specs.Printed.{entities, direction_text, port_of, printed_port, declared_items, integer_of};
ghost use Rattle.sap_vprint.specs.Text.{text_of, items_text, range_pieces, head_pieces, port_text};

use crate::lookup::{Entity, Hints, look_up};
use crate::words::range;
use sap_net::netlist::Netlist;
use sap_net::parts::{Memory, Name, Port, PortKind};
use sap_text::digits::push_number;
use std::alloc::AllocError;

/// The first lines, from the comment to the clock.
pub fn begin(out: &mut Vec<u8>, module_name: &Name) -> Result<(), AllocError>
    ensures { OnOk result (out.new.items ≡ out.old.items ++ text_of (head_pieces module_name.now)) }
{
    out.extend_from_slice(b"// written by sapper\nmodule ")?;
    out.extend_from_slice(module_name.as_bytes())?;
    out.extend_from_slice(b"(\n  input clk")
}

fn direction(kind: PortKind) -> &'static [u8]
    ensures { result.now ≡ direction_text kind }
{
    match kind {
        PortKind::Input => b"input ",
        PortKind::Register => b"output reg ",
        PortKind::Wire => b"output wire ",
    }
}

/// A port of a width, on a line of its own.
fn port_line(out: &mut Vec<u8>, kind: PortKind, name: &Name, width: u32) -> Result<(), AllocError>
    ensures { OnOk result (out.new.items ≡ out.old.items ++ port_text (port_of kind name.now width)) }
{
    out.extend_from_slice(b",\n  ")?;
    out.extend_from_slice(direction(kind))?;
    range(out, width)?;
    out.extend_from_slice(name.as_bytes())
}

fn port(
    out: &mut Vec<u8>,
    netlist: &Netlist,
    port: &Port,
    hints: &mut Hints,
) -> Result<(), AllocError>
    ensures { OnOk result (out.new.items ≡ out.old.items ++ port_text (printed_port netlist.now port.now)) }
{
    let width = match look_up(netlist, &port.name, hints)? {
        Some(entity) => entity.width(),
        None => 0,
    };
    port_line(out, port.kind, &port.name, width)
}

/// The ports.
pub fn ports(out: &mut Vec<u8>, netlist: &Netlist, hints: &mut Hints) -> Result<(), AllocError>
    ensures { OnOk result (out.new.items ≡ out.old.items ++ flat_map (λ p. port_text (printed_port netlist.now p)) netlist.now.ports) }
{
    let ports = netlist.ports();
    for p in ports {
        port(out, netlist, p, hints)?;
    }
    Ok(())
}

/// A wire or a register.
fn value_line(out: &mut Vec<u8>, word: &[u8], name: &Name, width: u32) -> Result<(), AllocError>
    ensures { OnOk result (out.new.items ≡ out.old.items ++ (word.now ++ (text_of (range_pieces (width - 1)) ++ (name.now ++ codes ";\n")))) }
{
    out.extend_from_slice(word)?;
    range(out, width)?;
    out.extend_from_slice(name.as_bytes())?;
    out.extend_from_slice(b";\n")
}

fn memory_line(out: &mut Vec<u8>, name: &Name, width: u32, depth: u32) -> Result<(), AllocError>
    ensures { OnOk result (out.new.items ≡ out.old.items ++ (codes "reg " ++ (text_of (range_pieces (width - 1)) ++ (name.now ++ (codes " [0:" ++ (decimal (depth - 1) ++ codes "];\n")))))) }
{
    out.extend_from_slice(b"reg ")?;
    range(out, width)?;
    out.extend_from_slice(name.as_bytes())?;
    out.extend_from_slice(b" [0:")?;
    push_number(out, u64::from(depth.saturating_sub(1)))?;
    out.extend_from_slice(b"];\n")
}

fn entity_line(out: &mut Vec<u8>, name: &Name, entity: Option<Entity>) -> Result<(), AllocError>
    ensures { OnOk result (out.new.items ≡ out.old.items ++ items_text (declared_items name.now (shape_found entity))) }
{
    match entity {
        Some(Entity::Wire { width }) => value_line(out, b"wire ", name, width),
        Some(Entity::Register { width }) => value_line(out, b"reg ", name, width),
        Some(Entity::Memory { width, depth }) => memory_line(out, name, width, depth),
        Some(Entity::Input { .. }) | None => Ok(()),
    }
}

/// The declaration of a name that is no port.
fn declaration(
    out: &mut Vec<u8>,
    netlist: &Netlist,
    name: &Name,
    hints: &mut Hints,
) -> Result<(), AllocError>
    ensures { OnOk result (out.new.items ≡ out.old.items ++ items_text (declared_items name.now (find (entities netlist.now) name.now))) }
{
    let found = look_up(netlist, name, hints)?;
    entity_line(out, name, found)
}

/// The declarations of names that are no ports.
pub fn declarations(
    out: &mut Vec<u8>,
    netlist: &Netlist,
    names: &[Name],
    hints: &mut Hints,
) -> Result<(), AllocError>
    ensures { OnOk result (out.new.items ≡ out.old.items ++ flat_map (λ x. items_text (declared_items x (find (entities netlist.now) x))) names.now) }
{
    for name in names {
        declaration(out, netlist, name, hints)?;
    }
    Ok(())
}

/// The loop variable, where there are memories.
pub fn integer(out: &mut Vec<u8>, memories: &[Memory]) -> Result<(), AllocError>
    ensures { OnOk result (out.new.items ≡ out.old.items ++ items_text (integer_of memories.now)) }
{
    match memories {
        [] => Ok(()),
        [_, ..] => out.extend_from_slice(b"integer i;\n"),
    }
}
