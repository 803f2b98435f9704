//! The registers that rows show.

ghost use Rattle.std.specs.Prelude.{◌≡◌, true, ◌∷◌, ◌++◌, All, map, IfOk, OnOk};
ghost use Rattle.sap_maps.specs.Scope.{Scope, find};
ghost use Rattle.sap_net.specs.Names.{is_among, is_name};
ghost use Rattle.sap_net.specs.IsNetlist.{IsNetlist, register_names};
ghost use Rattle.sap_net.specs.Net.{Net};
ghost use Rattle.sap_cycle.specs.Running.{IsPlaceOf};
ghost use Rattle.sap_net.specs.PortNames.{value_of, is_number, value_name, tag_name};
ghost use Rattle.sap_net.specs.Shown.{register_ports, port_widths, has_tag, shown_by, shown_among};
ghost use Rattle.sap_sim.specs.Shown.{register_widths};
ghost use Rattle.sap_sim.specs.Lookup.{Finds};
ghost use Rattle.sap_net.specs.NameMaps.{Indexes};
ghost use Rattle.sap_sim.specs.Layout.{ArePlaces};

use crate::lookup::register_widths;
use crate::ports::{behind, joined};
use sap_cycle::runner::{Place, Runner};
use sap_net::name_map::{at_name, index_names, is_indexed};
use sap_net::netlist::Netlist;
use sap_net::parts::{Name, Port, PortKind};
use std::alloc::{AllocError, Global};
use std::collections::HashMap;

/// The names of the `output reg` ports.
fn register_ports(alloc: Global, ports: &[Port]) -> Result<Vec<Name>, AllocError>
    ensures { IfOk result (λ names. names.items ≡ register_ports ports.now) }
{
    let mut names = Vec::new(alloc);
    for port in ports {
        if let PortKind::Register = port.kind {
            names.push(port.name.copy(alloc)?)?;
        }
    }
    Ok(names)
}

fn is_wide(widths: &HashMap<Vec<u8>, usize>, tag: u32, name: &[u8]) -> bool
    ensures { (sc : Scope) → Finds widths.now sc → result ≡ is_number tag (find sc name.now) }
{
    at_name(widths, name) == Some(tag as usize)
}

/// Whether an `output reg` port `t_x` of the width of tags is there.
fn has_tag(
    alloc: Global,
    ports: &HashMap<Vec<u8>, usize>,
    widths: &HashMap<Vec<u8>, usize>,
    tag: u32,
    x: &[u8],
) -> Result<bool, AllocError>
    ensures { IfOk result (λ has. (n : Net) → IsNetlist n → Indexes ports.now (register_ports n.ports) → Finds widths.now (register_widths n.registers)
        → has ≡ has_tag tag (port_widths n) x.now) }
{
    let name = joined(alloc, b't', x)?;
    let is_port = is_indexed(ports, &name);
    let is_wide = is_wide(widths, tag, &name);
    Ok(is_port && is_wide)
}

/// Adds x, where the name is `v_x` with such a `t_x`.
fn push_shown(
    xs: &mut Vec<Name>,
    alloc: Global,
    ports: &HashMap<Vec<u8>, usize>,
    widths: &HashMap<Vec<u8>, usize>,
    tag: u32,
    name: &Name,
) -> Result<(), AllocError>
    requires { is_name name.now ≡ true }
    ensures { OnOk result ((n : Net) → IsNetlist n → Indexes ports.now (register_ports n.ports) → Finds widths.now (register_widths n.registers)
        → xs.new.items ≡ xs.old.items ++ shown_by tag (port_widths n) (value_of name.now)) }
{
    let Some(x) = behind(b'v', name.as_bytes()) else {
        return Ok(());
    };
    if !has_tag(alloc, ports, widths, tag, x)? {
        return Ok(());
    }
    let label = Name::spelled(alloc, x)?;
    xs.push(label)?;
    Ok(())
}

/// Each x with `v_x` among some names, and such a `t_x`.
fn shown_among(
    alloc: Global,
    ports: &HashMap<Vec<u8>, usize>,
    widths: &HashMap<Vec<u8>, usize>,
    tag: u32,
    names: &[Name],
) -> Result<Vec<Name>, AllocError>
    requires { All (λ x. is_name x ≡ true) names.now }
    ensures { IfOk result (λ xs. (n : Net) → IsNetlist n → Indexes ports.now (register_ports n.ports) → Finds widths.now (register_widths n.registers)
        → xs.items ≡ shown_among tag (port_widths n) names.now) }
{
    let mut xs = Vec::new(alloc);
    for name in names {
        push_shown(&mut xs, alloc, ports, widths, tag, name)?;
    }
    Ok(xs)
}

/// The place of a register.
fn place(runner: &Runner, name: &[u8]) -> Place
    requires { is_among name.now (register_names runner.now.net) ≡ true }
    ensures { IsPlaceOf runner.now.net name.now result }
{
    runner.netlist().rules();
    match str::from_utf8(name) {
        Ok(text) => match runner.find(text) {
            Some(place) => place,
            None => unreachable!(),
        },
        Err(_) => unreachable!(),
    }
}

/// The places of the registers with this letter, `_` and these names.
fn register_places(
    alloc: Global,
    runner: &Runner,
    letter: u8,
    names: &[Name],
) -> Result<Vec<Place>, AllocError>
    requires { All (λ x. is_among (letter ∷ (95 ∷ x)) (register_names runner.now.net) ≡ true) names.now }
    ensures { IfOk result (λ places. ArePlaces runner.now.net (map (λ x. letter ∷ (95 ∷ x)) names.now) places.items) }
{
    let mut places = Vec::new(alloc);
    for name in names {
        let register = joined(alloc, letter, name.as_bytes())?;
        places.push(place(runner, &register))?;
    }
    Ok(places)
}

// The names of the registers that rows show, where these are the `output reg` ports.
fn shown_labels(
    alloc: Global,
    netlist: &Netlist,
    tag: u32,
    registers: &[Name],
) -> Result<Vec<Name>, AllocError>
    requires { registers.now ≡ register_ports netlist.now.ports }
    ensures { IfOk result (λ xs. xs.items ≡ shown_among tag (port_widths netlist.now) (register_ports netlist.now.ports)) }
{
    netlist.rules();
    let ports = index_names(alloc, registers)?;
    let widths = register_widths(alloc, netlist.registers())?;
    shown_among(alloc, &ports, &widths, tag, registers)
}

// The names of the registers that rows show.
fn labels(alloc: Global, netlist: &Netlist, tag: u32) -> Result<Vec<Name>, AllocError>
    ensures { IfOk result (λ xs. xs.items ≡ shown_among tag (port_widths netlist.now) (register_ports netlist.now.ports)) }
{
    let registers = register_ports(alloc, netlist.ports())?;
    shown_labels(alloc, netlist, tag, &registers)
}

/// The names of the registers that rows show, and the places of their numbers and tags.
#[derive(Drop)]
pub struct Shown {
    pub names: Vec<Name>,
    pub values: Vec<Place>,
    pub tags: Vec<Place>,
}

pub fn shown_of(alloc: Global, runner: &Runner, tag: u32) -> Result<Shown, AllocError>
    ensures names { IfOk result (λ s. s.names.items ≡ shown_among tag (port_widths runner.now.net) (register_ports runner.now.net.ports)) }
    ensures values { IfOk result (λ s. ArePlaces runner.now.net (map value_name s.names.items) s.values.items) }
    ensures tags { IfOk result (λ s. ArePlaces runner.now.net (map tag_name s.names.items) s.tags.items) }
{
    let netlist = runner.netlist();
    netlist.rules();
    let names = labels(alloc, netlist, tag)?;
    let values = register_places(alloc, runner, b'v', &names)?;
    let tags = register_places(alloc, runner, b't', &names)?;
    Ok(Shown {
        names,
        values,
        tags,
    })
}
