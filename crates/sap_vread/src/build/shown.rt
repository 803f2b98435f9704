//! Ports and inputs.

ghost use Rattle.std.specs.Prelude.{◌≡◌, ◌++◌, IfOk, OnOk, flat_map, map};
ghost use Rattle.sap_vtext.specs.Modules as text;
ghost use Rattle.sap_vread.specs.Build.Narrow.{narrow_port};
ghost use Rattle.sap_vparse.specs.Views.{direction_of, port_of};

use crate::build::narrow::narrow;
use sap_net::parts as net;
use sap_net::parts::{Input, PortKind};
use sap_vparse::items::{Direction, Port};
use std::alloc::{AllocError, Global};

fn kind(direction: Direction) -> PortKind
    ensures { result ≡ text.net_kind (direction_of direction) }
{
    match direction {
        Direction::Input => PortKind::Input,
        Direction::OutputRegister => PortKind::Register,
        Direction::OutputWire => PortKind::Wire,
    }
}

pub fn ports(alloc: Global, ports: &[Port]) -> Result<Vec<net::Port>, AllocError>
    ensures { IfOk result (λ ps. ps.items ≡ map (λ p. text.net_port (narrow_port (port_of p))) ports.now) }
{
    let mut shown = Vec::new(alloc);
    for port in ports {
        let name = port.name.name.copy(alloc)?;
        let kind = kind(port.direction);
        shown.push(net::Port { name, kind })?;
    }
    Ok(shown)
}

fn push_input(alloc: Global, inputs: &mut Vec<Input>, port: &Port) -> Result<(), AllocError>
    ensures { OnOk result (inputs.new.items ≡ inputs.old.items ++ text.port_input (narrow_port (port_of port.now))) }
{
    match port.direction {
        Direction::Input => {
            let name = port.name.name.copy(alloc)?;
            let width = narrow(port.range.value) + 1;
            inputs.push(Input { name, width })?;
        }
        Direction::OutputRegister => (),
        Direction::OutputWire => (),
    }
    Ok(())
}

pub fn inputs(alloc: Global, ports: &[Port]) -> Result<Vec<Input>, AllocError>
    ensures { IfOk result (λ xs. xs.items ≡ flat_map (λ p. text.port_input (narrow_port (port_of p))) ports.now) }
{
    let mut inputs = Vec::new(alloc);
    for port in ports {
        push_input(alloc, &mut inputs, port)?;
    }
    Ok(inputs)
}
