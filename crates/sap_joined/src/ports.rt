//! The ports and the inputs of the whole.

ghost use Rattle.std.specs.Prelude.{◌≡◌, ◌++◌, [], ◌∷◌, filter, map, All, IfOk, OnOk};
ghost use Rattle.sap_build.specs.Copies as copies;
ghost use Rattle.sap_joined.specs.Joined as spec;
ghost use Rattle.sap_joined.specs.Seen as seen;
ghost use Rattle.sap_joined.specs.Spelled.{IsSpelled};
ghost use Rattle.sap_linked.specs.Parts as parts;
ghost use Rattle.sap_share.specs.Sets.{holds};

use crate::names::in_part;
use crate::parts::NamedNet;
use sap_net::parts::{Input, Name, Port, PortKind};
use sap_share::places::Places;
use std::alloc::{AllocError, Global};

/// Ports of parts, by what the whole has them as.
#[derive(Drop)]
struct Sorted {
    free: Vec<Port>,
    registers: Vec<Port>,
    wires: Vec<Port>,
    fed: Vec<Port>,
}

fn add_port(sorted: &mut Sorted, fed: &Places, port: Port) -> Result<(), AllocError>
    ensures free { OnOk result (sorted.new.free.items ≡ sorted.old.free.items ++ filter (spec.is_free_port (holds fed.now)) (port ∷ [])) }
    ensures registers { OnOk result (sorted.new.registers.items ≡ sorted.old.registers.items ++ filter spec.is_register_port (port ∷ [])) }
    ensures wires { OnOk result (sorted.new.wires.items ≡ sorted.old.wires.items ++ filter spec.is_wire_port (port ∷ [])) }
    ensures fed { OnOk result (sorted.new.fed.items ≡ sorted.old.fed.items ++ map spec.as_wire (filter (spec.is_fed_port (holds fed.now)) (port ∷ []))) }
{
    match port.kind {
        PortKind::Input => {
            if fed.holds(&port.name) {
                sorted.fed.push(Port {
                    name: port.name,
                    kind: PortKind::Wire,
                })?;
            } else {
                sorted.free.push(port)?;
            }
        }
        PortKind::Register => sorted.registers.push(port)?,
        PortKind::Wire => sorted.wires.push(port)?,
    }
    Ok(())
}

fn add_ports_of(
    alloc: Global,
    sorted: &mut Sorted,
    fed: &Places,
    part: &Name,
    ports: &[Port],
) -> Result<(), AllocError>
    requires { All (λ p. IsSpelled p.name) ports.now }
    ensures free { OnOk result (sorted.new.free.items ≡ sorted.old.free.items ++ filter (spec.is_free_port (holds fed.now)) (map (copies.copy_port (parts.in_part part.now)) ports.now)) }
    ensures registers { OnOk result (sorted.new.registers.items ≡ sorted.old.registers.items ++ filter spec.is_register_port (map (copies.copy_port (parts.in_part part.now)) ports.now)) }
    ensures wires { OnOk result (sorted.new.wires.items ≡ sorted.old.wires.items ++ filter spec.is_wire_port (map (copies.copy_port (parts.in_part part.now)) ports.now)) }
    ensures fed { OnOk result (sorted.new.fed.items ≡ sorted.old.fed.items ++ map spec.as_wire (filter (spec.is_fed_port (holds fed.now)) (map (copies.copy_port (parts.in_part part.now)) ports.now))) }
{
    for port in ports {
        let copy = Port {
            name: in_part(alloc, part, &port.name)?,
            kind: port.kind,
        };
        add_port(sorted, fed, copy)?;
    }
    Ok(())
}

#[tactic(auto, using(crate::proofs::Spelling::ports_spelled))]
fn sort_ports(alloc: Global, parts: &[NamedNet<'_>], fed: &Places) -> Result<Sorted, AllocError>
    ensures free { IfOk result (λ sorted. sorted.free.items ≡ filter (spec.is_free_port (holds fed.now)) (spec.part_ports (map seen.named_net parts.now))) }
    ensures registers { IfOk result (λ sorted. sorted.registers.items ≡ filter spec.is_register_port (spec.part_ports (map seen.named_net parts.now))) }
    ensures wires { IfOk result (λ sorted. sorted.wires.items ≡ filter spec.is_wire_port (spec.part_ports (map seen.named_net parts.now))) }
    ensures fed { IfOk result (λ sorted. sorted.fed.items ≡ map spec.as_wire (filter (spec.is_fed_port (holds fed.now)) (spec.part_ports (map seen.named_net parts.now)))) }
{
    let mut sorted = Sorted {
        free: Vec::new(alloc),
        registers: Vec::new(alloc),
        wires: Vec::new(alloc),
        fed: Vec::new(alloc),
    };
    for part in parts {
        part.netlist.rules();
        add_ports_of(alloc, &mut sorted, fed, part.name, part.netlist.ports())?;
    }
    Ok(sorted)
}

/// The ports of all parts, in the order of the whole.
pub(crate) fn joined_ports(
    alloc: Global,
    parts: &[NamedNet<'_>],
    fed: &Places,
) -> Result<Vec<Port>, AllocError>
    ensures { IfOk result (λ made. made.items ≡ spec.ports_by (holds fed.now) (spec.part_ports (map seen.named_net parts.now))) }
{
    let sorted = sort_ports(alloc, parts, fed)?;
    let Sorted {
        free: mut ports,
        mut registers,
        mut wires,
        fed: mut others,
    } = sorted;
    ports.append(&mut registers)?;
    ports.append(&mut wires)?;
    ports.append(&mut others)?;
    Ok(ports)
}

fn add_input(
    alloc: Global,
    made: &mut Vec<Input>,
    fed: &Places,
    part: &Name,
    input: &Input,
) -> Result<(), AllocError>
    requires { IsSpelled input.now.name }
    ensures { OnOk result (made.new.items ≡ made.old.items ++ filter (spec.is_free_input (holds fed.now)) (copies.copy_input (parts.in_part part.now) input.now ∷ [])) }
{
    let name = in_part(alloc, part, &input.name)?;
    if !fed.holds(&name) {
        made.push(Input {
            name,
            width: input.width,
        })?;
    }
    Ok(())
}

fn add_inputs_of(
    alloc: Global,
    made: &mut Vec<Input>,
    fed: &Places,
    part: &Name,
    inputs: &[Input],
) -> Result<(), AllocError>
    requires { All (λ i. IsSpelled i.name) inputs.now }
    ensures { OnOk result (made.new.items ≡ made.old.items ++ filter (spec.is_free_input (holds fed.now)) (map (copies.copy_input (parts.in_part part.now)) inputs.now)) }
{
    for input in inputs {
        add_input(alloc, made, fed, part, input)?;
    }
    Ok(())
}

/// The inputs of all parts that no wire feeds.
#[tactic(auto, using(crate::proofs::Spelling::inputs_spelled))]
pub(crate) fn free_inputs(
    alloc: Global,
    parts: &[NamedNet<'_>],
    fed: &Places,
) -> Result<Vec<Input>, AllocError>
    ensures { IfOk result (λ made. made.items ≡ filter (spec.is_free_input (holds fed.now)) (spec.part_inputs (map seen.named_net parts.now))) }
{
    let mut made = Vec::new(alloc);
    for part in parts {
        part.netlist.rules();
        add_inputs_of(alloc, &mut made, fed, part.name, part.netlist.inputs())?;
    }
    Ok(made)
}
