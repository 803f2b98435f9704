//! The names of ports, and those that stay.

ghost use Rattle.std.specs.Prelude.{◌≡◌, ◌||◌, map, IfOk, OnOk};
ghost use Rattle.sap_maps.specs.Maps as spec;
ghost use Rattle.sap_net.specs.Names.{is_among};
ghost use Rattle.sap_share.specs.Sets.{AreSame, holds};
ghost use Rattle.sap_trim.specs.Names.{lasting_names, port_names};

use sap_net::netlist::Netlist;
use sap_net::parts::{Memory, Port, Register};
use sap_share::name_set::NameSet;
use std::alloc::{AllocError, Global};

fn add_ports(alloc: Global, names: &mut NameSet, ports: &[Port]) -> Result<(), AllocError>
    ensures { OnOk result ((n : spec.Name) → holds names.new n ≡ (is_among n (map (λ p. p.name) ports.now) || holds names.old n)) }
{
    for port in ports {
        names.add(alloc, &port.name)?;
    }
    Ok(())
}

fn add_registers(
    alloc: Global,
    names: &mut NameSet,
    registers: &[Register],
) -> Result<(), AllocError>
    ensures { OnOk result ((n : spec.Name) → holds names.new n ≡ (is_among n (map (λ r. r.name) registers.now) || holds names.old n)) }
{
    for register in registers {
        names.add(alloc, &register.name)?;
    }
    Ok(())
}

fn add_memories(alloc: Global, names: &mut NameSet, memories: &[Memory]) -> Result<(), AllocError>
    ensures { OnOk result ((n : spec.Name) → holds names.new n ≡ (is_among n (map (λ m. m.name) memories.now) || holds names.old n)) }
{
    for memory in memories {
        names.add(alloc, &memory.name)?;
    }
    Ok(())
}

/// The names of the ports.
pub fn ports(alloc: Global, netlist: &Netlist) -> Result<NameSet, AllocError>
    ensures { IfOk result (λ s. AreSame s (port_names netlist.now)) }
{
    let mut names = NameSet::new(alloc);
    add_ports(alloc, &mut names, netlist.ports())?;
    Ok(names)
}

/// The names that stay: those of ports, registers and memories.
pub fn lasting(alloc: Global, netlist: &Netlist) -> Result<NameSet, AllocError>
    ensures { IfOk result (λ s. AreSame s (lasting_names netlist.now)) }
{
    let mut names = NameSet::new(alloc);
    add_memories(alloc, &mut names, netlist.memories())?;
    add_registers(alloc, &mut names, netlist.registers())?;
    add_ports(alloc, &mut names, netlist.ports())?;
    Ok(names)
}
