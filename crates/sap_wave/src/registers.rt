//! The registers of a netlist that ports show.

ghost use Rattle.std.specs.Prelude.{◌≡◌, true, ◌∷◌, ◌++◌, [], IfOk, OnOk};
ghost use Rattle.sap_net.specs.IsNetlist.{PortShows};
ghost use Rattle.sap_net.specs.NameMaps.{Indexes};
ghost use Rattle.sap_net.specs.Names.{is_among};
ghost use Rattle.sap_wave.specs.Runs.{initial_numbers, initial_of, variables_among, variables_of};
ghost use Rattle.sap_wave.specs.Shown.{StandsIn, names_in};

use crate::variable::Variable;
use sap_net::name_map::{at_name, index};
use sap_net::netlist::Netlist;
use sap_net::parts::{Port, PortKind, Register};
use std::alloc::{AllocError, Global};
use std::collections::HashMap;

/// The places of registers by their names.
fn index_registers(
    alloc: Global,
    registers: &[Register],
) -> Result<HashMap<Vec<u8>, usize>, AllocError>
    ensures { IfOk result (λ places. Indexes places (names_in registers.now)) }
{
    let mut places = HashMap::new(alloc);
    for (k, register) in registers.iter().enumerate() {
        index(&mut places, alloc, &register.name, k)?;
    }
    Ok(places)
}

/// The register of a name.
fn named<'a>(
    places: &HashMap<Vec<u8>, usize>,
    registers: &'a [Register],
    name: &[u8],
) -> &'a Register
    requires indexed { Indexes places.now (names_in registers.now) }
    requires there { is_among name.now (names_in registers.now) ≡ true }
    ensures named { result.now.name ≡ name.now }
    ensures there { StandsIn registers.now result.now }
{
    match at_name(places, name) {
        Some(k) => &registers[k],
        None => unreachable!(),
    }
}

/// The registers that ports show, as variables, and the numbers that they have first.
#[derive(Drop)]
pub struct Shown {
    pub variables: Vec<Variable>,
    pub first: Vec<u64>,
}

/// Adds what a port shows, where that is a register.
fn push_shown(
    shown: &mut Shown,
    alloc: Global,
    places: &HashMap<Vec<u8>, usize>,
    netlist: &Netlist,
    port: &Port,
) -> Result<(), AllocError>
    requires indexed { Indexes places.now (names_in netlist.now.registers) }
    requires shows { PortShows netlist.now port.now.kind port.now.name }
    ensures variables { OnOk result (shown.new.variables.items ≡ shown.old.variables.items ++ variables_among netlist.now (port.now ∷ [])) }
    ensures first { OnOk result (shown.new.first.items ≡ shown.old.first.items ++ initial_of netlist.now (variables_among netlist.now (port.now ∷ []))) }
{
    netlist.rules();
    match port.kind {
        PortKind::Register => {
            let register = named(places, netlist.registers(), port.name.as_bytes());
            let name = port.name.copy(alloc)?;
            let width = register.width;
            shown.variables.push(Variable { name, width })?;
            shown.first.push(register.start)?;
            Ok(())
        }
        PortKind::Input | PortKind::Wire => Ok(()),
    }
}

pub fn shown_by_ports(alloc: Global, netlist: &Netlist) -> Result<Shown, AllocError>
    ensures variables { IfOk result (λ s. s.variables.items ≡ variables_of netlist.now) }
    ensures first { IfOk result (λ s. s.first.items ≡ initial_numbers netlist.now) }
{
    netlist.rules();
    let places = index_registers(alloc, netlist.registers())?;
    let variables = Vec::new(alloc);
    let first = Vec::new(alloc);
    let mut shown = Shown { variables, first };
    for port in netlist.ports() {
        push_shown(&mut shown, alloc, &places, netlist, port)?;
    }
    Ok(shown)
}
