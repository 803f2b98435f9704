//! The registers of the whole.

ghost use Rattle.std.specs.Prelude.{◌≡◌, ◌++◌, [], ◌∷◌, filter, map, All, IfOk, OnOk};
ghost use Rattle.sap_build.specs.Copies as copies;
ghost use Rattle.sap_joined.specs.Joined as spec;
ghost use Rattle.sap_joined.specs.Seen as seen;
ghost use Rattle.sap_joined.specs.Spelled.{RegisterSpelled};
ghost use Rattle.sap_linked.specs.Parts as parts;
ghost use Rattle.sap_share.specs.Sets.{holds};

use crate::copies::copy_register;
use crate::parts::NamedNet;
use sap_net::parts::{Name, Register};
use sap_share::places::Places;
use std::alloc::{AllocError, Global};

/// Registers that ports show, and the others.
#[derive(Drop)]
pub(crate) struct Registers {
    pub(crate) shown: Vec<Register>,
    pub(crate) hidden: Vec<Register>,
}

fn add_register(
    registers: &mut Registers,
    shown: &Places,
    register: Register,
) -> Result<(), AllocError>
    ensures shown { OnOk result (registers.new.shown.items ≡ registers.old.shown.items ++ filter (spec.is_shown_register (holds shown.now)) (register ∷ [])) }
    ensures hidden { OnOk result (registers.new.hidden.items ≡ registers.old.hidden.items ++ filter (spec.is_hidden_register (holds shown.now)) (register ∷ [])) }
{
    if shown.holds(&register.name) {
        registers.shown.push(register)?;
    } else {
        registers.hidden.push(register)?;
    }
    Ok(())
}

fn add_registers_of(
    alloc: Global,
    registers: &mut Registers,
    shown: &Places,
    part: &Name,
    given: &[Register],
) -> Result<(), AllocError>
    requires { All RegisterSpelled given.now }
    ensures shown { OnOk result (registers.new.shown.items ≡ registers.old.shown.items ++ filter (spec.is_shown_register (holds shown.now)) (map (copies.copy_register (parts.in_part part.now)) given.now)) }
    ensures hidden { OnOk result (registers.new.hidden.items ≡ registers.old.hidden.items ++ filter (spec.is_hidden_register (holds shown.now)) (map (copies.copy_register (parts.in_part part.now)) given.now)) }
{
    for register in given {
        let copy = copy_register(alloc, part, register)?;
        add_register(registers, shown, copy)?;
    }
    Ok(())
}

/// The registers of all parts.
pub(crate) fn sort_registers(
    alloc: Global,
    parts: &[NamedNet<'_>],
    shown: &Places,
) -> Result<Registers, AllocError>
    ensures shown { IfOk result (λ made. made.shown.items ≡ filter (spec.is_shown_register (holds shown.now)) (spec.part_registers (map seen.named_net parts.now))) }
    ensures hidden { IfOk result (λ made. made.hidden.items ≡ filter (spec.is_hidden_register (holds shown.now)) (spec.part_registers (map seen.named_net parts.now))) }
{
    let mut registers = Registers {
        shown: Vec::new(alloc),
        hidden: Vec::new(alloc),
    };
    for part in parts {
        part.netlist.rules();
        add_registers_of(
            alloc,
            &mut registers,
            shown,
            part.name,
            part.netlist.registers(),
        )?;
    }
    Ok(registers)
}
