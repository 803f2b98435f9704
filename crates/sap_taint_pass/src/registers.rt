//! Registers with their tags, and their order.

ghost use Rattle.std.specs.Prelude.{◌≡◌, ◌++◌, [], map, IfOk, OnOk};
ghost use Rattle.sap_maps.specs.Scope.{find};
ghost use Rattle.sap_taint_pass.specs.Tainted as spec;

use crate::joins::tag_operand;
use crate::names::tag_name;
use sap_build::copies::copy_register;
use sap_net::parts::{Name, Register};
use sap_share::table::Table;
use std::alloc::{AllocError, Global};

/// The tag of a register.
fn register_tag(alloc: Global, width: u32, register: &Register) -> Result<Register, AllocError>
    ensures { IfOk result (λ tag. tag ≡ spec.register_tag width register.now) }
{
    Ok(Register {
        name: tag_name(alloc, &register.name)?,
        width,
        start: 0,
        next: tag_operand(alloc, width, &register.next)?,
    })
}

/// Each register with its tag behind it.
pub(crate) fn tagged_registers(
    alloc: Global,
    width: u32,
    registers: &[Register],
) -> Result<Vec<Register>, AllocError>
    ensures { IfOk result (λ made. made.items ≡ spec.tagged_registers width registers.now) }
{
    let mut made = Vec::new(alloc);
    for register in registers {
        made.push(copy_register(alloc, register)?)?;
        made.push(register_tag(alloc, width, register)?)?;
    }
    Ok(made)
}

/// The registers under their names.
fn by_name(alloc: Global, registers: &[Register]) -> Result<Table<Register>, AllocError>
    ensures { IfOk result (λ table. table ≡ map (λ r. (r.name, r)) registers.now) }
{
    let mut entries = Vec::new(alloc);
    for register in registers {
        let name = register.name.copy(alloc)?;
        entries.push((name, copy_register(alloc, register)?))?;
    }
    Table::new(alloc, entries)
}

/// The register of a name, where there is one.
fn add_found(
    alloc: Global,
    made: &mut Vec<Register>,
    registers: &Table<Register>,
    name: &Name,
) -> Result<(), AllocError>
    ensures { OnOk result (made.new.items ≡ made.old.items ++ spec.found_first (find registers.now name.now) []) }
{
    let Some(register) = registers.get(name) else {
        return Ok(());
    };
    made.push(copy_register(alloc, register)?)?;
    Ok(())
}

/// The registers of these names, in the order of the names.
pub(crate) fn in_order(
    alloc: Global,
    names: &[Name],
    registers: &[Register],
) -> Result<Vec<Register>, AllocError>
    ensures { IfOk result (λ made. made.items ≡ spec.in_order names.now registers.now) }
{
    let table = by_name(alloc, registers)?;
    let mut made = Vec::new(alloc);
    for name in names {
        add_found(alloc, &mut made, &table, name)?;
    }
    Ok(made)
}
