//! What each name stands for at first, the shapes of memories, and the write ports of memories that aren't written.

ghost use Rattle.std.specs.Prelude.{◌≡◌, ◌||◌, ℕ, List, ◌++◌, map, IfOk, OnOk};
ghost use Rattle.sap_ir.specs.Program.{source_of};
ghost use Rattle.sap_lower.specs.Lookup.{shapes_of};
ghost use Rattle.sap_ir.specs.Calcs.{action_of, commands_of};
ghost use Rattle.sap_lower.specs.Lowered.{first_entries, first_port, index_bits, named_entry, register_entry, targets, with_target, zero_entry};
ghost use Rattle.sap_share.specs.Sets.{AreSame, holds};
ghost use Rattle.sap_net.specs.Names.{is_among};

use crate::parts::{Part, WritePort};
use sap_ir::guarded::{Act, GuardedCmd, MemoryVariable, Var};
use sap_ir::program::Guarded;
use sap_net::parts::{Name, Operand};
use sap_share::name_set::NameSet;
use sap_share::table::Table;
use std::alloc::{AllocError, Global};

/// The bits of an index into so many cells, a power of two up to 4096.
fn bits_of(depth: u32) -> u32
    ensures { result ≡ index_bits depth }
{
    match depth {
        4096 => 12,
        2048 => 11,
        1024 => 10,
        512 => 9,
        256 => 8,
        128 => 7,
        64 => 6,
        32 => 5,
        16 => 4,
        8 => 3,
        4 => 2,
        2 => 1,
        _ => 0,
    }
}

/// Inputs stand for themselves.
fn add_named(
    alloc: Global,
    entries: &mut Vec<(Name, Part)>,
    variables: &[Var],
) -> Result<(), AllocError>
    ensures { OnOk result (entries.new.items ≡ entries.old.items ++ map named_entry variables.now) }
{
    for variable in variables {
        let name = variable.name.copy(alloc)?;
        let operand = Operand::Named(variable.name.copy(alloc)?);
        entries.push((
            name,
            Part {
                operand,
                width: variable.width,
            },
        ))?;
    }
    Ok(())
}

fn add_target(alloc: Global, assigned: &mut NameSet, act: &Act) -> Result<(), AllocError>
    ensures { OnOk result (AreSame assigned.new (with_target (action_of act.now) assigned.old)) }
{
    match act {
        Act::Set(name, _) => assigned.add(alloc, name),
        Act::Put { .. } => Ok(()),
    }
}

fn add_targets(alloc: Global, assigned: &mut NameSet, cmds: &[GuardedCmd]) -> Result<(), AllocError>
    ensures { OnOk result ((n : List ℕ) → holds assigned.new n ≡ (is_among n (targets (commands_of cmds.now)) || holds assigned.old n)) }
{
    for cmd in cmds {
        add_target(alloc, assigned, &cmd.act)?;
    }
    Ok(())
}

/// The names that are assigned.
fn targets_of(alloc: Global, cmds: &[GuardedCmd]) -> Result<NameSet, AllocError>
    ensures { IfOk result (λ t. AreSame t (targets (commands_of cmds.now))) }
{
    let mut assigned = NameSet::new(alloc);
    add_targets(alloc, &mut assigned, cmds)?;
    Ok(assigned)
}

/// What a register stands for: itself, or its start if nothing assigns it.
fn register_operand(
    alloc: Global,
    assigned: &NameSet,
    register: &Var,
) -> Result<Operand, AllocError>
    ensures { IfOk result (λ o. o ≡ (register_entry assigned.now register.now).1.operand) }
{
    if assigned.has(&register.name) {
        let name = register.name.copy(alloc)?;
        Ok(Operand::Named(name))
    } else {
        Ok(Operand::Constant {
            width: register.width,
            value: register.start,
        })
    }
}

/// A register that is assigned stands for itself, another for its start.
fn add_registers(
    alloc: Global,
    entries: &mut Vec<(Name, Part)>,
    assigned: &NameSet,
    registers: &[Var],
) -> Result<(), AllocError>
    ensures { OnOk result (entries.new.items ≡ entries.old.items ++ map (register_entry assigned.now) registers.now) }
{
    for register in registers {
        let name = register.name.copy(alloc)?;
        let operand = register_operand(alloc, assigned, register)?;
        entries.push((
            name,
            Part {
                operand,
                width: register.width,
            },
        ))?;
    }
    Ok(())
}

/// Registers at first, as these commands assign them.
fn add_kept(
    alloc: Global,
    entries: &mut Vec<(Name, Part)>,
    cmds: &[GuardedCmd],
    registers: &[Var],
) -> Result<(), AllocError>
    ensures { OnOk result (entries.new.items ≡ entries.old.items ++ map (register_entry (targets (commands_of cmds.now))) registers.now) }
{
    let assigned = targets_of(alloc, cmds)?;
    add_registers(alloc, entries, &assigned, registers)
}

/// Wires stand for 0.
fn add_zeros(
    alloc: Global,
    entries: &mut Vec<(Name, Part)>,
    variables: &[Var],
) -> Result<(), AllocError>
    ensures { OnOk result (entries.new.items ≡ entries.old.items ++ map zero_entry variables.now) }
{
    for variable in variables {
        let name = variable.name.copy(alloc)?;
        let operand = Operand::Constant {
            width: variable.width,
            value: 0,
        };
        entries.push((
            name,
            Part {
                operand,
                width: variable.width,
            },
        ))?;
    }
    Ok(())
}

fn entry_list(
    alloc: Global,
    cmds: &[GuardedCmd],
    inputs: &[Var],
    registers: &[Var],
    wires: &[Var],
) -> Result<Vec<(Name, Part)>, AllocError>
    ensures { IfOk result (λ es. es.items ≡ map named_entry inputs.now ++ map (register_entry (targets (commands_of cmds.now))) registers.now ++ map zero_entry wires.now) }
{
    let mut made = Vec::new(alloc);
    add_named(alloc, &mut made, inputs)?;
    add_kept(alloc, &mut made, cmds, registers)?;
    add_zeros(alloc, &mut made, wires)?;
    Ok(made)
}

pub fn entries(alloc: Global, source: &Guarded) -> Result<Table<Part>, AllocError>
    ensures { IfOk result (λ es. es ≡ first_entries (source_of source.now)) }
{
    let made = entry_list(
        alloc,
        source.cmds(),
        source.inputs(),
        source.registers(),
        source.wires(),
    )?;
    Table::new(alloc, made)
}

fn port_list(alloc: Global, stores: &[MemoryVariable]) -> Result<Vec<(Name, WritePort)>, AllocError>
    ensures { IfOk result (λ ps. ps.items ≡ map first_port stores.now) }
{
    let mut made = Vec::new(alloc);
    for store in stores {
        let name = store.name.copy(alloc)?;
        let bits = bits_of(store.depth);
        made.push((
            name,
            WritePort {
                width: store.width,
                bits,
                enable: Operand::Constant { width: 1, value: 0 },
                index: Operand::Constant {
                    width: bits,
                    value: 0,
                },
                value: Operand::Constant {
                    width: store.width,
                    value: 0,
                },
            },
        ))?;
    }
    Ok(made)
}

pub fn ports(alloc: Global, stores: &[MemoryVariable]) -> Result<Table<WritePort>, AllocError>
    ensures { IfOk result (λ ps. ps ≡ map first_port stores.now) }
{
    let made = port_list(alloc, stores)?;
    Table::new(alloc, made)
}

fn shape_list(
    alloc: Global,
    stores: &[MemoryVariable],
) -> Result<Vec<(Name, (u32, u32))>, AllocError>
    ensures { IfOk result (λ ms. ms.items ≡ shapes_of stores.now) }
{
    let mut made = Vec::new(alloc);
    for store in stores {
        made.push((store.name.copy(alloc)?, (store.width, store.depth)))?;
    }
    Ok(made)
}

/// The width and depth of each memory.
pub fn shapes(alloc: Global, stores: &[MemoryVariable]) -> Result<Table<(u32, u32)>, AllocError>
    ensures { IfOk result (λ ms. ms ≡ shapes_of stores.now) }
{
    let made = shape_list(alloc, stores)?;
    Table::new(alloc, made)
}
