//! The wires of what the tags of memories take, and these tags.

ghost use Rattle.std.specs.Prelude.{◌≡◌, ◌+◌, ℕ, ◌∷◌, [], IfOk, OnOk};
ghost use Rattle.sap_net.specs.Net.{Net};
ghost use Rattle.sap_build.specs.Writing.{grown};
ghost use Rattle.sap_taint_pass.specs.Tainted as spec;
ghost use Rattle.sap_taint_pass.specs.Helping.{helping_name};
ghost use Rattle.sap_taint_pass.specs.Helped.{Helped, Adds, AreWriteNames};

use crate::joins::{joint, union};
use crate::names::tag_name;
use sap_build::writer::Writer;
use sap_net::parts::{Memory, Name, Operand, Register, Right, Wire};
use std::alloc::{AllocError, Global};

/// The names of a memory's four wires.
#[derive(Drop)]
struct WriteNames {
    kept: Name,
    new: Name,
    chosen: Name,
    all: Name,
}

fn write_names(alloc: Global, writer: &mut Writer) -> Result<WriteNames, AllocError>
    ensures names { IfOk result (λ names. (n : Net) (k : ℕ) → Helped n k writer.old → AreWriteNames (helping_name n) k names.kept names.new names.chosen names.all) }
    ensures declared { OnOk result ((n : Net) (k : ℕ) → Helped n k writer.old → Adds n k 4 [] [] writer.old writer.new) }
{
    let kept = writer.helper(alloc)?;
    let new = writer.helper(alloc)?;
    let chosen = writer.helper(alloc)?;
    let all = writer.helper(alloc)?;
    Ok(WriteNames {
        kept,
        new,
        chosen,
        all,
    })
}

/// The tag of a memory, which takes the last of its wires.
fn memory_tag(
    alloc: Global,
    width: u32,
    memory: &Memory,
    next: &Name,
) -> Result<Register, AllocError>
    ensures { IfOk result (λ r. r ≡ spec.memory_tag width memory.now next.now) }
{
    Ok(Register {
        name: tag_name(alloc, &memory.name)?,
        width,
        start: 0,
        next: Operand::Named(next.copy(alloc)?),
    })
}

/// The four wires of a memory.
fn add_write(
    alloc: Global,
    writer: &mut Writer,
    width: u32,
    memory: &Memory,
    names: WriteNames,
) -> Result<(), AllocError>
    ensures { OnOk result (writer.new ≡ grown [] (spec.write_by width memory.now names.kept names.new names.chosen names.all) [] writer.old) }
{
    let itself = Operand::Named(memory.name.copy(alloc)?);
    let kept = names.kept.copy(alloc)?;
    let right = joint(alloc, width, &itself, &memory.enable)?;
    writer.assign(Wire {
        name: kept,
        width,
        right,
    })?;
    let new = names.new.copy(alloc)?;
    let right = joint(alloc, width, &memory.index, &memory.value)?;
    writer.assign(Wire {
        name: new,
        width,
        right,
    })?;
    let chosen = names.chosen.copy(alloc)?;
    let condition = memory.enable.copy(alloc)?;
    let none = Operand::Constant { width, value: 0 };
    writer.assign(Wire {
        name: chosen,
        width,
        right: Right::Choose(condition, Operand::Named(names.new), none),
    })?;
    writer.assign(union(names.all, width, names.kept, names.chosen))?;
    Ok(())
}

/// The wires and the tag of a memory.
fn add_memory(
    alloc: Global,
    writer: &mut Writer,
    width: u32,
    memory: &Memory,
) -> Result<(), AllocError>
    ensures { OnOk result ((n : Net) (k : ℕ) → Helped n k writer.old
        → Adds n k 4 (spec.write_at (helping_name n) width k memory.now) (spec.memory_tag width memory.now (helping_name n (k + 3)) ∷ []) writer.old writer.new) }
{
    let names = write_names(alloc, writer)?;
    writer.register(memory_tag(alloc, width, memory, &names.all)?)?;
    add_write(alloc, writer, width, memory, names)?;
    Ok(())
}

/// The wires of what the tags of memories take, behind others, and these tags.
pub(crate) fn add_memories(
    alloc: Global,
    writer: &mut Writer,
    width: u32,
    memories: &[Memory],
) -> Result<(), AllocError>
    ensures { OnOk result ((n : Net) (k : ℕ) → Helped n k writer.old
        → Adds n k (spec.help_for_writes memories.now) (spec.write_wires (helping_name n) width k memories.now) (spec.memory_tags (helping_name n) width k memories.now)
        writer.old writer.new) }
{
    for memory in memories {
        add_memory(alloc, writer, width, memory)?;
    }
    Ok(())
}
