//! Memories.

ghost use Rattle.std.specs.Prelude.{◌≡◌, ◌++◌, ◌∷◌, OnOk, true};
ghost use Rattle.sap_meaning.specs.Program as program;
ghost use Rattle.sap_resolved.specs.Sized.Ranges.{RangedProgram};
ghost use Rattle.sap_tagged.specs.Plain.{memories_of, memory_of, tags_of};
ghost use Rattle.sap_tags_terms.specs.Code.{named_in, tag_width, world_in};

use sap_ir::guarded::MemoryVariable;
use sap_tags_terms::entities::first_code;
use sap_tags_terms::names::{tag_name, value_name};
use sap_tags_terms::setting::Setting;
use std::alloc::{AllocError, Global};

/// A memory, and behind it that of its cells' tags where it is enforced.
fn add_memory(
    alloc: Global,
    setting: &Setting<'_>,
    memories: &mut Vec<MemoryVariable>,
    m: usize,
) -> Result<(), AllocError>
    requires ranged { RangedProgram (named_in setting.now).program }
    requires memory { program.is_memory (world_in setting.now) m ≡ true }
    ensures { OnOk result (memories.new.items ≡ memories.old.items ++ (memory_of (named_in setting.now) m ∷ tags_of (named_in setting.now) (tag_width setting.now) m)) }
{
    let depth = setting.program.depth(m) as u32;
    memories.push(MemoryVariable {
        name: value_name(alloc, setting, m)?,
        width: setting.program.width(m) as u32,
        depth,
        start: 0,
    })?;
    if !setting.program.is_dynamic(m) {
        memories.push(MemoryVariable {
            name: tag_name(alloc, setting, m)?,
            width: setting.lattice.width(),
            depth,
            start: first_code(setting, m),
        })?;
    }
    Ok(())
}

/// All memories, and those of the tags of enforced ones.
pub fn add_memories(
    alloc: Global,
    setting: &Setting<'_>,
    memories: &mut Vec<MemoryVariable>,
) -> Result<(), AllocError>
    requires { RangedProgram (named_in setting.now).program }
    ensures { OnOk result (memories.new.items ≡ memories.old.items ++ memories_of (named_in setting.now) (tag_width setting.now)) }
{
    for m in 0..setting.program.entities.len() {
        if setting.program.is_memory(m) {
            add_memory(alloc, setting, memories, m)?;
        }
    }
    Ok(())
}
