//! What is declared of an entity.

ghost use Rattle.std.specs.Prelude.{◌≡◌};
ghost use Rattle.sap_tagged.specs.Plain.{has_own_tag, level_at_start};
ghost use Rattle.sap_tagged.specs.States.{saved};
ghost use Rattle.sap_tags_terms.specs.Code.{named_in, world_in};

use crate::setting::Setting;

/// Whether an entity is a dynamic memory.
pub fn is_saved(setting: &Setting<'_>, x: usize) -> bool
    ensures { result ≡ saved (world_in setting.now) x }
{
    setting.program.is_memory(x) && setting.program.is_dynamic(x)
}

/// Whether an entity that is no port has a tag of its own: a state, or a dynamic memory.
pub fn has_tag(setting: &Setting<'_>, x: usize) -> bool
    ensures { result ≡ has_own_tag (named_in setting.now) x }
{
    if setting.program.is_memory(x) {
        setting.program.is_dynamic(x)
    } else {
        setting.program.is_state(x)
    }
}

/// The code of the level that an entity starts with.
pub fn first_code(setting: &Setting<'_>, x: usize) -> u64
    ensures { result ≡ level_at_start (named_in setting.now) x }
{
    let level = setting.program.first_level(setting.lattice, x);
    setting.lattice.code(level)
}
