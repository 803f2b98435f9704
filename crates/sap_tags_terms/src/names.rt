//! Names of a plain program, by what they name.

ghost use Rattle.std.specs.Prelude.{◌≡◌, ◌≤◌, ◌++◌, true, IfOk, length};
ghost use Rattle.std.specs.List.{list_all};
ghost use Rattle.sap_text.specs.Names.{is_inner};
ghost use Rattle.sap_tagged.specs.Keys.{value_key, tag_key, seat_key, refused_key, level_key, wire_key, first_key, inner_key, numeral, entity_word, key_name};
ghost use Rattle.sap_tags_terms.specs.Code.{named_in};

use crate::setting::Setting;
use sap_net::parts::Name;
use std::alloc::{AllocError, Global};

/// A prefix and a number.
#[tactic(auto, using(crate::proofs::Words::words))]
fn numbered(front: &str, k: u64) -> Name
    requires inner { list_all is_inner front.now ≡ true }
    requires short { length front.now ≤ 2 }
    ensures { result ≡ front.now ++ numeral k }
{
    Name::numbered(front, k)
}

/// A prefix and the name of an entity, or its number past the last.
#[tactic(auto, using(crate::proofs::Words::words))]
fn entity_name(
    alloc: Global,
    setting: &Setting<'_>,
    front: &str,
    x: usize,
) -> Result<Name, AllocError>
    requires inner { list_all is_inner front.now ≡ true }
    requires short { length front.now ≤ 2 }
    ensures { IfOk result (λ n. n ≡ front.now ++ entity_word (named_in setting.now) x) }
{
    match setting.program.entities.get(x) {
        Some(entity) => Name::fronted(alloc, front, &entity.name),
        None => Ok(numbered(front, x as u64)),
    }
}

/// The name of a state in nested programs.
pub fn state_name(alloc: Global, setting: &Setting<'_>, x: usize) -> Result<Name, AllocError>
    ensures { IfOk result (λ n. n ≡ entity_word (named_in setting.now) x) }
{
    entity_name(alloc, setting, "", x)
}

/// The number of an input or a register, or the contents of a memory.
pub fn value_name(alloc: Global, setting: &Setting<'_>, x: usize) -> Result<Name, AllocError>
    ensures { IfOk result (λ n. n ≡ key_name (named_in setting.now) (value_key x)) }
{
    entity_name(alloc, setting, "v_", x)
}

/// The tag of an entity.
pub fn tag_name(alloc: Global, setting: &Setting<'_>, x: usize) -> Result<Name, AllocError>
    ensures { IfOk result (λ n. n ≡ key_name (named_in setting.now) (tag_key x)) }
{
    entity_name(alloc, setting, "t_", x)
}

/// The current child of a state, or of the root.
#[tactic(auto, using(crate::proofs::Words::words))]
pub fn seat_name(alloc: Global, setting: &Setting<'_>, x: usize) -> Result<Name, AllocError>
    ensures { IfOk result (λ n. n ≡ key_name (named_in setting.now) (seat_key x)) }
{
    if x == setting.program.entities.len() {
        Name::spelled(alloc, b"s_0")
    } else {
        entity_name(alloc, setting, "s_", x)
    }
}

/// Whether a site is refused.
pub fn refused_name(setting: &Setting<'_>, site: u32) -> Name
    ensures { result ≡ key_name (named_in setting.now) (refused_key site) }
{
    numbered("c_", u64::from(site))
}

/// At which level a site is refused.
pub fn refused_level_name(setting: &Setting<'_>, site: u32) -> Name
    ensures { result ≡ key_name (named_in setting.now) (level_key site) }
{
    numbered("l_", u64::from(site))
}

/// A wire of the program's own.
pub fn wire_name(setting: &Setting<'_>, wire: u32) -> Name
    ensures { result ≡ key_name (named_in setting.now) (wire_key wire) }
{
    numbered("h", u64::from(wire))
}

/// The tag of a dynamic memory as the cycle began.
pub fn first_name(setting: &Setting<'_>, x: usize) -> Name
    ensures { result ≡ key_name (named_in setting.now) (first_key x) }
{
    numbered("b", x as u64)
}

/// The context of the children of a state.
pub fn inner_name(setting: &Setting<'_>, x: usize) -> Name
    ensures { result ≡ key_name (named_in setting.now) (inner_key x) }
{
    numbered("u", x as u64)
}
