//! What a check site does, as a text.

ghost use Rattle.std.specs.Prelude.{◌≡◌, ◌<◌, ◌≤◌, ◌+◌, ◌++◌, OnErr, OnOk, length, vec_capacity};
ghost use Rattle.sap_check.specs.Checked.{tree_in};
ghost use Rattle.sap_check.specs.SiteTexts.{entity_name, site_target, site_word};
ghost use Rattle.sap_names.specs.Entities.{entities_of};

use crate::checked::Checked;
use crate::site::{Site, SiteKind};
use std::alloc::AllocError;

fn word(kind: SiteKind) -> &'static [u8]
    ensures { result.now ≡ site_word kind }
{
    match kind {
        SiteKind::Write => b"write",
        SiteKind::SetTag => b"setTag",
        SiteKind::Goto => b"goto",
        SiteKind::Fall => b"fall",
    }
}

/// Appends the name of an entity. It takes no memory where there is room for it.
pub fn push_entity(out: &mut Vec<u8>, checked: &Checked, entity: u32) -> Result<(), AllocError>
    requires { entity < length (entities_of (tree_in checked.now)) }
    ensures text { OnOk result (out.new.items ≡ out.old.items ++ entity_name (entities_of (tree_in checked.now)) entity) }
    ensures room { vec_capacity out.old ≤ vec_capacity out.new }
    ensures full { OnErr result (vec_capacity out.old < length out.old.items + length (entity_name (entities_of (tree_in checked.now)) entity)) }
{
    out.extend_from_slice(checked.entity(entity).as_bytes())
}

/// Appends what a site does, and the name of its entity. It takes no memory where there is room for them.
#[tactic(auto, unfolding(crate::specs::SiteTexts::site_target))]
pub fn push_target(out: &mut Vec<u8>, checked: &Checked, site: &Site) -> Result<(), AllocError>
    requires { site.now.entity < length (entities_of (tree_in checked.now)) }
    ensures text { OnOk result (out.new.items ≡ out.old.items ++ site_target (entities_of (tree_in checked.now)) site.now) }
    ensures room { vec_capacity out.old ≤ vec_capacity out.new }
    ensures full { OnErr result (vec_capacity out.old < length out.old.items + length (site_target (entities_of (tree_in checked.now)) site.now)) }
{
    out.extend_from_slice(word(site.kind))?;
    out.extend_from_slice(b" ")?;
    push_entity(out, checked, site.entity)
}
