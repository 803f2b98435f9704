//! The lines of check sites.

ghost use Rattle.std.specs.Prelude.{◌≡◌, ◌<◌, ◌++◌, OnOk, codes, length};
ghost use Rattle.sap_check.specs.Checked.{tree_in};
ghost use Rattle.sap_check.specs.Sites.{sites_of};
ghost use Rattle.sap_names.specs.Entities.{entities_of};
ghost use Rattle.sap_net.specs.PortNames.{refused_name};
ghost use Rattle.sap_text.specs.Places.{place_text};
ghost use Rattle.sap_explain.specs.Explanation.{name_in, site_comment, site_comments};

use crate::name::push_name;
use sap_check::Checked;
use sap_check::site::Site;
use sap_check::site_text::push_target;
use sap_text::digits::{Digits, push_number};
use sap_tree::place::Place;
use std::alloc::AllocError;

fn push_head(out: &mut Vec<u8>, part: &[u8], k: u32) -> Result<(), AllocError>
    ensures { OnOk result (out.new.items ≡ out.old.items ++ (codes "// " ++ name_in part.now (refused_name k))) }
{
    let number = Digits::new(u64::from(k));
    out.extend_from_slice(b"// ")?;
    push_name(out, part, b"c_", number.as_bytes())
}

fn push_place(out: &mut Vec<u8>, at: Place) -> Result<(), AllocError>
    ensures { OnOk result (out.new.items ≡ out.old.items ++ (codes ": " ++ (place_text at ++ codes " "))) }
{
    out.extend_from_slice(b": ")?;
    push_number(out, at.line)?;
    out.extend_from_slice(b":")?;
    push_number(out, at.column)?;
    out.extend_from_slice(b" ")
}

fn push_site(
    out: &mut Vec<u8>,
    part: &[u8],
    checked: &Checked,
    k: u32,
    site: &Site,
) -> Result<(), AllocError>
    requires { site.now.entity < length (entities_of (tree_in checked.now)) }
    ensures { OnOk result (out.new.items ≡ out.old.items ++ site_comment part.now (entities_of (tree_in checked.now)) k site.now) }
{
    push_head(out, part, k)?;
    push_place(out, site.place)?;
    push_target(out, checked, site)?;
    out.extend_from_slice(b"\n")
}

/// Appends the lines of the check sites.
pub(crate) fn push_sites(
    out: &mut Vec<u8>,
    part: &[u8],
    checked: &Checked,
) -> Result<(), AllocError>
    ensures { OnOk result (out.new.items ≡ out.old.items ++ site_comments part.now (entities_of (tree_in checked.now)) 1 (sites_of (tree_in checked.now))) }
{
    for place in 0..checked.site_count() {
        let k = place + 1;
        push_site(out, part, checked, k, checked.site(k))?;
    }
    Ok(())
}
