//! The lines of check sites.

ghost use Rattle.std.specs.Prelude.{◌≡◌, ◌<◌, ◌++◌, OnOk, length};
ghost use Rattle.sap_check.specs.Checked.{tree_in};
ghost use Rattle.sap_check.specs.Sites.{sites_of};
ghost use Rattle.sap_names.specs.Entities.{entities_of};
ghost use Rattle.sap_report.specs.Report.{site_head, site_line, site_lines};

use crate::text::place;
use sap_check::Checked;
use sap_check::site::Site;
use sap_check::site_text::push_target;
use sap_text::digits::push_number;
use sap_tree::place::Place;
use std::alloc::AllocError;

#[tactic(auto, unfolding(crate::specs::Report::site_head))]
fn push_head(out: &mut Vec<u8>, k: u32, at: Place) -> Result<(), AllocError>
    ensures { OnOk result (out.new.items ≡ out.old.items ++ site_head k at) }
{
    out.extend_from_slice(b"site ")?;
    push_number(out, u64::from(k))?;
    out.extend_from_slice(b" ")?;
    place(out, at)?;
    out.extend_from_slice(b" ")
}

fn push_site(out: &mut Vec<u8>, checked: &Checked, k: u32, site: &Site) -> Result<(), AllocError>
    requires { site.now.entity < length (entities_of (tree_in checked.now)) }
    ensures { OnOk result (out.new.items ≡ out.old.items ++ site_line (entities_of (tree_in checked.now)) k site.now) }
{
    push_head(out, k, site.place)?;
    push_target(out, checked, site)?;
    out.extend_from_slice(b"\n")
}

/// Appends the lines of the check sites.
pub(crate) fn push_sites(out: &mut Vec<u8>, checked: &Checked) -> Result<(), AllocError>
    ensures { OnOk result (out.new.items ≡ out.old.items ++ site_lines (entities_of (tree_in checked.now)) 1 (sites_of (tree_in checked.now))) }
{
    for place in 0..checked.site_count() {
        let k = place + 1;
        push_site(out, checked, k, checked.site(k))?;
    }
    Ok(())
}
