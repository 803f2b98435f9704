//! What explains the module of a design.

ghost use Rattle.std.specs.Prelude.{◌≡◌, ◌++◌, IfOk, OnOk};
ghost use Rattle.sap_check.specs.Checked.{levels_in, tree_in};
ghost use Rattle.sap_net.specs.Net.{Net};
ghost use Rattle.sap_vtext.specs.Modules.{IsModule};
ghost use Rattle.sap_explain.specs.Explained.{IsExplained};
ghost use Rattle.sap_explain.specs.Explanation.{design_comments, explanation};

use crate::group::{push_all_below, push_group};
use crate::laws::{comments_change_nothing, design_is_comments, levels_are_comments};
use crate::level::push_levels;
use crate::site::push_sites;
use sap_check::Checked;
use sap_desk::Bytes;
use std::alloc::{AllocError, Global};

/// Appends the lines of the groups and of the check sites of a design. In the module of a system it is a part of this name; an empty name stands for none.
pub(crate) fn push_design(
    out: &mut Vec<u8>,
    part: &[u8],
    checked: &Checked,
) -> Result<(), AllocError>
    ensures { OnOk result (out.new.items ≡ out.old.items ++ design_comments part.now (tree_in checked.now)) }
{
    let states = checked.design().states.as_slice();
    push_group(out, part, b"0", states)?;
    push_all_below(out, part, states)?;
    push_sites(out, part, checked)
}

/// The text of a design's module behind the lines that explain it.
pub fn explained(alloc: Global, checked: &Checked, plain: &Bytes) -> Result<Bytes, AllocError>
    ensures text { IfOk result (λ text. text ≡ explanation (levels_in checked.now) (tree_in checked.now) ++ plain.now) }
    ensures module { IfOk result (λ text. (net : Net) → IsModule plain.now net → IsExplained (explanation (levels_in checked.now) (tree_in checked.now)) text net) }
{
    comments_change_nothing();
    levels_are_comments(checked.lattice());
    design_is_comments(b"", checked);
    let mut out = Vec::new(alloc);
    push_levels(&mut out, checked.lattice())?;
    push_design(&mut out, b"", checked)?;
    out.extend_from_slice(plain.as_slice())?;
    Ok(Bytes::new(out))
}
