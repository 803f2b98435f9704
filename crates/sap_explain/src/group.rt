//! The lines of groups of states.

ghost use Rattle.std.specs.Prelude.{◌≡◌, ◌++◌, OnOk};
ghost use Rattle.sap_net.specs.PortNames.{seat_name};
ghost use Rattle.sap_shape.specs.ShapeFaults.{name_of};
ghost use Rattle.sap_tree.specs.Trees.{state_of, states_of};
ghost use Rattle.sap_explain.specs.Explanation.{name_in, before_child, child_text, children_text, group_line, group_text, groups_below, groups_below_all};

use crate::name::push_name;
use sap_text::digits::push_number;
use sap_tree::syntax::State;
use std::alloc::AllocError;

fn before(n: u64) -> &'static [u8]
    ensures { result.now ≡ before_child n }
{
    if n == 0 { b" " } else { b", " }
}

#[tactic(auto, using(crate::proofs::GroupLines::names))]
fn push_child(out: &mut Vec<u8>, n: u64, child: &State) -> Result<(), AllocError>
    ensures { OnOk result (out.new.items ≡ out.old.items ++ child_text n (name_of (state_of child.now))) }
{
    out.extend_from_slice(before(n))?;
    push_number(out, n)?;
    out.extend_from_slice(b" ")?;
    out.extend_from_slice(child.name.name.as_bytes())
}

fn push_children(out: &mut Vec<u8>, children: &[State]) -> Result<(), AllocError>
    ensures { OnOk result (out.new.items ≡ out.old.items ++ children_text 0 (states_of children.now)) }
{
    for (n, child) in children.iter().enumerate() {
        push_child(out, n as u64, child)?;
    }
    Ok(())
}

fn push_line(
    out: &mut Vec<u8>,
    part: &[u8],
    owner: &[u8],
    children: &[State],
) -> Result<(), AllocError>
    ensures { OnOk result (out.new.items ≡ out.old.items ++ group_line (name_in part.now (seat_name owner.now)) (states_of children.now)) }
{
    out.extend_from_slice(b"// ")?;
    push_name(out, part, b"s_", owner)?;
    out.extend_from_slice(b":")?;
    push_children(out, children)?;
    out.extend_from_slice(b"\n")
}

/// Appends the line of a group, where it has states.
#[tactic(auto, using(crate::proofs::GroupLines::groups))]
pub(crate) fn push_group(
    out: &mut Vec<u8>,
    part: &[u8],
    owner: &[u8],
    children: &[State],
) -> Result<(), AllocError>
    ensures { OnOk result (out.new.items ≡ out.old.items ++ group_text (name_in part.now (seat_name owner.now)) (states_of children.now)) }
{
    if children.is_empty() {
        Ok(())
    } else {
        push_line(out, part, owner, children)
    }
}

#[cycle(groups)]
#[tactic(auto, using(crate::proofs::GroupLines::below))]
fn push_below(out: &mut Vec<u8>, part: &[u8], state: &State) -> Result<(), AllocError>
    ensures { OnOk result (out.new.items ≡ out.old.items ++ groups_below part.now (state_of state.now)) }
{
    push_group(
        out,
        part,
        state.name.name.as_bytes(),
        state.children.as_slice(),
    )?;
    push_all_below(out, part, state.children.as_slice())
}

/// Appends the lines of the groups below states.
#[cycle(groups)]
pub(crate) fn push_all_below(
    out: &mut Vec<u8>,
    part: &[u8],
    states: &[State],
) -> Result<(), AllocError>
    ensures { OnOk result (out.new.items ≡ out.old.items ++ groups_below_all part.now (states_of states.now)) }
{
    for one in states {
        push_below(out, part, one)?;
    }
    Ok(())
}
