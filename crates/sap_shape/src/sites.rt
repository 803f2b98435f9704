//! Which commands are check sites.

ghost use Rattle.std.specs.Prelude.{◌≡◌};
ghost use Rattle.sap_shape.specs.Sites as sites;
ghost use Rattle.sap_tree.specs.Trees.{simple_of, states_of};

use sap_names::table::Names;
use sap_tree::syntax::{Kind, Simple, State};

fn any_enforced(states: &[State]) -> bool
    ensures { result ≡ sites.any_enforced (states_of states.now) }
{
    states.iter().any(|state| !state.kind.is_dynamic())
}

/// Whether a command in the body of a state of this kind with these children may be refused.
pub fn is_site(names: &Names, kind: &Kind, children: &[State], command: &Simple) -> bool
    ensures { result ≡ sites.is_site names.now kind.now (states_of children.now) (simple_of command.now) }
{
    match command {
        Simple::Assign(target, _) => names.is_enforced(&target.name),
        Simple::Write(target, _, _) => names.is_enforced(&target.name),
        Simple::SetTag(_, _, _) => true,
        Simple::SetCellTag(_, _, _, _) => true,
        Simple::Goto(_, target) => !kind.is_dynamic() || names.is_enforced(&target.name),
        Simple::Fall(_) => any_enforced(children),
    }
}
