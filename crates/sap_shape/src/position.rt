//! Where a body stands.

ghost use Rattle.std.specs.Prelude.{◌≡◌};
ghost use Rattle.sap_shape.specs.Positions.{body_of};
ghost use Rattle.sap_shape.specs.ShapeFaults as shape;
ghost use Rattle.sap_tree.specs.Trees.{states_of};

use crate::place::Position;
use sap_tree::name::Name;
use sap_tree::syntax::State;

/// Whether a state of the group has this name.
pub(crate) fn is_among(group: &[State], name: &Name) -> bool
    ensures { result ≡ shape.is_among (states_of group.now) name.now }
{
    group.iter().any(|state| state.name.name.same(name))
}

// Whether one of the states, or one below them, has this name.
#[tactic(auto, using(crate::proofs::Members::pasts))]
fn is_in_group(states: &[State], name: &Name) -> bool
    ensures { result ≡ shape.is_in_group (states_of states.now) name.now }
{
    for state in states {
        if state.name.name.same(name) {
            return true;
        }
        if is_in_group(state.children.as_slice(), name) {
            return true;
        }
    }
    false
}

pub(crate) fn is_in(names: &[Name], name: &Name) -> bool
    ensures { result ≡ shape.is_in names.now name.now }
{
    names.iter().any(|other| other.same(name))
}

/// Whether there are no states.
#[tactic(auto, using(crate::proofs::Members::leaves))]
pub(crate) fn is_leaf(states: &[State]) -> bool
    ensures { result ≡ shape.is_leaf (states_of states.now) }
{
    states.is_empty()
}

/// Whether the name is that of the body's state, of one above it or of one below it.
pub(crate) fn is_comparable(position: &Position<'_>, name: &Name) -> bool
    ensures { result ≡ shape.is_comparable (body_of position.now) name.now }
{
    position.name.same(name) || is_in(position.above, name) || is_in_group(position.children, name)
}
