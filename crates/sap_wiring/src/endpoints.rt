// The entities that the texts of a wire name.

ghost use Rattle.std.specs.Prelude.{◌≡◌, ℕ, List, MatchOption, position, bytes_eq};
ghost use Rattle.sap_names.specs.declared.kind.Declared.{Declared as AnyDeclared};
ghost use Rattle.sap_names.specs.declared.kind.Declared.TheVariants.{Register, Input};
ghost use Rattle.sap_system.specs.Wires as wires;
ghost use Rattle.sap_system.specs.Wires.{NoInput, NoRegister, NoLevel};
ghost use Rattle.sap_wiring.specs.Wiring.{IsEndpoint, IsLevelOf, PartsNamed, seen};

use crate::surroundings::{PartNames, Surroundings};
use crate::wire::Endpoint;
use sap_lattice::level::Level;
use sap_names::kind::Declared;
use sap_system::WireText;

/// An end of a wire: the register or the input that a text names, and its width.
#[derive(Clone, Copy, Drop)]
pub struct End {
    pub endpoint: Endpoint,
    pub width: u64,
}

/// The number of the part of this name.
fn part_named(parts: &[PartNames<'_>], name: &[u8]) -> Option<usize>
    ensures { result ≡ position (λ p. bytes_eq p.name.now name.now) parts.now }
{
    parts.iter().position(|part| part.name.as_bytes() == name)
}

/// The entity that a text of the form P.X names, and what is declared of it.
fn named(around: &Surroundings<'_>, text: &str) -> Option<(Endpoint, Declared)>
    requires { PartsNamed (seen around.now) }
    ensures { MatchOption result
        ((i : ℕ) (entity : List ℕ) (declared : AnyDeclared) → ¬ wires.Names (seen around.now) text.now i entity declared)
        (λ r. IsEndpoint (seen around.now) text.now r.1 r.0) }
{
    let (part_name, entity_name) = text.split_once('.')?;
    let part = part_named(around.parts, part_name.as_bytes())?;
    let names = around.parts[part].names;
    let entity = names.find(entity_name)?;
    Some((Endpoint::new(part, entity), names.entity(entity).what))
}

/// The register that a wire leads from, and its width.
pub fn source(around: &Surroundings<'_>, text: &WireText) -> Option<End>
    requires { PartsNamed (seen around.now) }
    ensures { MatchOption result (NoRegister (seen around.now) text.now) (λ r. IsEndpoint (seen around.now) text.now.from (Register r.width) r.endpoint) }
{
    let (endpoint, declared) = named(around, text.from.as_str())?;
    match declared {
        Declared::Register(width) => Some(End { endpoint, width }),
        _ => None,
    }
}

/// The input that a wire leads to, and its width.
pub fn target(around: &Surroundings<'_>, text: &WireText) -> Option<End>
    requires { PartsNamed (seen around.now) }
    ensures { MatchOption result (NoInput (seen around.now) text.now) (λ r. IsEndpoint (seen around.now) text.now.to (Input r.width) r.endpoint) }
{
    let (endpoint, declared) = named(around, text.to.as_str())?;
    match declared {
        Declared::Input(width) => Some(End { endpoint, width }),
        _ => None,
    }
}

/// The level that a wire leads through, if it has a third text.
pub fn level_of(around: &Surroundings<'_>, text: &WireText) -> Option<Option<Level>>
    ensures { MatchOption result (NoLevel (seen around.now) text.now) (λ level. IsLevelOf (seen around.now) text.now.level level) }
{
    match &text.level {
        None => Some(None),
        Some(name) => {
            let level = around.lattice.level_named(name.as_bytes())?;
            Some(Some(level))
        }
    }
}
