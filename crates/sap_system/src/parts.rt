// The rules on the parts of a system.

ghost use Rattle.std.specs.Prelude.{◌≡◌, ◌<◌, ◌↔◌, ℕ, IsTrue, IfErr, OnOk, MatchOption, length};
ghost use Rattle.std.specs.List.{list_any};
ghost use Rattle.std.specs.Str.{bytes_eq};
ghost use Rattle.sap_lattice.specs.Rules.{IsFirst};
ghost use Rattle.sap_system.specs.Rules.{BadPart, FirstBroken, KeepsParts};

use crate::MOST_PARTS;
use crate::fault::{SysCode, SysFault};
use crate::file::Part;
use crate::names::is_unfit;

/// Whether one of the parts has this name.
fn is_named(parts: &[Part], name: &[u8]) -> bool
    ensures { result ≡ list_any (λ p. bytes_eq p.name name.now) parts.now }
{
    parts.iter().any(|part| part.name.as_bytes() == name)
}

fn is_bad(parts: &[Part], k: usize) -> bool
    requires { k < length parts.now }
    ensures { IsTrue result ↔ BadPart parts.now k }
{
    let name = parts[k].name.as_bytes();
    is_unfit(name) || is_named(&parts[..k], name)
}

/// The place of the first part with a name that no part may have there.
fn first_bad(parts: &[Part]) -> Option<usize>
    ensures { MatchOption result ((k : ℕ) → ¬ BadPart parts.now k) (λ k. IsFirst (BadPart parts.now) k) }
{
    for k in 0..parts.len() {
        if is_bad(parts, k) {
            return Some(k);
        }
    }
    None
}

/// Whether there are as many parts as a system may have, with names that they may have.
pub fn check_parts(parts: &[Part]) -> Result<(), SysFault>
    ensures kept { OnOk result (KeepsParts parts.now) }
    ensures broken { IfErr result (λ fault. FirstBroken parts.now fault) }
{
    let count = parts.len();
    if count < 1 || count > MOST_PARTS {
        return Err(SysFault::Rule(SysCode::K3, count));
    }
    match first_bad(parts) {
        Some(k) => Err(SysFault::Rule(SysCode::K4, k + 1)),
        None => Ok(()),
    }
}
