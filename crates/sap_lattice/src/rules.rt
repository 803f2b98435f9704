// The rules on the names and the pairs of a lattice.

ghost use Rattle.std.specs.Prelude.{◌≡◌, ◌≢◌, ◌<◌, ◌↔◌, ℕ, List, IsTrue, IfErr, OnOk, MatchOption, [], length, position, slice_index_or};
ghost use Rattle.std.specs.Str.{bytes_eq};
ghost use Rattle.sap_lattice.specs.Rules.{BadLevel, IsFirst, FirstBroken, KeepsNames};
ghost use Rattle.sap_lattice.specs.declared.pair.Pair.{Pair as PairOfNames};

use crate::MOST_LEVELS;
use crate::fault::LatFault;
use crate::name::{Name, is_unfit};

/// The place of a name among the names.
pub fn place_of(names: &[Name], name: &[u8]) -> Option<usize>
    ensures { result ≡ position (λ n. bytes_eq n name.now) names.now }
{
    names.iter().position(|n| n.as_bytes() == name)
}

/// Whether the name at this place stands earlier.
fn stands_earlier(names: &[Name], k: usize) -> bool
    requires { k < length names.now }
    ensures { IsTrue result
        ↔ ((j : ℕ) × (j < k) × (slice_index_or names.now j [] ≡ slice_index_or names.now k [])) }
{
    place_of(&names[..k], names[k].as_bytes()).is_some()
}

fn is_bad(names: &[Name], k: usize) -> bool
    requires { k < length names.now }
    ensures { IsTrue result ↔ BadLevel names.now k }
{
    is_unfit(names[k].as_bytes()) || stands_earlier(names, k)
}

/// The place of the first name that a level may not have.
fn first_bad(names: &[Name]) -> Option<usize>
    ensures { MatchOption result ((k : ℕ) → ¬ BadLevel names.now k) (λ k. IsFirst (BadLevel names.now) k) }
{
    for k in 0..names.len() {
        if is_bad(names, k) {
            return Some(k);
        }
    }
    None
}

/// Whether there are as many levels as a lattice may have, with names that they may have.
pub fn check_names(names: &[Name]) -> Result<(), LatFault>
    ensures kept { OnOk result (KeepsNames names.now) }
    ensures broken { IfErr result (λ fault. fault ≢ LatFault.Memory → (pairs : List PairOfNames) → FirstBroken names.now pairs fault) }
{
    let count = names.len();
    if count < 2 || count > MOST_LEVELS {
        return Err(LatFault::Count(count));
    }
    match first_bad(names) {
        Some(k) => Err(LatFault::Bad(k + 1)),
        None => Ok(()),
    }
}
