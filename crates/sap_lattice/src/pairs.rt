// From names and pairs to the order that they give.

ghost use Rattle.std.specs.Prelude.{◌≢◌, ◌<◌, IfOk, IfErr, OnOk, MatchOption, length};
ghost use Rattle.sap_lattice.specs.Related.{ArePlaces, IsUnknown, TellsPairs, TellsOrder};
ghost use Rattle.sap_lattice.specs.Rules.{FirstBroken, KeepsNames, KeepsPairs};

use crate::fault::LatFault;
use crate::name::Name;
use crate::pair::Pair;
use crate::relation::Relation;
use crate::rules::place_of;
use std::alloc::Global;

/// The places of a pair's names.
fn places_of(names: &[Name], pair: &Pair) -> Option<(usize, usize)>
    ensures { MatchOption result (IsUnknown names.now pair.now) (λ p. ArePlaces names.now pair.now p.0 p.1) }
{
    let lower = place_of(names, pair.lower.as_bytes())?;
    let upper = place_of(names, pair.upper.as_bytes())?;
    Some((lower, upper))
}

/// Relates the levels of each pair, unless a pair has a name that is no level.
fn relate_pairs(names: &[Name], pairs: &[Pair], order: &mut Relation) -> Result<(), LatFault>
    requires names { KeepsNames names.now }
    requires equality { TellsPairs names.now pairs.now 0 order.old }
    ensures all { OnOk result (TellsPairs names.now pairs.now (length pairs.now) order.new) }
    ensures broken { IfErr result (λ fault. fault ≢ LatFault.Memory → FirstBroken names.now pairs.now fault) }
{
    for (k, pair) in pairs.iter().enumerate() {
        match places_of(names, pair) {
            Some((lower, upper)) => order.relate(lower, upper),
            None => return Err(LatFault::UnknownPair(k + 1)),
        }
    }
    Ok(())
}

/// The order that the pairs give to levels of these names.
pub fn order_of(alloc: Global, names: &[Name], pairs: &[Pair]) -> Result<Relation, LatFault>
    requires { KeepsNames names.now }
    ensures known { OnOk result (KeepsPairs names.now pairs.now) }
    ensures order { IfOk result (λ rows. TellsOrder names.now pairs.now rows) }
    ensures broken { IfErr result (λ fault. fault ≢ LatFault.Memory → FirstBroken names.now pairs.now fault) }
{
    let mut order = Relation::equality(alloc, names.len())?;
    relate_pairs(names, pairs, &mut order)?;
    order.close();
    Ok(order)
}
