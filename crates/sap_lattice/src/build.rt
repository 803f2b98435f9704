// From names and pairs to a lattice.

ghost use Rattle.std.specs.Prelude.{◌≡◌, ◌≢◌, ◌⊎◌, ℕ, List, IfErr, IfOk, IsErrOf, IsOkUnless, OnOk, length};
ghost use Rattle.sap_lattice.specs.Built.{IsLatticeOf};
ghost use Rattle.sap_lattice.specs.Pairs.{IsBroken};
ghost use Rattle.sap_lattice.specs.Related.{TellsOrder};
ghost use Rattle.sap_lattice.specs.Rows.{order_in};
ghost use Rattle.sap_lattice.specs.Rules.{FirstBroken, KeepsAll, KeepsApart, KeepsPairs};
ghost use Rattle.sap_lattice.specs.declared.fault.LatFault.{LatFault as AnyFault};
ghost use Rattle.sap_lattice.specs.declared.order.PairRule.TheVariants.{Apart, Joined};
ghost use Rattle.sap_lattice.specs.declared.pair.Pair.{Pair as PairOfNames};

use crate::fault::LatFault;
use crate::lattice::Lattice;
use crate::name::Name;
use crate::order::{PairRule, first_broken, least};
use crate::pair::Pair;
use crate::pairs::order_of;
use crate::relation::Relation;
use crate::rules::check_names;
use std::alloc::Global;

/// Refuses an order of these names in which two levels break the rule, with the names of the first two.
fn check_pairs(
    alloc: Global,
    names: &[Name],
    order: &Relation,
    rule: PairRule,
) -> Result<(), LatFault>
    requires { length order.now ≡ length names.now }
    ensures kept { OnOk result ((x y : ℕ) → ¬ IsBroken (length order.now) (order_in order.now).le rule x y) }
    ensures cycle { IfErr result (λ fault. fault ≢ LatFault.Memory → rule ≡ Apart
        → (pairs : List PairOfNames) → TellsOrder names.now pairs order.now → KeepsPairs names.now pairs → FirstBroken names.now pairs fault) }
    ensures joinless { IfErr result (λ fault. fault ≢ LatFault.Memory → rule ≡ Joined
        → (pairs : List PairOfNames) → TellsOrder names.now pairs order.now → KeepsApart names.now pairs → FirstBroken names.now pairs fault) }
{
    match first_broken(order, rule) {
        Some((x, y)) => {
            let left = names[x].copy(alloc)?;
            let right = names[y].copy(alloc)?;
            match rule {
                PairRule::Apart => Err(LatFault::Cycle(left, right)),
                PairRule::Joined => Err(LatFault::NoJoin(left, right)),
            }
        }
        None => Ok(()),
    }
}

/// Tests the rules in their order, and encodes what keeps them all.
fn judge(alloc: Global, names: &[Name], pairs: &[Pair]) -> Result<Lattice, LatFault>
    ensures accepted { IfOk result (λ l. IsLatticeOf names.now pairs.now l) }
    ensures refused { IfErr result (λ fault. fault ≢ LatFault.Memory → FirstBroken names.now pairs.now fault) }
{
    check_names(names)?;
    let order = order_of(alloc, names, pairs)?;
    check_pairs(alloc, names, &order, PairRule::Apart)?;
    check_pairs(alloc, names, &order, PairRule::Joined)?;
    match least(&order) {
        Some(bottom) => Ok(Lattice::encode(alloc, names, &order, bottom)?),
        None => Err(LatFault::NoLeast),
    }
}

impl Lattice {
    /// The lattice of these names, in the order that the pairs give.
    pub fn build(alloc: Global, names: &[Name], pairs: &[Pair]) -> Result<Lattice, LatFault>
        ensures accepted { IfOk result (λ l. IsLatticeOf names.now pairs.now l) }
        ensures refused { IfErr result (λ fault. fault ≢ LatFault.Memory → FirstBroken names.now pairs.now fault) }
        ensures valid { KeepsAll names.now pairs.now → IsOkUnless result LatFault.Memory }
        ensures exact { (fault : AnyFault) → FirstBroken names.now pairs.now fault
            → IsErrOf result fault ⊎ IsErrOf result LatFault.Memory }
    {
        judge(alloc, names, pairs)
    }
}
