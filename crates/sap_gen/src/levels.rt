//! The lattice of the generated run.

ghost use Rattle.std.specs.Prelude.{◌≡◌, IfOk};
ghost use Rattle.sap_lattice.specs.Built.{IsLatticeOf};
ghost use Rattle.sap_lattice.specs.Rules.{KeepsAll};
ghost use Rattle.sap_lattice.specs.Diamond.{level_names, level_pairs, pair};

use sap_lattice::{LatFault, Lattice, Name, Pair};
use std::alloc::{AllocError, Global};

fn name(alloc: Global, text: &str) -> Result<Name, AllocError>
    ensures { IfOk result (λ name. name ≡ text.now) }
{
    Ok(Name::new(String::from_str(alloc, text)?))
}

fn level_names(alloc: Global) -> Result<Vec<Name>, AllocError>
    ensures { IfOk result (λ names. names.items ≡ level_names) }
{
    let mut names = Vec::new(alloc);
    names.push(name(alloc, "low")?)?;
    names.push(name(alloc, "a")?)?;
    names.push(name(alloc, "b")?)?;
    names.push(name(alloc, "high")?)?;
    Ok(names)
}

fn pair(alloc: Global, lower: &str, upper: &str) -> Result<Pair, AllocError>
    ensures { IfOk result (λ p. p ≡ pair lower.now upper.now) }
{
    Ok(Pair {
        lower: name(alloc, lower)?,
        upper: name(alloc, upper)?,
    })
}

fn level_pairs(alloc: Global) -> Result<Vec<Pair>, AllocError>
    ensures { IfOk result (λ pairs. pairs.items ≡ level_pairs) }
{
    let mut pairs = Vec::new(alloc);
    pairs.push(pair(alloc, "low", "a")?)?;
    pairs.push(pair(alloc, "low", "b")?)?;
    pairs.push(pair(alloc, "a", "high")?)?;
    pairs.push(pair(alloc, "b", "high")?)?;
    Ok(pairs)
}

/// No rule on lattices is broken.
fn rules_are_kept()
    ensures { KeepsAll level_names level_pairs }
{}

/// The lattice of the four levels.
pub(crate) fn diamond(alloc: Global) -> Result<Lattice, AllocError>
    ensures { IfOk result (λ lattice. IsLatticeOf level_names level_pairs lattice) }
{
    rules_are_kept();
    let names = level_names(alloc)?;
    let pairs = level_pairs(alloc)?;
    match Lattice::build(alloc, names.as_slice(), pairs.as_slice()) {
        Ok(lattice) => Ok(lattice),
        Err(LatFault::Memory) => Err(AllocError),
        Err(_) => unreachable!(),
    }
}
