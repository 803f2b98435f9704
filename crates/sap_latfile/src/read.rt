// Reading a lattice file.

ghost use Rattle.std.specs.Prelude.{◌≢◌, ◌⊎◌, List, ℕ, Some, IfErr, IfOk, IsErrOf, IsOkUnless};
ghost use Rattle.toml.specs.View.{table_view};
ghost use Rattle.sap_lattice.specs.Rules.{KeepsAll};
ghost use Rattle.sap_lattice.specs.declared.pair.Pair.{Pair as PairOfNames};
ghost use Rattle.sap_latfile.specs.LatticeFile.{FirstFault, IsDocument, IsFileOf, IsLatticeOfFile};
ghost use Rattle.sap_latfile.specs.declared.fault.LatFileFault.{LatFileFault as AnyFault};

use crate::fault::LatFileFault;
use crate::listing::listing;
use sap_lattice::Lattice;
use std::alloc::Global;
use toml::Table;

/// The document of the bytes.
fn document(alloc: Global, bytes: &[u8]) -> Result<Table, LatFileFault>
    ensures document { IfOk result (λ t. IsDocument bytes.now (table_view t)) }
    ensures refused { IfErr result (λ fault. fault ≢ LatFileFault.Memory → FirstFault bytes.now fault) }
{
    match toml::table_from_slice(alloc, bytes) {
        Ok(table) => Ok(table),
        Err(e) => {
            if e.is_memory() {
                Err(LatFileFault::Memory)
            } else {
                Err(LatFileFault::NotToml)
            }
        }
    }
}

/// Tests the rules in their order, and builds the lattice of what keeps them all.
fn judge(alloc: Global, bytes: &[u8]) -> Result<Lattice, LatFileFault>
    ensures accepted { IfOk result (λ l. IsLatticeOfFile bytes.now l) }
    ensures refused { IfErr result (λ fault. fault ≢ LatFileFault.Memory → FirstFault bytes.now fault) }
{
    let table = document(alloc, bytes)?;
    let Some((names, pairs)) = listing(alloc, &table)? else {
        return Err(LatFileFault::Shape);
    };
    Ok(Lattice::build(alloc, names.as_slice(), pairs.as_slice())?)
}

/// The lattice of a lattice file.
pub fn read_lattice(alloc: Global, bytes: &[u8]) -> Result<Lattice, LatFileFault>
    ensures accepted { IfOk result (λ l. IsLatticeOfFile bytes.now l) }
    ensures refused { IfErr result (λ fault. fault ≢ LatFileFault.Memory → FirstFault bytes.now fault) }
    ensures valid { (names : List (List ℕ)) (pairs : List PairOfNames) → IsFileOf bytes.now names pairs → KeepsAll names pairs
        → IsOkUnless result LatFileFault.Memory }
    ensures exact { (fault : AnyFault) → FirstFault bytes.now fault
        → IsErrOf result fault ⊎ IsErrOf result LatFileFault.Memory }
{
    judge(alloc, bytes)
}
