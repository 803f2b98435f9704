// Reading a system file.

ghost use Rattle.std.specs.Prelude.{◌≢◌, ◌⊎◌, IfErr, IfOk, IsErrOf, IsOkUnless};
ghost use Rattle.toml.specs.View.{table_view};
ghost use Rattle.sap_latfile.specs.LatticeFile.{IsDocument};
ghost use Rattle.sap_system.specs.Listing.{Listing};
ghost use Rattle.sap_system.specs.SystemFile.{FirstFault, IsSystemOfFile};
ghost use Rattle.sap_system.specs.declared.fault.SysFault.{SysFault as AnyFault};

use crate::fault::{SysCode, SysFault};
use crate::file::SystemFile;
use crate::listing::listing;
use crate::parts::check_parts;
use std::alloc::Global;
use toml::Table;

/// The document of the bytes.
fn document(alloc: Global, bytes: &[u8]) -> Result<Table, SysFault>
    ensures document { IfOk result (λ t. IsDocument bytes.now (table_view t)) }
    ensures refused { IfErr result (λ fault. fault ≢ SysFault.Memory → FirstFault bytes.now fault) }
{
    match toml::table_from_slice(alloc, bytes) {
        Ok(table) => Ok(table),
        Err(e) => {
            if e.is_memory() {
                Err(SysFault::Memory)
            } else {
                Err(SysFault::Rule(SysCode::K1, 0))
            }
        }
    }
}

/// Tests the rules in their order, and gives the system that keeps them all.
fn judge(alloc: Global, bytes: &[u8]) -> Result<SystemFile, SysFault>
    ensures accepted { IfOk result (λ s. IsSystemOfFile bytes.now s) }
    ensures refused { IfErr result (λ fault. fault ≢ SysFault.Memory → FirstFault bytes.now fault) }
{
    let table = document(alloc, bytes)?;
    let Some((parts, wires)) = listing(alloc, &table)? else {
        return Err(SysFault::Rule(SysCode::K2, 0));
    };
    check_parts(parts.as_slice())?;
    Ok(SystemFile::new(parts, wires))
}

/// The system of a system file.
pub fn read_system(alloc: Global, bytes: &[u8]) -> Result<SystemFile, SysFault>
    ensures accepted { IfOk result (λ s. IsSystemOfFile bytes.now s) }
    ensures refused { IfErr result (λ fault. fault ≢ SysFault.Memory → FirstFault bytes.now fault) }
    ensures valid { (s : Listing) → IsSystemOfFile bytes.now s → IsOkUnless result SysFault.Memory }
    ensures exact { (fault : AnyFault) → FirstFault bytes.now fault
        → IsErrOf result fault ⊎ IsErrOf result SysFault.Memory }
{
    judge(alloc, bytes)
}
