//! The first fault of a module's tree.

ghost use Rattle.std.specs.Prelude.{◌≡◌, ◌≢◌, None, IfErr, IfOk, IsOkUnless, OnOk};
ghost use Rattle.sap_vtext.specs.Faults.{IsFaultless};
ghost use Rattle.sap_vjudge.specs.Best.{best_of};
ghost use Rattle.sap_vjudge.specs.FirstFault.{IsJudgeFault};
ghost use Rattle.sap_vjudge.specs.Known.{nothing_known};
ghost use Rattle.sap_vjudge.specs.Listed.{file_faults};
ghost use Rattle.sap_vjudge.specs.Tables.{known_of};
ghost use Rattle.sap_vparse.specs.Views.{file_of};

use crate::fault::{Fault, JudgeFault};
use crate::items::{read_items, read_ports};
use crate::table::Table;
use crate::unset::{note_unset_items, note_unset_ports};
use sap_vparse::items::File;
use std::alloc::{AllocError, Global};

#[tactic(auto, using(crate::proofs::Noting::noting, crate::proofs::Lists::files))]
fn note_file(
    alloc: Global,
    file: &File,
    table: &mut Table,
    best: &mut Option<Fault>,
) -> Result<(), AllocError>
    requires { known_of table.old ≡ nothing_known }
    ensures { OnOk result (best.new ≡ best_of best.old (file_faults (file_of file.now))) }
{
    read_ports(alloc, file.ports.as_slice(), table, best)?;
    read_items(alloc, file.items.as_slice(), table, best)?;
    note_unset_ports(table, file.ports.as_slice(), best);
    note_unset_items(table, file.items.as_slice(), best);
    Ok(())
}

fn first_fault(alloc: Global, file: &File) -> Result<Option<Fault>, AllocError>
    ensures { IfOk result (λ best. best ≡ best_of None (file_faults (file_of file.now))) }
{
    let mut best = None;
    let mut table = Table::new(alloc);
    note_file(alloc, file, &mut table, &mut best)?;
    Ok(best)
}

/// Whether none of V3 to V7 stands in a module's tree; else the first fault, by place and then by code.
pub fn judge(alloc: Global, file: &File) -> Result<(), JudgeFault>
    ensures faultless { OnOk result (IsFaultless (file_of file.now)) }
    ensures first { IfErr result (λ fault. fault ≢ JudgeFault.Memory → IsJudgeFault (file_of file.now) fault) }
    // A faultless tree is refused for want of memory alone.
    ensures accepted { IsFaultless (file_of file.now) → IsOkUnless result JudgeFault.Memory }
{
    match first_fault(alloc, file)? {
        Some(fault) => Err(JudgeFault::Rule(fault.code, fault.place)),
        None => Ok(()),
    }
}
