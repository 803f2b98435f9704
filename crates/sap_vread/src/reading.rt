//! The reader of modules.

ghost use Rattle.std.specs.Prelude.{◌≢◌, IfErr, IfOk, IsErr, IsOkUnless, OnOk};
ghost use Rattle.sap_vtext.specs.Faults.{IsFaultless};
ghost use Rattle.sap_vtext.specs.Modules.{IsModule};
ghost use Rattle.sap_net.specs.Net.{Net};
ghost use Rattle.sap_vparse.specs.Text.{IsText};
ghost use Rattle.sap_vparse.specs.Views.{file_of};
ghost use Rattle.sap_vread.specs.ModuleFault.{IsModuleFault};
ghost use Rattle.sap_vread.specs.declared.fault.ModFault.{ModFault as AnyFault};
ghost use Rattle.sap_vread.specs.declared.fault.ModFault.TheVariants.{Memory};

use crate::build::build;
use crate::fault::{ModCode, ModFault, code_of};
use crate::law::one_module_or_fault;
use crate::place::place_at;
use sap_net::netlist::Netlist;
use sap_vjudge::fault::JudgeFault;
use sap_vjudge::judging::judge;
use sap_vlex::ReadFault;
use sap_vparse::items::File;
use sap_vparse::parse;
use std::alloc::Global;

// The file of a text.
fn file(alloc: Global, text: &[u8]) -> Result<File, ModFault>
    ensures file { IfOk result (λ f. IsText text.now (file_of f)) }
    ensures refused { IfErr result (λ fault. fault ≢ Memory → IsModuleFault text.now fault) }
{
    match parse(alloc, text) {
        Ok(file) => Ok(file),
        Err(ReadFault::V1(at)) => Err(ModFault::Rule(ModCode::V1, place_at(text, at))),
        Err(ReadFault::V2(at)) => Err(ModFault::Rule(ModCode::V2, place_at(text, at))),
        Err(ReadFault::Memory) => Err(ModFault::Memory),
    }
}

// Whether the file of a text is without a fault.
fn judged(alloc: Global, text: &[u8], file: &File) -> Result<(), ModFault>
    requires spelled { IsText text.now (file_of file.now) }
    ensures faultless { OnOk result (IsFaultless (file_of file.now)) }
    ensures refused { IfErr result (λ fault. fault ≢ Memory → IsModuleFault text.now fault) }
{
    match judge(alloc, file) {
        Ok(()) => Ok(()),
        Err(JudgeFault::Rule(code, at)) => Err(ModFault::Rule(code_of(code), place_at(text, at))),
        Err(JudgeFault::Memory) => Err(ModFault::Memory),
    }
}

/// Reads the text of a module.
pub fn read(alloc: Global, text: &[u8]) -> Result<Netlist, ModFault>
    ensures module { IfOk result (λ n. IsModule text.now n) }
    ensures refused { IfErr result (λ fault. fault ≢ Memory → IsModuleFault text.now fault) }
    // The text of a module is refused for want of memory alone.
    ensures valid { (n : Net) → IsModule text.now n → IsOkUnless result Memory }
    // No text with a fault is taken.
    ensures exact { (fault : AnyFault) → IsModuleFault text.now fault → IsErr result }
{
    one_module_or_fault();
    let file = file(alloc, text)?;
    judged(alloc, text, &file)?;
    Ok(build(alloc, &file)?)
}
