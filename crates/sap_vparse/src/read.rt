//! The reader of texts.

ghost use Rattle.std.specs.Prelude.{◌≡◌, ◌≢◌, IfErr, IfOk};
ghost use Rattle.sap_vtext.specs.Items as item;
ghost use Rattle.sap_vparse.specs.Text.{IsReadFault, IsText, fault_place};
ghost use Rattle.sap_vparse.specs.Views.{file_of};

use crate::cursor::{Cursor, Fault};
use crate::file::file;
use crate::items::File;
use sap_vlex::{ReadFault, lex};
use std::alloc::Global;

/// The place of the next token, or the one just behind the text.
fn fault_place(text: &[u8], tokens: &Cursor<'_>) -> u64
    ensures { result ≡ fault_place text.now tokens.now }
{
    if tokens.at_end() {
        text.len() as u64
    } else {
        tokens.here()
    }
}

/// Reads the text of a module.
#[tactic(none)]
pub fn parse(alloc: Global, text: &[u8]) -> Result<File, ReadFault>
    ensures file { IfOk result (λ f. IsText text.now (file_of f)) }
    ensures faultless { IfOk result (λ _. (fault : ReadFault) → IsReadFault text.now fault → ⊥) }
    ensures fault { IfErr result (λ fault. fault ≢ ReadFault.Memory → IsReadFault text.now fault) }
    ensures refused { IfErr result (λ fault. fault ≢ ReadFault.Memory → (file : item.File) → IsText text.now file → ⊥) }
{
    let list = lex(alloc, text)?;
    let mut tokens = Cursor::new(list.as_slice());
    match file(alloc, &mut tokens) {
        Ok(file) => Ok(file),
        Err(Fault::Token) => Err(ReadFault::V2(fault_place(text, &tokens))),
        Err(Fault::Memory) => Err(ReadFault::Memory),
    }
}
