//! The reader of files.

ghost use Rattle.std.specs.Prelude.{◌≡◌, [], IfOk};
ghost use Rattle.sap_vtext.specs.Grammar.{IsFile};
ghost use Rattle.sap_vparse.specs.Parts.{ItemsEnd};
ghost use Rattle.sap_vparse.specs.Reading.{Goes};
ghost use Rattle.sap_vparse.specs.Table as s;
ghost use Rattle.sap_vparse.specs.Views.{file_of, items_of};

use crate::cursor::{Cursor, Fault};
use crate::item::item;
use crate::items::{File, Item};
use crate::port::ports;
use crate::row::{PORTS, name_then};
use sap_vlex::token::{Sign, Word};
use std::alloc::Global;

/// The end of the tokens; gives 0.
#[tactic(auto, using(crate::proofs::Walks::ending))]
fn end(tokens: &mut Cursor<'_>) -> Result<u64, Fault>
    ensures goes { Goes s.end tokens.old result tokens.new }
    ensures end { IfOk result (λ _. tokens.old ≡ []) }
    ensures stays { tokens.new ≡ tokens.old }
{
    if tokens.at_end() {
        Ok(0)
    } else {
        Err(Fault::Token)
    }
}

/// The items up to `endmodule`, and the end.
#[tactic(auto, using(crate::proofs::Walks::item_list))]
fn items(alloc: Global, tokens: &mut Cursor<'_>) -> Result<Vec<Item>, Fault>
    ensures goes { Goes s.items tokens.old result tokens.new }
    ensures tree { IfOk result (λ list. ItemsEnd tokens.old (items_of list.items) tokens.new) }
    ensures end { IfOk result (λ _. tokens.new ≡ []) }
{
    let mut list = Vec::new(alloc);
    'items: while !tokens.at_word(Word::Endmodule) {
        let next = item(alloc, tokens)?;
        list.push(next)?;
    }
    tokens.word(Word::Endmodule)?;
    end(tokens)?;
    Ok(list)
}

/// A whole file.
#[tactic(auto, using(crate::proofs::Walks::files))]
pub fn file(alloc: Global, tokens: &mut Cursor<'_>) -> Result<File, Fault>
    ensures goes { Goes s.file tokens.old result tokens.new }
    ensures tree { IfOk result (λ f. IsFile tokens.old (file_of f) tokens.new) }
    ensures end { IfOk result (λ _. tokens.new ≡ []) }
{
    tokens.word(Word::Module)?;
    let name = name_then(alloc, tokens, &PORTS)?;
    let ports = ports(alloc, tokens)?;
    tokens.sign(Sign::Semicolon)?;
    let items = items(alloc, tokens)?;
    Ok(File {
        module_name: name.name,
        ports,
        items,
    })
}
