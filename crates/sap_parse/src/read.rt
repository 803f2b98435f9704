//! The reader of texts.

ghost use Rattle.std.specs.Prelude.{◌≡◌, ◌≢◌, IfErr, IfOk};
ghost use Rattle.sap_parse.specs.Text.{IsReadFault, IsText, fault_place};
ghost use Rattle.sap_tree.specs.Designs.{design_of};
ghost use Rattle.sap_tree.specs.Syntax.{DesignTree};

use crate::cursor::{Cursor, Fault};
use crate::state::design;
use sap_lex::fault::ReadFault;
use sap_lex::lex;
use sap_lex::limit::Limit;
use sap_tree::design::Design;
use sap_tree::place::Place;
use std::alloc::Global;

/// The bytes of a text, at most.
const MOST_BYTES: usize = 1048576;

/// The place of the next token, or the one just behind the text.
fn fault_place(source: &[u8], tokens: &Cursor<'_>) -> Place
    ensures { result ≡ fault_place source.now tokens.now.left }
{
    if tokens.at_end() {
        Place::first().after(source)
    } else {
        tokens.here()
    }
}

/// Reads the text of a design.
#[tactic(none)]
pub fn parse(alloc: Global, source: &[u8]) -> Result<Design, ReadFault>
    ensures design { IfOk result (λ design. IsText source.now (design_of design)) }
    ensures fault { IfErr result (λ fault. fault ≢ ReadFault.Memory → IsReadFault source.now fault) }
    ensures refused { IfErr result (λ fault. fault ≢ ReadFault.Memory → (design : DesignTree) → IsText source.now design → ⊥) }
{
    if source.len() > MOST_BYTES {
        return Err(ReadFault::E18(Place::first(), Limit::Bytes));
    }
    let list = lex(alloc, source)?;
    let mut tokens = Cursor::new(list.as_slice());
    match design(alloc, &mut tokens) {
        Ok(parts) => {
            tokens.breaks_nothing();
            Ok(Design::new(parts.version, parts.declarations, parts.states))
        }
        Err(Fault::Token) => Err(ReadFault::E2(fault_place(source, &tokens))),
        Err(Fault::Limit(limit)) => Err(ReadFault::E18(fault_place(source, &tokens), limit)),
        Err(Fault::Memory) => Err(ReadFault::Memory),
    }
}
