//! The tokens of a text.

ghost use Rattle.std.specs.Prelude.{◌≢◌, IfErr, IfOk};
ghost use Rattle.sap_vtext.specs.Lexing.{Lexed};
ghost use Rattle.sap_vlex.specs.Lexing.{IsLexFault};
ghost use Rattle.sap_vlex.specs.Spelling.{tokens_of};

use crate::fault::ReadFault;
use crate::lexeme::{Lexeme, front_lexeme};
use crate::token::Token;
use std::alloc::Global;

/// The tokens of a text.
pub fn lex(alloc: Global, text: &[u8]) -> Result<Vec<Token>, ReadFault>
    ensures tokens { IfOk result (λ list. Lexed 0 text.now (tokens_of list.items)) }
    ensures fault { IfErr result (λ fault. fault ≢ ReadFault.Memory → IsLexFault text.now fault) }
{
    let mut tokens = Vec::new(alloc);
    let mut n = 0;
    'lexemes: while n < text.len() {
        match front_lexeme(alloc, &text[n..])? {
            Lexeme::Blank(len) => n += len,
            Lexeme::Token(kind, len) => {
                let place = n as u64;
                tokens.push(Token { place, kind })?;
                n += len;
            }
            Lexeme::Bad => return Err(ReadFault::V1(n as u64)),
        }
    }
    Ok(tokens)
}
