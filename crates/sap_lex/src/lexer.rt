//! The tokens of a text.

ghost use Rattle.std.specs.Prelude.{◌≢◌, IfErr, IfOk, List, length};
ghost use Rattle.std.specs.List.{All};
ghost use Rattle.sap_lex.specs.Lexing.{AreTokens, IsLexFault, version_of};
ghost use Rattle.sap_lex.specs.Spelled.{AreInOrder, HasText};

use crate::fault::ReadFault;
use crate::key::key;
use crate::lexeme::{Lexeme, front_lexeme};
use crate::token::{Token, Tokens};
use sap_tree::place::Place;
use std::alloc::Global;

/// The tokens of a text, or E1 where it has none.
pub fn lex(alloc: Global, text: &[u8]) -> Result<Tokens, ReadFault>
    ensures ok { IfOk result (AreTokens text.now) }
    ensures texts { IfOk result (λ tokens. All (HasText (version_of tokens) text.now) tokens) }
    ensures order { IfOk result (AreInOrder 0 (length text.now)) }
    ensures fault { IfErr result (λ fault. fault ≢ ReadFault.Memory → IsLexFault text.now fault) }
    ensures faultless { IfOk result (λ _. (fault : ReadFault) → IsLexFault text.now fault → ⊥) }
    ensures refused { IfErr result (λ fault. fault ≢ ReadFault.Memory → (tokens : List Token) → AreTokens text.now tokens → ⊥) }
{
    let mut tokens = Vec::new(alloc);
    let mut n = 0;
    let mut place = Place::first();
    'lexemes: while n < text.len() {
        let rest = &text[n..];
        match front_lexeme(alloc, rest)? {
            Lexeme::Blank(len) => {
                place = place.after(&rest[..len]);
                n += len;
            }
            Lexeme::Token(kind, len) => {
                tokens.push(Token {
                    kind,
                    place,
                    from: n,
                    to: n + len,
                })?;
                place = place.after(&rest[..len]);
                n += len;
            }
            Lexeme::Bad => return Err(ReadFault::E1(place)),
        }
    }
    key(&mut tokens);
    Ok(Tokens::new(tokens))
}
