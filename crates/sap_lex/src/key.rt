//! The words of a text that begins with the name `sapper`.

ghost use Rattle.std.specs.Prelude.{◌≡◌, ◌<◌};
ghost use Rattle.sap_lex.specs.Lexing.{AreSpanned, is_sapper, is_two, keyed, later_token, later_word_in, second_token};
ghost use Rattle.sap_lex.specs.Spelling.{later_word_of};

use crate::token::{Kind, Token};
use sap_tree::word::Word;

/// The word that is one from the second version on.
fn later_word(text: &[u8]) -> Option<Word>
    ensures { result ≡ later_word_of text.now }
{
    if text == b"then".as_slice() {
        Some(Word::Then)
    } else if text == b"case".as_slice() {
        Some(Word::Case)
    } else {
        None
    }
}

/// The word that a token of this kind is from the second version on, where it is a name in the first.
fn later_kind(kind: &Kind) -> Option<Word>
    ensures { result ≡ later_word_in kind.now }
{
    match kind {
        Kind::Name(name) => later_word(name.as_bytes()),
        Kind::Word(_) | Kind::Sign(_) | Kind::Number(_) | Kind::Sized(_, _) => None,
    }
}

fn is_sapper(kind: &Kind) -> bool
    ensures { result ≡ is_sapper kind.now }
{
    match kind {
        Kind::Name(name) => name.as_bytes() == b"sapper".as_slice(),
        Kind::Word(_) | Kind::Sign(_) | Kind::Number(_) | Kind::Sized(_, _) => false,
    }
}

/// The number 2, spelled by one digit.
fn is_two(token: &Token) -> bool
    requires { token.now.from < token.now.to }
    ensures { result ≡ is_two token.now }
{
    match &token.kind {
        Kind::Number(n) => *n == 2 && token.to - token.from == 1,
        Kind::Word(_) | Kind::Sign(_) | Kind::Name(_) | Kind::Sized(_, _) => false,
    }
}

fn key_later(token: &mut Token)
    ensures { token.new ≡ later_token token.old }
{
    if let Some(word) = later_kind(&token.kind) {
        token.kind = Kind::Word(word);
    }
}

fn key_second(token: &mut Token)
    requires { token.old.from < token.old.to }
    ensures { token.new ≡ second_token token.old }
{
    if is_two(token) {
        token.kind = Kind::Word(Word::Two);
    } else {
        key_later(token);
    }
}

/// Makes words of the names and the number that are words in a text that begins so.
#[tactic(auto, unfolding(crate::specs::Lexing::keyed))]
pub(crate) fn key(tokens: &mut Vec<Token>)
    requires { AreSpanned tokens.old.items }
    ensures { tokens.new.items ≡ keyed tokens.old.items }
{
    if tokens.is_empty() || !is_sapper(&tokens[0].kind) {
        return;
    }
    tokens[0].kind = Kind::Word(Word::Sapper);
    if tokens.len() == 1 {
        return;
    }
    key_second(&mut tokens[1]);
    for place in 2..tokens.len() {
        key_later(&mut tokens[place]);
    }
}
