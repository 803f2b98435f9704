//! What stands at the front of a text.

ghost use Rattle.std.specs.Prelude.{◌≡◌, ◌≤◌, ◌<◌, ◌+◌, IfOk, length, slice_index, take, true};
ghost use Rattle.sap_lex.specs.Lexemes.{clings, lexeme_of, name_at, number_at, sign_at, sized_at, sized_in};
ghost use Rattle.sap_lex.specs.Lexing.{IsWithin};
ghost use Rattle.sap_lex.specs.Spelling.{command_word, declaration_word, expression_word, pair_sign, sign_of, single_sign, word_of};
ghost use Rattle.sap_text.specs.Names.{is_initial};
ghost use Rattle.sap_text.specs.Runs.{is_in};

use crate::token::{Kind, Sign};
use sap_text::scan::{Class, byte_at, is_blank, is_comment, is_in, is_initial, number, run_len};
use sap_tree::name::Name;
use sap_tree::word::Word;
use std::alloc::{AllocError, Global};

/// What stands at the front of a text, with its number of bytes.
#[derive(Drop)]
pub enum Lexeme {
    /// White space or a comment.
    Blank(usize),
    Token(Kind, usize),
    Bad,
}

#[tactic(auto, unfolding(crate::specs::Spelling::declaration_word))]
fn declaration_word(text: &[u8]) -> Option<Word>
    ensures { result ≡ declaration_word text.now }
{
    if text == b"input".as_slice() {
        Some(Word::Input)
    } else if text == b"reg".as_slice() {
        Some(Word::Reg)
    } else if text == b"mem".as_slice() {
        Some(Word::Mem)
    } else if text == b"state".as_slice() {
        Some(Word::State)
    } else if text == b"dynamic".as_slice() {
        Some(Word::Dynamic)
    } else if text == b"enforced".as_slice() {
        Some(Word::Enforced)
    } else if text == b"under".as_slice() {
        Some(Word::Under)
    } else {
        None
    }
}

#[tactic(auto, unfolding(crate::specs::Spelling::command_word))]
fn command_word(text: &[u8]) -> Option<Word>
    ensures { result ≡ command_word text.now }
{
    if text == b"if".as_slice() {
        Some(Word::If)
    } else if text == b"else".as_slice() {
        Some(Word::Else)
    } else if text == b"goto".as_slice() {
        Some(Word::Goto)
    } else if text == b"fall".as_slice() {
        Some(Word::Fall)
    } else if text == b"setTag".as_slice() {
        Some(Word::SetTag)
    } else if text == b"otherwise".as_slice() {
        Some(Word::Otherwise)
    } else {
        None
    }
}

#[tactic(auto, unfolding(crate::specs::Spelling::expression_word))]
fn expression_word(text: &[u8]) -> Option<Word>
    ensures { result ≡ expression_word text.now }
{
    if text == b"tag".as_slice() {
        Some(Word::Tag)
    } else if text == b"level".as_slice() {
        Some(Word::Level)
    } else if text == b"join".as_slice() {
        Some(Word::Join)
    } else if text == b"zext".as_slice() {
        Some(Word::Zext)
    } else {
        None
    }
}

#[tactic(auto, using(crate::proofs::Spelling::by_use))]
fn word(text: &[u8]) -> Option<Word>
    ensures { result ≡ word_of text.now }
{
    if let Some(word) = declaration_word(text) {
        return Some(word);
    }
    if let Some(word) = command_word(text) {
        return Some(word);
    }
    expression_word(text)
}

#[tactic(auto, unfolding(crate::specs::Lexemes::name_at))]
fn name(alloc: Global, bytes: &[u8]) -> Result<Lexeme, AllocError>
    requires { is_initial (slice_index bytes.now 0) ≡ true }
    ensures value { IfOk result (λ lexeme. lexeme ≡ name_at bytes.now) }
    ensures within { IfOk result (IsWithin bytes.now) }
{
    let n = run_len(Class::Inner, bytes);
    let text = &bytes[..n];
    match word(text) {
        Some(word) => Ok(Lexeme::Token(Kind::Word(word), n)),
        None => {
            let name = Name::spelled(alloc, text)?;
            Ok(Lexeme::Token(Kind::Name(name), n))
        }
    }
}

fn clings(b: u8) -> bool
    ensures { result ≡ clings b }
{
    is_in(Class::Inner, b) || b == b'\''
}

#[tactic(auto, unfolding(crate::specs::Lexemes::sized_in))]
fn sized_in(class: Class, base: u64, width: usize, bytes: &[u8]) -> Lexeme
    requires based { 1 ≤ base }
    requires within { width + 2 ≤ length bytes.now }
    ensures value { result ≡ sized_in class base width bytes.now }
    ensures within { IsWithin bytes.now result }
{
    let rest = &bytes[width + 2..];
    let digits = run_len(class, rest);
    if digits == 0 {
        return Lexeme::Bad;
    }
    if clings(byte_at(bytes, width + 2 + digits)) {
        return Lexeme::Bad;
    }
    match (number(10, &bytes[..width]), number(base, &rest[..digits])) {
        (Some(w), Some(n)) => Lexeme::Token(Kind::Sized(w, n), width + 2 + digits),
        _ => Lexeme::Bad,
    }
}

#[tactic(auto, unfolding(crate::specs::Lexemes::sized_at))]
fn sized(width: usize, bytes: &[u8]) -> Lexeme
    requires { width ≤ length bytes.now }
    ensures value { result ≡ sized_at width bytes.now }
    ensures within { IsWithin bytes.now result }
{
    if width + 2 > bytes.len() {
        return Lexeme::Bad;
    }
    match bytes[width + 1] {
        b'd' => sized_in(Class::Decimal, 10, width, bytes),
        b'h' => sized_in(Class::Hexadecimal, 16, width, bytes),
        _ => Lexeme::Bad,
    }
}

#[tactic(auto, unfolding(crate::specs::Lexemes::number_at))]
fn numeral(bytes: &[u8]) -> Lexeme
    requires { is_in Class.Decimal (slice_index bytes.now 0) ≡ true }
    ensures value { result ≡ number_at bytes.now }
    ensures within { IsWithin bytes.now result }
{
    let digits = run_len(Class::Decimal, bytes);
    let next = byte_at(bytes, digits);
    if next == b'\'' {
        return sized(digits, bytes);
    }
    match number(10, &bytes[..digits]) {
        Some(n) if !clings(next) => Lexeme::Token(Kind::Number(n), digits),
        _ => Lexeme::Bad,
    }
}

#[tactic(auto, unfolding(crate::specs::Spelling::pair_sign))]
fn pair_sign(first: u8, second: u8) -> Option<Sign>
    ensures { result ≡ pair_sign first second }
{
    match (first, second) {
        (b':', b'=') => Some(Sign::Becomes),
        (b'=', b'=') => Some(Sign::Equal),
        (b'!', b'=') => Some(Sign::NotEqual),
        (b'<', b'=') => Some(Sign::LessOrEqual),
        (b'<', b'<') => Some(Sign::ShiftLeft),
        (b'>', b'>') => Some(Sign::ShiftRight),
        _ => None,
    }
}

#[tactic(auto, unfolding(crate::specs::Spelling::single_sign))]
fn single_sign(byte: u8) -> Option<Sign>
    ensures { result ≡ single_sign byte }
{
    match byte {
        b'(' => Some(Sign::OpenParen),
        b')' => Some(Sign::CloseParen),
        b'{' => Some(Sign::OpenBrace),
        b'}' => Some(Sign::CloseBrace),
        b'[' => Some(Sign::OpenBracket),
        b']' => Some(Sign::CloseBracket),
        b':' => Some(Sign::Colon),
        b';' => Some(Sign::Semicolon),
        b',' => Some(Sign::Comma),
        b'?' => Some(Sign::Question),
        b'=' => Some(Sign::Is),
        b'<' => Some(Sign::Less),
        b'+' => Some(Sign::Plus),
        b'-' => Some(Sign::Minus),
        b'*' => Some(Sign::Star),
        b'&' => Some(Sign::Ampersand),
        b'|' => Some(Sign::Bar),
        b'^' => Some(Sign::Caret),
        b'~' => Some(Sign::Tilde),
        _ => None,
    }
}

#[tactic(auto, using(crate::proofs::Spelling::by_length))]
fn spelled_sign(text: &[u8]) -> Option<Sign>
    ensures { result ≡ sign_of text.now }
{
    match text {
        [byte] => single_sign(*byte),
        [first, second] => pair_sign(*first, *second),
        _ => None,
    }
}

/// At most the first n bytes.
fn at_most(bytes: &[u8], n: usize) -> &[u8]
    requires { (0 < n) × (0 < length bytes.now) }
    ensures value { result.now ≡ take n bytes.now }
    ensures within { (0 < length result.now) × (length result.now ≤ length bytes.now) }
{
    &bytes[..n.min(bytes.len())]
}

#[tactic(auto, unfolding(crate::specs::Lexemes::sign_at))]
fn sign(bytes: &[u8]) -> Lexeme
    requires { 0 < length bytes.now }
    ensures value { result ≡ sign_at bytes.now }
    ensures within { IsWithin bytes.now result }
{
    let pair = at_most(bytes, 2);
    let one = at_most(bytes, 1);
    match spelled_sign(pair) {
        Some(sign) => Lexeme::Token(Kind::Sign(sign), pair.len()),
        None => match spelled_sign(one) {
            Some(sign) => Lexeme::Token(Kind::Sign(sign), one.len()),
            None => Lexeme::Bad,
        },
    }
}

/// What stands at the front of a text, longest first.
#[tactic(auto, unfolding(crate::specs::Lexemes::lexeme_of))]
pub fn front_lexeme(alloc: Global, bytes: &[u8]) -> Result<Lexeme, AllocError>
    requires { 0 < length bytes.now }
    ensures value { IfOk result (λ lexeme. lexeme ≡ lexeme_of bytes.now) }
    ensures within { IfOk result (IsWithin bytes.now) }
{
    let first = bytes[0];
    if is_blank(first) {
        Ok(Lexeme::Blank(1))
    } else if is_comment(bytes) {
        Ok(Lexeme::Blank(run_len(Class::Comment, bytes)))
    } else if is_initial(first) {
        name(alloc, bytes)
    } else if first.is_ascii_digit() {
        Ok(numeral(bytes))
    } else {
        Ok(sign(bytes))
    }
}
