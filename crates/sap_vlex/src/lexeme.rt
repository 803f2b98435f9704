//! What stands at the front of a text.

ghost use Rattle.std.specs.Prelude.{◌≡◌, ◌≤◌, ◌<◌, ◌+◌, IfOk, length, slice_index, true};
ghost use Rattle.sap_text.specs.Names.{is_initial};
ghost use Rattle.sap_text.specs.Runs.{is_in};
ghost use Rattle.sap_vlex.specs.Lexemes.{constant_at, inner_word, is_constant, item_word, lexeme_of, name_at, number_at, pair_sign, sign_at, single_at, single_sign, word_in};
ghost use Rattle.sap_vlex.specs.Lexing.{IsWithin};

use crate::token::{Kind, Sign, Word};
use sap_net::parts::Name;
use sap_text::scan::{Class, byte_at, is_blank, is_comment, is_initial, number, run_len};
use std::alloc::{AllocError, Global};

/// What stands at the front of a text, with its number of bytes.
#[derive(Drop)]
pub enum Lexeme {
    /// White space or a comment.
    Blank(usize),
    Token(Kind, usize),
    Bad,
}

fn inner_word(text: &[u8]) -> Option<Word>
    ensures { result ≡ inner_word text.now }
{
    if text == b"if".as_slice() {
        Some(Word::If)
    } else if text == b"for".as_slice() {
        Some(Word::For)
    } else if text == b"integer".as_slice() {
        Some(Word::Integer)
    } else if text == b"clk".as_slice() {
        Some(Word::Clk)
    } else if text == b"i".as_slice() {
        Some(Word::I)
    } else {
        None
    }
}

fn item_word(text: &[u8]) -> Option<Word>
    ensures { result ≡ item_word text.now }
{
    if text == b"assign".as_slice() {
        Some(Word::Assign)
    } else if text == b"initial".as_slice() {
        Some(Word::Initial)
    } else if text == b"always".as_slice() {
        Some(Word::Always)
    } else if text == b"posedge".as_slice() {
        Some(Word::Posedge)
    } else {
        inner_word(text)
    }
}

fn word(text: &[u8]) -> Option<Word>
    ensures { result ≡ word_in text.now }
{
    if text == b"module".as_slice() {
        Some(Word::Module)
    } else if text == b"endmodule".as_slice() {
        Some(Word::Endmodule)
    } else if text == b"input".as_slice() {
        Some(Word::Input)
    } else if text == b"output".as_slice() {
        Some(Word::Output)
    } else if text == b"reg".as_slice() {
        Some(Word::Reg)
    } else if text == b"wire".as_slice() {
        Some(Word::Wire)
    } else {
        item_word(text)
    }
}

#[tactic(auto, unfolding(crate::specs::Lexemes::name_at))]
fn name(alloc: Global, bytes: &[u8]) -> Result<Lexeme, AllocError>
    requires { is_initial (slice_index bytes.now 0) ≡ true }
    ensures value { IfOk result (λ lexeme. lexeme ≡ name_at bytes.now) }
    ensures within { IfOk result (IsWithin bytes.now) }
{
    let n = run_len(Class::Inner, bytes);
    let text = &bytes[..n];
    match word(text) {
        Some(word) => Ok(Lexeme::Token(Kind::Word(word), n)),
        None => {
            let name = Name::spelled(alloc, text)?;
            Ok(Lexeme::Token(Kind::Name(name), n))
        }
    }
}

fn is_constant(width: usize, bytes: &[u8]) -> bool
    requires { width ≤ length bytes.now }
    ensures { result ≡ is_constant width bytes.now }
{
    byte_at(bytes, 0) != b'0'
        && byte_at(bytes, width) == b'\''
        && width + 2 < bytes.len()
        && bytes[width + 1] == b'd'
        && bytes[width + 2].is_ascii_digit()
}

/// A constant whose width is the first bytes.
#[tactic(auto, unfolding(crate::specs::Lexemes::constant_at))]
fn constant(width: usize, bytes: &[u8]) -> Lexeme
    requires { width + 2 ≤ length bytes.now }
    ensures value { result ≡ constant_at width bytes.now }
    ensures within { IsWithin bytes.now result }
{
    let rest = &bytes[width + 2..];
    let digits = run_len(Class::Decimal, rest);
    match (number(10, &bytes[..width]), number(10, &rest[..digits])) {
        (Some(w), Some(n)) => Lexeme::Token(Kind::Constant(w, n), width + 2 + digits),
        _ => Lexeme::Bad,
    }
}

#[tactic(auto, unfolding(crate::specs::Lexemes::number_at))]
fn numeral(bytes: &[u8]) -> Lexeme
    requires { is_in Class.Decimal (slice_index bytes.now 0) ≡ true }
    ensures value { result ≡ number_at bytes.now }
    ensures within { IsWithin bytes.now result }
{
    let digits = run_len(Class::Decimal, bytes);
    if is_constant(digits, bytes) {
        return constant(digits, bytes);
    }
    match number(10, &bytes[..digits]) {
        Some(n) => Lexeme::Token(Kind::Number(n, digits), digits),
        None => Lexeme::Bad,
    }
}

#[tactic(auto, unfolding(crate::specs::Lexemes::pair_sign))]
fn pair_sign(first: u8, second: u8) -> Option<Sign>
    ensures { result ≡ pair_sign first second }
{
    match (first, second) {
        (b'=', b'=') => Some(Sign::Equal),
        (b'!', b'=') => Some(Sign::NotEqual),
        (b'<', b'=') => Some(Sign::LessOrEqual),
        (b'<', b'<') => Some(Sign::ShiftLeft),
        (b'>', b'>') => Some(Sign::ShiftRight),
        _ => None,
    }
}

#[tactic(auto, unfolding(crate::specs::Lexemes::single_sign))]
fn single_sign(byte: u8) -> Option<Sign>
    ensures { result ≡ single_sign byte }
{
    match byte {
        b'(' => Some(Sign::OpenParen),
        b')' => Some(Sign::CloseParen),
        b'{' => Some(Sign::OpenBrace),
        b'}' => Some(Sign::CloseBrace),
        b'[' => Some(Sign::OpenBracket),
        b']' => Some(Sign::CloseBracket),
        b',' => Some(Sign::Comma),
        b';' => Some(Sign::Semicolon),
        b':' => Some(Sign::Colon),
        b'?' => Some(Sign::Question),
        b'@' => Some(Sign::At),
        b'=' => Some(Sign::Is),
        b'<' => Some(Sign::Less),
        b'+' => Some(Sign::Plus),
        b'-' => Some(Sign::Minus),
        b'*' => Some(Sign::Star),
        b'&' => Some(Sign::Ampersand),
        b'|' => Some(Sign::Bar),
        b'^' => Some(Sign::Caret),
        b'~' => Some(Sign::Tilde),
        _ => None,
    }
}

#[tactic(auto, unfolding(crate::specs::Lexemes::single_at))]
fn single(bytes: &[u8]) -> Lexeme
    requires { 0 < length bytes.now }
    ensures value { result ≡ single_at bytes.now }
    ensures within { IsWithin bytes.now result }
{
    match single_sign(bytes[0]) {
        Some(sign) => Lexeme::Token(Kind::Sign(sign), 1),
        None => Lexeme::Bad,
    }
}

#[tactic(auto, unfolding(crate::specs::Lexemes::sign_at))]
fn sign(bytes: &[u8]) -> Lexeme
    requires { 0 < length bytes.now }
    ensures value { result ≡ sign_at bytes.now }
    ensures within { IsWithin bytes.now result }
{
    if bytes.len() < 2 {
        return single(bytes);
    }
    match pair_sign(bytes[0], bytes[1]) {
        Some(sign) => Lexeme::Token(Kind::Sign(sign), 2),
        None => single(bytes),
    }
}

/// What stands at the front of a text, longest first.
#[tactic(auto, unfolding(crate::specs::Lexemes::lexeme_of))]
pub fn front_lexeme(alloc: Global, bytes: &[u8]) -> Result<Lexeme, AllocError>
    requires { 0 < length bytes.now }
    ensures value { IfOk result (λ lexeme. lexeme ≡ lexeme_of bytes.now) }
    ensures within { IfOk result (IsWithin bytes.now) }
{
    let first = bytes[0];
    if is_blank(first) {
        Ok(Lexeme::Blank(1))
    } else if is_comment(bytes) {
        Ok(Lexeme::Blank(run_len(Class::Comment, bytes)))
    } else if is_initial(first) {
        name(alloc, bytes)
    } else if first.is_ascii_digit() {
        Ok(numeral(bytes))
    } else {
        Ok(sign(bytes))
    }
}
