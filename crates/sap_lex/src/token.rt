//! Tokens.

ghost use Rattle.std.specs.Prelude.{◌≡◌};

use sap_tree::name::Name;
use sap_tree::place::Place;
use sap_tree::word::Word;
use std::marker::Model;

/// A sign of the design language.
#[derive(Clone, Copy, PartialEq, Eq, Debug)]
pub enum Sign {
    /// `:=`
    Becomes,
    /// `==`
    Equal,
    /// `!=`
    NotEqual,
    /// `<=`
    LessOrEqual,
    /// `<<`
    ShiftLeft,
    /// `>>`
    ShiftRight,
    /// `(`
    OpenParen,
    /// `)`
    CloseParen,
    /// `{`
    OpenBrace,
    /// `}`
    CloseBrace,
    /// `[`
    OpenBracket,
    /// `]`
    CloseBracket,
    /// `:`
    Colon,
    /// `;`
    Semicolon,
    /// `,`
    Comma,
    /// `?`
    Question,
    /// `=`
    Is,
    /// `<`
    Less,
    /// `+`
    Plus,
    /// `-`
    Minus,
    /// `*`
    Star,
    /// `&`
    Ampersand,
    /// `|`
    Bar,
    /// `^`
    Caret,
    /// `~`
    Tilde,
}

/// What a token is: a keyword, a sign, a name, or a number without or with a width.
#[derive(Drop)]
pub enum Kind {
    Word(Word),
    Sign(Sign),
    Name(Name),
    /// A number without a width.
    Number(u64),
    /// A number with a width: the width, then the number.
    Sized(u64, u64),
}

/// A token, the place of its first byte, and its span: from the first byte up to the one after the last.
#[derive(Drop)]
pub struct Token {
    pub kind: Kind,
    pub place: Place,
    pub from: usize,
    pub to: usize,
}

/// The tokens of a text, in their order.
#[derive(Drop)]
pub struct Tokens {
    list: Vec<Token>,
}

impl Model for Tokens {
    ghost use Rattle.std.specs.Prelude.{List};
    ghost use Rattle.sap_lex.specs.declared.token.Token.{Token};

    ghost Value = { List Token };

    ghost view = { λ tokens. tokens.list.items };
}

impl Tokens {
    pub(crate) fn new(list: Vec<Token>) -> Tokens
        ensures { result ≡ list.items }
    {
        Tokens { list }
    }

    pub fn as_slice(&self) -> &[Token]
        ensures { result.now ≡ self.now }
    {
        self.list.as_slice()
    }
}
