//! The tokens of a module's text.

use sap_net::parts::Name;

/// A keyword.
#[derive(Clone, Copy, PartialEq, Eq)]
pub enum Word {
    Module,
    Endmodule,
    Input,
    Output,
    Reg,
    Wire,
    Assign,
    Initial,
    Always,
    Posedge,
    If,
    For,
    Integer,
    Clk,
    I,
}

/// A sign.
#[derive(Clone, Copy, PartialEq, Eq)]
pub enum Sign {
    /// `(`
    OpenParen,
    /// `)`
    CloseParen,
    /// `{`
    OpenBrace,
    /// `}`
    CloseBrace,
    /// `[`
    OpenBracket,
    /// `]`
    CloseBracket,
    /// `,`
    Comma,
    /// `;`
    Semicolon,
    /// `:`
    Colon,
    /// `?`
    Question,
    /// `@`
    At,
    /// `=`
    Is,
    /// `==`
    Equal,
    /// `!=`
    NotEqual,
    /// `<`
    Less,
    /// `<=`
    LessOrEqual,
    /// `<<`
    ShiftLeft,
    /// `>>`
    ShiftRight,
    /// `+`
    Plus,
    /// `-`
    Minus,
    /// `*`
    Star,
    /// `&`
    Ampersand,
    /// `|`
    Bar,
    /// `^`
    Caret,
    /// `~`
    Tilde,
}

/// What a token is.
#[derive(Drop)]
pub enum Kind {
    Word(Word),
    Sign(Sign),
    Name(Name),
    /// A number, and how many digits it is written with.
    Number(u64, usize),
    /// A width, and a number.
    Constant(u64, u64),
}

/// A token, and how many bytes of the text stand before it.
#[derive(Drop)]
pub struct Token {
    pub place: u64,
    pub kind: Kind,
}
