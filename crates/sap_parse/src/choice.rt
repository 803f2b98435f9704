//! What the reader chooses by the next token.

ghost use Rattle.std.specs.Prelude.{◌≡◌};
ghost use Rattle.sap_parse.specs.Choices.{command_head, declaration_head, of_precedence, operator_at, primary_of, sign_primary, tag_head, unary_at, unary_operator_of, word_command, word_declaration, word_primary, word_tag};
ghost use Rattle.sap_parse.specs.Grammar.{sign_of, unary_sign_of};
ghost use Rattle.sap_parse.specs.Table.{operator_of};

use crate::cursor::Ahead;
use sap_lex::token::Sign;
use sap_tree::syntax::{BinaryOperator, UnaryOperator};
use sap_tree::word::Word;

/// What a token begins as an operand.
#[derive(Clone, Copy)]
pub enum Primary {
    Number,
    Sized,
    Paren,
    Braces,
    Zext,
    Neither,
}

/// What a token begins as a tag expression.
#[derive(Clone, Copy)]
pub enum TagHead {
    Name,
    Tag,
    Level,
    Join,
    Neither,
}

/// What a token begins as a command.
#[derive(Clone, Copy, PartialEq, Eq)]
pub enum CommandHead {
    Name,
    SetTag,
    Goto,
    Fall,
    If,
    Case,
    Neither,
}

/// What a token begins as a declaration.
#[derive(Clone, Copy, PartialEq, Eq)]
pub enum DeclarationHead {
    Input,
    Register,
    Memory,
    Neither,
}

fn sign_primary(sign: Sign) -> Primary
    ensures { result ≡ sign_primary sign }
{
    match sign {
        Sign::OpenParen => Primary::Paren,
        Sign::OpenBrace => Primary::Braces,
        _ => Primary::Neither,
    }
}

fn word_primary(word: Word) -> Primary
    ensures { result ≡ word_primary word }
{
    match word {
        Word::Zext => Primary::Zext,
        _ => Primary::Neither,
    }
}

#[tactic(auto, unfolding(crate::specs::Choices::primary_of))]
pub(crate) fn primary_of(ahead: Ahead) -> Primary
    ensures { result ≡ primary_of ahead }
{
    match ahead {
        Ahead::Number => Primary::Number,
        Ahead::Sized => Primary::Sized,
        Ahead::Sign(sign) => sign_primary(sign),
        Ahead::Word(word) => word_primary(word),
        Ahead::Name | Ahead::Nothing => Primary::Neither,
    }
}

fn operator_of(sign: Sign) -> Option<BinaryOperator>
    ensures { result ≡ operator_of sign }
{
    match sign {
        Sign::Bar => Some(BinaryOperator::Or),
        Sign::Caret => Some(BinaryOperator::Xor),
        Sign::Ampersand => Some(BinaryOperator::And),
        Sign::Equal => Some(BinaryOperator::Eq),
        Sign::NotEqual => Some(BinaryOperator::Ne),
        Sign::Less => Some(BinaryOperator::Lt),
        Sign::LessOrEqual => Some(BinaryOperator::Le),
        Sign::ShiftLeft => Some(BinaryOperator::Shl),
        Sign::ShiftRight => Some(BinaryOperator::Shr),
        Sign::Plus => Some(BinaryOperator::Add),
        Sign::Minus => Some(BinaryOperator::Sub),
        Sign::Star => Some(BinaryOperator::Mul),
        _ => None,
    }
}

pub(crate) fn sign_of(operator: BinaryOperator) -> Sign
    ensures { result ≡ sign_of operator }
{
    match operator {
        BinaryOperator::Or => Sign::Bar,
        BinaryOperator::Xor => Sign::Caret,
        BinaryOperator::And => Sign::Ampersand,
        BinaryOperator::Eq => Sign::Equal,
        BinaryOperator::Ne => Sign::NotEqual,
        BinaryOperator::Lt => Sign::Less,
        BinaryOperator::Le => Sign::LessOrEqual,
        BinaryOperator::Shl => Sign::ShiftLeft,
        BinaryOperator::Shr => Sign::ShiftRight,
        BinaryOperator::Add => Sign::Plus,
        BinaryOperator::Sub => Sign::Minus,
        BinaryOperator::Mul => Sign::Star,
    }
}

fn of_precedence(level: u32, operator: Option<BinaryOperator>) -> Option<BinaryOperator>
    ensures { result ≡ of_precedence level operator }
{
    match operator {
        Some(operator) => (operator.precedence() == level).then_some(operator),
        None => None,
    }
}

/// The operator of this precedence that comes, if one does.
#[tactic(auto, unfolding(crate::specs::Choices::operator_at))]
pub(crate) fn operator_at(level: u32, ahead: Ahead) -> Option<BinaryOperator>
    ensures { result ≡ operator_at level ahead }
{
    match ahead {
        Ahead::Sign(sign) => of_precedence(level, operator_of(sign)),
        Ahead::Word(_) | Ahead::Number | Ahead::Sized | Ahead::Name | Ahead::Nothing => None,
    }
}

fn unary_operator_of(sign: Sign) -> Option<UnaryOperator>
    ensures { result ≡ unary_operator_of sign }
{
    match sign {
        Sign::Tilde => Some(UnaryOperator::Not),
        Sign::Minus => Some(UnaryOperator::Neg),
        Sign::Ampersand => Some(UnaryOperator::AllOnes),
        Sign::Bar => Some(UnaryOperator::AnyOne),
        Sign::Caret => Some(UnaryOperator::Odd),
        _ => None,
    }
}

pub(crate) fn unary_sign_of(operator: UnaryOperator) -> Sign
    ensures { result ≡ unary_sign_of operator }
{
    match operator {
        UnaryOperator::Not => Sign::Tilde,
        UnaryOperator::Neg => Sign::Minus,
        UnaryOperator::AllOnes => Sign::Ampersand,
        UnaryOperator::AnyOne => Sign::Bar,
        UnaryOperator::Odd => Sign::Caret,
    }
}

/// The unary operator that comes, if one does.
#[tactic(auto, unfolding(crate::specs::Choices::unary_at))]
pub(crate) fn unary_at(ahead: Ahead) -> Option<UnaryOperator>
    ensures { result ≡ unary_at ahead }
{
    match ahead {
        Ahead::Sign(sign) => unary_operator_of(sign),
        Ahead::Word(_) | Ahead::Number | Ahead::Sized | Ahead::Name | Ahead::Nothing => None,
    }
}

fn word_tag(word: Word) -> TagHead
    ensures { result ≡ word_tag word }
{
    match word {
        Word::Tag => TagHead::Tag,
        Word::Level => TagHead::Level,
        Word::Join => TagHead::Join,
        _ => TagHead::Neither,
    }
}

#[tactic(auto, unfolding(crate::specs::Choices::tag_head))]
pub(crate) fn tag_head(ahead: Ahead) -> TagHead
    ensures { result ≡ tag_head ahead }
{
    match ahead {
        Ahead::Name => TagHead::Name,
        Ahead::Word(word) => word_tag(word),
        Ahead::Sign(_) | Ahead::Number | Ahead::Sized | Ahead::Nothing => TagHead::Neither,
    }
}

fn word_command(word: Word) -> CommandHead
    ensures { result ≡ word_command word }
{
    match word {
        Word::SetTag => CommandHead::SetTag,
        Word::Goto => CommandHead::Goto,
        Word::Fall => CommandHead::Fall,
        Word::If => CommandHead::If,
        Word::Case => CommandHead::Case,
        _ => CommandHead::Neither,
    }
}

#[tactic(auto, unfolding(crate::specs::Choices::command_head))]
pub(crate) fn command_head(ahead: Ahead) -> CommandHead
    ensures { result ≡ command_head ahead }
{
    match ahead {
        Ahead::Name => CommandHead::Name,
        Ahead::Word(word) => word_command(word),
        Ahead::Sign(_) | Ahead::Number | Ahead::Sized | Ahead::Nothing => CommandHead::Neither,
    }
}

fn word_declaration(word: Word) -> DeclarationHead
    ensures { result ≡ word_declaration word }
{
    match word {
        Word::Input => DeclarationHead::Input,
        Word::Reg => DeclarationHead::Register,
        Word::Mem => DeclarationHead::Memory,
        _ => DeclarationHead::Neither,
    }
}

#[tactic(auto, unfolding(crate::specs::Choices::declaration_head))]
pub(crate) fn declaration_head(ahead: Ahead) -> DeclarationHead
    ensures { result ≡ declaration_head ahead }
{
    match ahead {
        Ahead::Word(word) => word_declaration(word),
        Ahead::Name | Ahead::Sign(_) | Ahead::Number | Ahead::Sized | Ahead::Nothing =>
            DeclarationHead::Neither,
    }
}
