//! What the reader chooses by the next token.

ghost use Rattle.std.specs.Prelude.{◌≡◌};
ghost use Rattle.sap_vtext.specs.Grammar as g;
ghost use Rattle.sap_vlex.specs.Spelling.{sign_of, word_of};
ghost use Rattle.sap_vparse.specs.Choices.{after_head, item_head, right_head, sign_after, sign_right, word_item};
ghost use Rattle.sap_vparse.specs.Reading.{ahead_of};

use crate::cursor::Ahead;
use sap_bits::{Op1, Op2};
use sap_vlex::token::{Sign, Word};

/// What a token begins as the right side of an `assign`; a constant where it begins none.
#[derive(Clone, Copy)]
pub enum RightHead {
    One(Op1),
    Concat,
    Name,
    Constant,
}

/// What a token begins behind a first operand; the end where it begins nothing.
#[derive(Clone, Copy)]
pub enum AfterHead {
    Two(Op2),
    Choose,
    End,
}

/// What a token begins as an item; an `always` where it begins none.
#[derive(Clone, Copy)]
pub enum ItemHead {
    Wire,
    Register,
    Integer,
    Assign,
    Initial,
    Always,
}

fn sign_right(sign: Sign) -> RightHead
    ensures { result ≡ sign_right (sign_of sign) }
{
    match sign {
        Sign::Tilde => RightHead::One(Op1::Not),
        Sign::Minus => RightHead::One(Op1::Neg),
        Sign::Ampersand => RightHead::One(Op1::AllOnes),
        Sign::Bar => RightHead::One(Op1::AnyOne),
        Sign::Caret => RightHead::One(Op1::Odd),
        Sign::OpenBrace => RightHead::Concat,
        _ => RightHead::Constant,
    }
}

#[tactic(auto, unfolding(crate::specs::Choices::right_head))]
pub(crate) fn right_head(ahead: Ahead) -> RightHead
    ensures { result ≡ right_head (ahead_of ahead) }
{
    match ahead {
        Ahead::Sign(sign) => sign_right(sign),
        Ahead::Name => RightHead::Name,
        Ahead::Word(_) | Ahead::Number | Ahead::Constant | Ahead::Nothing => RightHead::Constant,
    }
}

fn sign_after(sign: Sign) -> AfterHead
    ensures { result ≡ sign_after (sign_of sign) }
{
    match sign {
        Sign::Plus => AfterHead::Two(Op2::Add),
        Sign::Minus => AfterHead::Two(Op2::Sub),
        Sign::Star => AfterHead::Two(Op2::Mul),
        Sign::Ampersand => AfterHead::Two(Op2::And),
        Sign::Bar => AfterHead::Two(Op2::Or),
        Sign::Caret => AfterHead::Two(Op2::Xor),
        Sign::Equal => AfterHead::Two(Op2::Eq),
        Sign::NotEqual => AfterHead::Two(Op2::Ne),
        Sign::Less => AfterHead::Two(Op2::Lt),
        Sign::LessOrEqual => AfterHead::Two(Op2::Le),
        Sign::ShiftLeft => AfterHead::Two(Op2::Shl),
        Sign::ShiftRight => AfterHead::Two(Op2::Shr),
        Sign::Question => AfterHead::Choose,
        _ => AfterHead::End,
    }
}

#[tactic(auto, unfolding(crate::specs::Choices::after_head))]
pub(crate) fn after_head(ahead: Ahead) -> AfterHead
    ensures { result ≡ after_head (ahead_of ahead) }
{
    match ahead {
        Ahead::Sign(sign) => sign_after(sign),
        Ahead::Word(_) | Ahead::Name | Ahead::Number | Ahead::Constant | Ahead::Nothing =>
            AfterHead::End,
    }
}

fn word_item(word: Word) -> ItemHead
    ensures { result ≡ word_item (word_of word) }
{
    match word {
        Word::Wire => ItemHead::Wire,
        Word::Reg => ItemHead::Register,
        Word::Integer => ItemHead::Integer,
        Word::Assign => ItemHead::Assign,
        Word::Initial => ItemHead::Initial,
        _ => ItemHead::Always,
    }
}

#[tactic(auto, unfolding(crate::specs::Choices::item_head))]
pub(crate) fn item_head(ahead: Ahead) -> ItemHead
    ensures { result ≡ item_head (ahead_of ahead) }
{
    match ahead {
        Ahead::Word(word) => word_item(word),
        Ahead::Sign(_) | Ahead::Name | Ahead::Number | Ahead::Constant | Ahead::Nothing =>
            ItemHead::Always,
    }
}

pub(crate) fn unary_sign(op: Op1) -> Sign
    ensures { sign_of result ≡ g.unary_sign op }
{
    match op {
        Op1::Not => Sign::Tilde,
        Op1::Neg => Sign::Minus,
        Op1::AllOnes => Sign::Ampersand,
        Op1::AnyOne => Sign::Bar,
        Op1::Odd => Sign::Caret,
    }
}

pub(crate) fn binary_sign(op: Op2) -> Sign
    ensures { sign_of result ≡ g.binary_sign op }
{
    match op {
        Op2::Add => Sign::Plus,
        Op2::Sub => Sign::Minus,
        Op2::Mul => Sign::Star,
        Op2::And => Sign::Ampersand,
        Op2::Or => Sign::Bar,
        Op2::Xor => Sign::Caret,
        Op2::Eq => Sign::Equal,
        Op2::Ne => Sign::NotEqual,
        Op2::Lt => Sign::Less,
        Op2::Le => Sign::LessOrEqual,
        Op2::Shl => Sign::ShiftLeft,
        Op2::Shr => Sign::ShiftRight,
    }
}
