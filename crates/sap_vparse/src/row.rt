//! The reader of tokens in a row.

ghost use Rattle.std.specs.Prelude.{◌≡◌, ◌+◌, ◌≤◌, ◌<◌, ◌∷◌, IfOk, length};
ghost use Rattle.sap_vparse.specs.Reading.{Goes, here};
ghost use Rattle.sap_vparse.specs.Rows.{AreFixed, ConstantThen, GoesOn, IsFixed, NameThen, NumberThen, symbol_of, symbols_of};
ghost use Rattle.sap_vparse.specs.Table as s;
ghost use Rattle.sap_vparse.specs.Views.{constant_of, mention_of, number_of};

use crate::cursor::{Cursor, Fault};
use crate::items::{Constant, Mention, Number};
use sap_vlex::token::{Sign, Word};
use std::alloc::Global;

/// A token that has one spelling.
#[derive(Clone, Copy)]
pub enum Fixed {
    Word(Word),
    Sign(Sign),
    Digit(u64),
}

/// `,`
pub const COMMA: [Fixed; 1] = [Fixed::Sign(Sign::Comma)];

/// `:`
pub const COLON: [Fixed; 1] = [Fixed::Sign(Sign::Colon)];

/// `;`
pub const SEMICOLON: [Fixed; 1] = [Fixed::Sign(Sign::Semicolon)];

/// `=`
pub const IS: [Fixed; 1] = [Fixed::Sign(Sign::Is)];

/// `<=`
pub const BECOMES: [Fixed; 1] = [Fixed::Sign(Sign::LessOrEqual)];

/// `[`
pub const OPEN_BRACKET: [Fixed; 1] = [Fixed::Sign(Sign::OpenBracket)];

/// `)`
pub const CLOSE_PAREN: [Fixed; 1] = [Fixed::Sign(Sign::CloseParen)];

/// `] ;`
pub const CLOSE_BRACKET: [Fixed; 2] = [
    Fixed::Sign(Sign::CloseBracket),
    Fixed::Sign(Sign::Semicolon),
];

/// `: 0 ]`
pub const TO_ZERO: [Fixed; 3] = [
    Fixed::Sign(Sign::Colon),
    Fixed::Digit(0),
    Fixed::Sign(Sign::CloseBracket),
];

/// `[ 0 :`
pub const FROM_ZERO: [Fixed; 3] = [
    Fixed::Sign(Sign::OpenBracket),
    Fixed::Digit(0),
    Fixed::Sign(Sign::Colon),
];

/// `integer i ;`
pub const INTEGER: [Fixed; 3] = [
    Fixed::Word(Word::Integer),
    Fixed::Word(Word::I),
    Fixed::Sign(Sign::Semicolon),
];

/// `for (`
pub const LOOP: [Fixed; 2] = [Fixed::Word(Word::For), Fixed::Sign(Sign::OpenParen)];

/// `i = 0 ; i <`
pub const START: [Fixed; 6] = [
    Fixed::Word(Word::I),
    Fixed::Sign(Sign::Is),
    Fixed::Digit(0),
    Fixed::Sign(Sign::Semicolon),
    Fixed::Word(Word::I),
    Fixed::Sign(Sign::Less),
];

/// `; i = i + 1 )`
pub const STEP: [Fixed; 7] = [
    Fixed::Sign(Sign::Semicolon),
    Fixed::Word(Word::I),
    Fixed::Sign(Sign::Is),
    Fixed::Word(Word::I),
    Fixed::Sign(Sign::Plus),
    Fixed::Digit(1),
    Fixed::Sign(Sign::CloseParen),
];

/// `[ i ] =`
pub const AT_I: [Fixed; 4] = [
    Fixed::Sign(Sign::OpenBracket),
    Fixed::Word(Word::I),
    Fixed::Sign(Sign::CloseBracket),
    Fixed::Sign(Sign::Is),
];

/// `always @ ( posedge clk )`
pub const CLOCKED: [Fixed; 6] = [
    Fixed::Word(Word::Always),
    Fixed::Sign(Sign::At),
    Fixed::Sign(Sign::OpenParen),
    Fixed::Word(Word::Posedge),
    Fixed::Word(Word::Clk),
    Fixed::Sign(Sign::CloseParen),
];

/// `if (`
pub const CONDITION: [Fixed; 2] = [Fixed::Word(Word::If), Fixed::Sign(Sign::OpenParen)];

/// `] <=`
pub const CELL_BECOMES: [Fixed; 2] = [
    Fixed::Sign(Sign::CloseBracket),
    Fixed::Sign(Sign::LessOrEqual),
];

/// `( input clk`
pub const PORTS: [Fixed; 3] = [
    Fixed::Sign(Sign::OpenParen),
    Fixed::Word(Word::Input),
    Fixed::Word(Word::Clk),
];

/// Takes this token.
fn take(tokens: &mut Cursor<'_>, token: Fixed) -> Result<(), Fault>
    ensures goes { Goes (symbol_of token) tokens.old result tokens.new }
    ensures tree { IfOk result (λ _. IsFixed tokens.old token tokens.new) }
    ensures shorter { IfOk result (λ _. length tokens.new < length tokens.old) }
{
    match token {
        Fixed::Word(word) => {
            tokens.word(word)?;
            Ok(())
        }
        Fixed::Sign(sign) => tokens.sign(sign),
        Fixed::Digit(digit) => tokens.digit(digit),
    }
}

/// Takes these tokens, and gives the place of the first.
#[tactic(auto, using(crate::proofs::Rows::rows))]
pub fn row(tokens: &mut Cursor<'_>, row: &[Fixed]) -> Result<u64, Fault>
    ensures goes { GoesOn (symbols_of row.now) tokens.old result tokens.new }
    ensures tree { IfOk result (λ _. AreFixed tokens.old row.now tokens.new) }
    ensures place { IfOk result (λ place. place ≡ here tokens.old) }
    ensures shorter { IfOk result (λ _. length tokens.new + length row.now ≤ length tokens.old) }
{
    let place = tokens.here();
    'row: for token in row {
        take(tokens, *token)?;
    }
    Ok(place)
}

/// Takes a number, and then these tokens.
#[tactic(auto, using(crate::proofs::Rows::rows))]
pub fn number_then(tokens: &mut Cursor<'_>, behind: &[Fixed]) -> Result<Number, Fault>
    ensures goes { GoesOn (s.number ∷ symbols_of behind.now) tokens.old result tokens.new }
    ensures tree { IfOk result (λ n. NumberThen tokens.old (number_of n) behind.now tokens.new) }
    ensures shorter { IfOk result (λ _. length tokens.new < length tokens.old) }
{
    let number = tokens.number()?;
    row(tokens, behind)?;
    Ok(number)
}

/// Takes a constant, and then these tokens.
#[tactic(auto, using(crate::proofs::Rows::rows))]
pub fn constant_then(tokens: &mut Cursor<'_>, behind: &[Fixed]) -> Result<Constant, Fault>
    ensures goes { GoesOn (s.constant ∷ symbols_of behind.now) tokens.old result tokens.new }
    ensures tree { IfOk result (λ c. ConstantThen tokens.old (constant_of c) behind.now tokens.new) }
    ensures shorter { IfOk result (λ _. length tokens.new < length tokens.old) }
{
    let constant = tokens.constant()?;
    row(tokens, behind)?;
    Ok(constant)
}

/// Takes a name, and then these tokens.
#[tactic(auto, using(crate::proofs::Rows::rows))]
pub fn name_then(alloc: Global, tokens: &mut Cursor<'_>, behind: &[Fixed]) -> Result<Mention, Fault>
    ensures goes { GoesOn (s.name ∷ symbols_of behind.now) tokens.old result tokens.new }
    ensures tree { IfOk result (λ x. NameThen tokens.old (mention_of x) behind.now tokens.new) }
    ensures shorter { IfOk result (λ _. length tokens.new < length tokens.old) }
{
    let name = tokens.name(alloc)?;
    row(tokens, behind)?;
    Ok(name)
}
