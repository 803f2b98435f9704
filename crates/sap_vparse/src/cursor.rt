//! The tokens that are left.

ghost use Rattle.std.specs.Prelude.{◌≡◌, ◌≢◌, ◌<◌, [], IfOk, false, length, true};
ghost use Rattle.sap_vtext.specs.Grammar.{IsConstant, IsDigit, IsName, IsNumber, IsSign, IsWord};
ghost use Rattle.sap_vtext.specs.Tokens as t;
ghost use Rattle.sap_vlex.specs.Spelling.{kind_of_token, sign_of, tokens_of, word_of};
ghost use Rattle.sap_vparse.specs.Reading.{Goes, Passes, ahead_of, constant_in, front_constant, front_name, front_number, head, head_of, here, name_in, number_in, of_name, of_nothing, of_number, of_sign, of_word};
ghost use Rattle.sap_vparse.specs.Table as s;
ghost use Rattle.sap_vparse.specs.Views.{constant_of, mention_of, number_of};

use crate::items::{Constant, Mention, Number};
use sap_net::parts::Name;
use sap_vlex::token::{Kind, Sign, Token, Word};
use std::alloc::{AllocError, AllocFailed, Global};
use std::marker::Model;

/// Why the reader stops, at the token where it is.
#[derive(Drop)]
pub enum Fault {
    /// The token cannot follow.
    Token,
    Memory,
}

impl From<AllocError> for Fault {
    ghost use Rattle.std.specs.Prelude.{◌≡◌};
    ghost use Rattle.sap_vparse.specs.declared.cursor.Fault.TheVariants.{Memory};

    ghost from_gives = { λ _ e. e ≡ Memory };

    fn from(_: AllocError) -> Fault {
        Fault::Memory
    }
}

impl<T: Drop> From<AllocFailed<T>> for Fault {
    ghost use Rattle.std.specs.Prelude.{◌≡◌};
    ghost use Rattle.sap_vparse.specs.declared.cursor.Fault.TheVariants.{Memory};

    ghost from_gives = { λ _ e. e ≡ Memory };

    fn from(_: AllocFailed<T>) -> Fault {
        Fault::Memory
    }
}

/// What kind of token comes.
#[derive(Clone, Copy, PartialEq, Eq)]
pub enum Ahead {
    Word(Word),
    Sign(Sign),
    Name,
    Number,
    Constant,
    Nothing,
}

fn ahead_of(kind: &Kind) -> Ahead
    ensures { ahead_of result ≡ head_of (kind_of_token kind.now) }
{
    match kind {
        Kind::Word(word) => Ahead::Word(*word),
        Kind::Sign(sign) => Ahead::Sign(*sign),
        Kind::Name(_) => Ahead::Name,
        Kind::Number(_, _) => Ahead::Number,
        Kind::Constant(_, _) => Ahead::Constant,
    }
}

fn number_in(kind: &Kind) -> Option<(u64, usize)>
    ensures { result ≡ number_in (kind_of_token kind.now) }
{
    match kind {
        Kind::Number(n, digits) => Some((*n, *digits)),
        Kind::Word(_) | Kind::Sign(_) | Kind::Name(_) | Kind::Constant(_, _) => None,
    }
}

fn constant_in(kind: &Kind) -> Option<(u64, u64)>
    ensures { result ≡ constant_in (kind_of_token kind.now) }
{
    match kind {
        Kind::Constant(width, n) => Some((*width, *n)),
        Kind::Word(_) | Kind::Sign(_) | Kind::Name(_) | Kind::Number(_, _) => None,
    }
}

fn name_in(alloc: Global, kind: &Kind) -> Result<Option<Name>, AllocError>
    ensures { IfOk result (λ name. name ≡ name_in (kind_of_token kind.now)) }
{
    match kind {
        Kind::Name(name) => Ok(Some(name.copy(alloc)?)),
        Kind::Word(_) | Kind::Sign(_) | Kind::Number(_, _) | Kind::Constant(_, _) => Ok(None),
    }
}

/// The tokens from `at` on.
#[derive(Drop)]
pub struct Cursor<'a> {
    tokens: &'a [Token],
    at: usize,
}

impl<'a> Model for Cursor<'a> {
    ghost use Rattle.std.specs.Prelude.{◌≤◌, List, drop, length};
    ghost use Rattle.sap_vtext.specs.Tokens.{Token};
    ghost use Rattle.sap_vlex.specs.Spelling.{tokens_of};

    ghost Value = { List Token };

    ghost view = { λ c. tokens_of (drop c.at c.tokens.now) };

    ghost invariant = { λ c. c.at ≤ length c.tokens.now };
}

impl<'a> Cursor<'a> {
    pub fn new(tokens: &'a [Token]) -> Cursor<'a>
        ensures { result ≡ tokens_of tokens.now }
    {
        Cursor { tokens, at: 0 }
    }

    /// What comes next.
    #[tactic(auto, using(crate::proofs::Fronts::fronts))]
    pub fn peek(&self) -> Ahead
        ensures { ahead_of result ≡ head self.now }
    {
        match self.tokens.get(self.at) {
            Some(token) => ahead_of(&token.kind),
            None => Ahead::Nothing,
        }
    }

    /// The place of the next token.
    #[tactic(auto, using(crate::proofs::Fronts::fronts))]
    pub fn here(&self) -> u64
        ensures { result ≡ here self.now }
    {
        match self.tokens.get(self.at) {
            Some(token) => token.place,
            None => 0,
        }
    }

    #[tactic(auto, using(crate::proofs::Fronts::fronts))]
    fn front_number(&self) -> Option<(u64, usize)>
        ensures { result ≡ front_number self.now }
    {
        match self.tokens.get(self.at) {
            Some(token) => number_in(&token.kind),
            None => None,
        }
    }

    #[tactic(auto, using(crate::proofs::Fronts::fronts))]
    fn front_constant(&self) -> Option<(u64, u64)>
        ensures { result ≡ front_constant self.now }
    {
        match self.tokens.get(self.at) {
            Some(token) => constant_in(&token.kind),
            None => None,
        }
    }

    #[tactic(auto, using(crate::proofs::Fronts::fronts))]
    fn front_name(&self, alloc: Global) -> Result<Option<Name>, AllocError>
        ensures { IfOk result (λ name. name ≡ front_name self.now) }
    {
        match self.tokens.get(self.at) {
            Some(token) => name_in(alloc, &token.kind),
            None => Ok(None),
        }
    }

    /// Goes past the next token, and gives its place.
    fn pass(&mut self) -> u64
        requires { 0 < length self.old }
        ensures { Passes self.old result self.new }
    {
        let place = self.tokens[self.at].place;
        self.at += 1;
        place
    }

    /// Whether this sign comes next.
    pub fn at_sign(&self, sign: Sign) -> bool
        ensures yes { result ≡ true → head self.now ≡ of_sign (sign_of sign) }
        ensures no { result ≡ false → head self.now ≢ of_sign (sign_of sign) }
    {
        self.peek() == Ahead::Sign(sign)
    }

    /// Whether this word comes next.
    pub fn at_word(&self, word: Word) -> bool
        ensures yes { result ≡ true → head self.now ≡ of_word (word_of word) }
        ensures no { result ≡ false → head self.now ≢ of_word (word_of word) }
    {
        self.peek() == Ahead::Word(word)
    }

    /// Whether a name comes next.
    pub fn at_name(&self) -> bool
        ensures yes { result ≡ true → head self.now ≡ of_name }
        ensures no { result ≡ false → head self.now ≢ of_name }
    {
        self.peek() == Ahead::Name
    }

    /// Whether a number comes next.
    pub fn at_number(&self) -> bool
        ensures yes { result ≡ true → head self.now ≡ of_number }
        ensures no { result ≡ false → head self.now ≢ of_number }
    {
        self.peek() == Ahead::Number
    }

    /// Whether nothing comes.
    pub fn at_end(&self) -> bool
        ensures yes { result ≡ true → self.now ≡ [] }
        ensures no { result ≡ false → head self.now ≢ of_nothing }
    {
        self.peek() == Ahead::Nothing
    }

    /// Takes this sign.
    pub fn sign(&mut self, sign: Sign) -> Result<(), Fault>
        ensures goes { Goes (s.sign (sign_of sign)) self.old result self.new }
        ensures tree { IfOk result (λ _. IsSign self.old (sign_of sign) self.new) }
        ensures shorter { IfOk result (λ _. length self.new < length self.old) }
    {
        if !self.at_sign(sign) {
            return Err(Fault::Token);
        }
        self.pass();
        Ok(())
    }

    /// Takes this word, and gives its place.
    pub fn word(&mut self, word: Word) -> Result<u64, Fault>
        ensures goes { Goes (s.word (word_of word)) self.old result self.new }
        ensures tree { IfOk result (λ _. IsWord self.old (word_of word) self.new) }
        ensures there { IfOk result (λ place. t.IsToken self.old place (t.word (word_of word)) self.new) }
        ensures shorter { IfOk result (λ _. length self.new < length self.old) }
    {
        if !self.at_word(word) {
            return Err(Fault::Token);
        }
        Ok(self.pass())
    }

    /// Takes a number.
    pub fn number(&mut self) -> Result<Number, Fault>
        ensures goes { Goes s.number self.old result self.new }
        ensures tree { IfOk result (λ n. IsNumber self.old (number_of n) self.new) }
        ensures shorter { IfOk result (λ _. length self.new < length self.old) }
    {
        match self.front_number() {
            Some((value, _)) => {
                let place = self.pass();
                Ok(Number { place, value })
            }
            None => Err(Fault::Token),
        }
    }

    /// Takes this number, written with one digit.
    pub fn digit(&mut self, digit: u64) -> Result<(), Fault>
        ensures goes { Goes (s.digit digit) self.old result self.new }
        ensures tree { IfOk result (λ _. IsDigit self.old digit self.new) }
        ensures shorter { IfOk result (λ _. length self.new < length self.old) }
    {
        match self.front_number() {
            Some((value, digits)) => {
                if value == digit && digits == 1 {
                    self.pass();
                    Ok(())
                } else {
                    Err(Fault::Token)
                }
            }
            None => Err(Fault::Token),
        }
    }

    /// Takes a constant.
    pub fn constant(&mut self) -> Result<Constant, Fault>
        ensures goes { Goes s.constant self.old result self.new }
        ensures tree { IfOk result (λ c. IsConstant self.old (constant_of c) self.new) }
        ensures shorter { IfOk result (λ _. length self.new < length self.old) }
    {
        match self.front_constant() {
            Some((width, value)) => {
                let place = self.pass();
                Ok(Constant {
                    place,
                    width,
                    value,
                })
            }
            None => Err(Fault::Token),
        }
    }

    /// Takes a name.
    pub fn name(&mut self, alloc: Global) -> Result<Mention, Fault>
        ensures goes { Goes s.name self.old result self.new }
        ensures tree { IfOk result (λ x. IsName self.old (mention_of x) self.new) }
        ensures shorter { IfOk result (λ _. length self.new < length self.old) }
    {
        match self.front_name(alloc)? {
            Some(name) => {
                let place = self.pass();
                Ok(Mention { place, name })
            }
            None => Err(Fault::Token),
        }
    }
}
