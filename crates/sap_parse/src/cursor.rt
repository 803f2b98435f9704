//! The tokens that are left.

ghost use Rattle.std.specs.Prelude.{◌≡◌, ◌≢◌, ◌<◌, [], IfErr, IfOk, None, false, length, true};
ghost use Rattle.sap_parse.specs.Reading.{Goes, IsBroken, Passes, ahead, ahead_of, front_name, front_number, front_sized, name_in, number_in, second, sized_in};
ghost use Rattle.sap_parse.specs.Stages.{IsName, IsNumber, IsSign, IsSized, IsWord, at_start, here, mention, numeral};
ghost use Rattle.sap_parse.specs.Table as s;

use crate::counts::{Counts, breach_of_name};
use crate::role::Role;
use sap_lex::limit::Limit;
use sap_lex::token::{Kind, Sign, Token};
use sap_tree::name::{Mention, Name};
use sap_tree::place::Place;
use sap_tree::syntax::Numeral;
use sap_tree::word::Word;
use std::alloc::{AllocError, AllocFailed, Global};
use std::marker::Model;

/// Why the reader stops, at the token where it is.
#[derive(Drop)]
pub enum Fault {
    /// The token cannot follow.
    Token,
    Limit(Limit),
    Memory,
}

impl From<AllocError> for Fault {
    ghost use Rattle.std.specs.Prelude.{◌≡◌};
    ghost use Rattle.sap_parse.specs.declared.cursor.Fault.TheVariants.{Memory};

    ghost from_gives = { λ _ e. e ≡ Memory };

    fn from(_: AllocError) -> Fault {
        Fault::Memory
    }
}

impl<T: Drop> From<AllocFailed<T>> for Fault {
    ghost use Rattle.std.specs.Prelude.{◌≡◌};
    ghost use Rattle.sap_parse.specs.declared.cursor.Fault.TheVariants.{Memory};

    ghost from_gives = { λ _ e. e ≡ Memory };

    fn from(_: AllocFailed<T>) -> Fault {
        Fault::Memory
    }
}

/// What kind of token comes.
#[derive(Clone, Copy, PartialEq, Eq)]
pub enum Ahead {
    Word(Word),
    Sign(Sign),
    Name,
    Number,
    Sized,
    Nothing,
}

fn ahead_of(kind: &Kind) -> Ahead
    ensures { result ≡ ahead_of kind.now }
{
    match kind {
        Kind::Word(word) => Ahead::Word(*word),
        Kind::Sign(sign) => Ahead::Sign(*sign),
        Kind::Name(_) => Ahead::Name,
        Kind::Number(_) => Ahead::Number,
        Kind::Sized(_, _) => Ahead::Sized,
    }
}

fn number_in(kind: &Kind) -> Option<u64>
    ensures { result ≡ number_in kind.now }
{
    match kind {
        Kind::Number(n) => Some(*n),
        Kind::Word(_) | Kind::Sign(_) | Kind::Name(_) | Kind::Sized(_, _) => None,
    }
}

fn sized_in(kind: &Kind) -> Option<(u64, u64)>
    ensures { result ≡ sized_in kind.now }
{
    match kind {
        Kind::Sized(width, n) => Some((*width, *n)),
        Kind::Word(_) | Kind::Sign(_) | Kind::Name(_) | Kind::Number(_) => None,
    }
}

fn name_in(alloc: Global, kind: &Kind) -> Result<Option<Name>, AllocError>
    ensures { IfOk result (λ name. name ≡ name_in kind.now) }
{
    match kind {
        Kind::Name(name) => Ok(Some(name.copy(alloc)?)),
        Kind::Word(_) | Kind::Sign(_) | Kind::Number(_) | Kind::Sized(_, _) => Ok(None),
    }
}

/// The tokens from `at` on, after tokens that amount to `counts`.
#[derive(Drop)]
pub struct Cursor<'a> {
    tokens: &'a [Token],
    at: usize,
    counts: Counts,
}

impl<'a> Model for Cursor<'a> {
    ghost use Rattle.std.specs.Prelude.{◌≤◌, length};
    ghost use Rattle.sap_parse.specs.Counting.{counts_of};
    ghost use Rattle.sap_parse.specs.Reading.{stage_at};
    ghost use Rattle.sap_parse.specs.Stages.{Stage};

    ghost Value = { Stage };

    ghost view = { λ c. stage_at c.tokens.now c.at (counts_of c.counts) };

    ghost invariant = { λ c. c.at ≤ length c.tokens.now };
}

impl<'a> Cursor<'a> {
    pub fn new(tokens: &'a [Token]) -> Cursor<'a>
        ensures { result ≡ at_start tokens.now }
    {
        Cursor {
            tokens,
            at: 0,
            counts: Counts::new(),
        }
    }

    /// What comes next.
    #[tactic(auto, using(crate::proofs::Fronts::fronts))]
    pub fn peek(&self) -> Ahead
        ensures { result ≡ ahead self.now.left }
    {
        match self.tokens.get(self.at) {
            Some(token) => ahead_of(&token.kind),
            None => Ahead::Nothing,
        }
    }

    /// What comes behind the next token.
    #[tactic(auto, using(crate::proofs::Fronts::fronts))]
    pub fn peek_second(&self) -> Ahead
        ensures { result ≡ second self.now.left }
    {
        if self.at + 1 < self.tokens.len() {
            ahead_of(&self.tokens[self.at + 1].kind)
        } else {
            Ahead::Nothing
        }
    }

    /// The place of the next token.
    #[tactic(auto, using(crate::proofs::Fronts::fronts))]
    pub fn here(&self) -> Place
        ensures { result ≡ here self.now }
    {
        match self.tokens.get(self.at) {
            Some(token) => token.place,
            None => Place { line: 0, column: 0 },
        }
    }

    #[tactic(auto, using(crate::proofs::Fronts::fronts))]
    fn front_number(&self) -> Option<u64>
        ensures { result ≡ front_number self.now.left }
    {
        match self.tokens.get(self.at) {
            Some(token) => number_in(&token.kind),
            None => None,
        }
    }

    #[tactic(auto, using(crate::proofs::Fronts::fronts))]
    fn front_sized(&self) -> Option<(u64, u64)>
        ensures { result ≡ front_sized self.now.left }
    {
        match self.tokens.get(self.at) {
            Some(token) => sized_in(&token.kind),
            None => None,
        }
    }

    #[tactic(auto, using(crate::proofs::Fronts::fronts))]
    fn front_name(&self, alloc: Global) -> Result<Option<Name>, AllocError>
        ensures { IfOk result (λ name. name ≡ front_name self.now.left) }
    {
        match self.tokens.get(self.at) {
            Some(token) => name_in(alloc, &token.kind),
            None => Ok(None),
        }
    }

    /// Goes past the next token in this role, unless it breaks a limit.
    #[tactic(auto, using(crate::proofs::Fronts::passing))]
    fn pass(&mut self, role: Role) -> Result<Place, Fault>
        requires { 0 < length self.old.left }
        ensures passes { IfOk result (λ _. (token : Token) × Passes self.old role token self.new) }
        ensures place { IfOk result (λ place. place ≡ here self.old) }
        ensures breaks { IfErr result (IsBroken self.old role self.new) }
    {
        let token = &self.tokens[self.at];
        let place = token.place;
        if let Some(limit) = breach_of_name(&token.kind) {
            return Err(Fault::Limit(limit));
        }
        if let Some(limit) = self.counts.breach(role) {
            return Err(Fault::Limit(limit));
        }
        self.counts = self.counts.tally(role);
        self.at += 1;
        Ok(place)
    }

    /// No token before broke a limit.
    pub fn breaks_nothing(&self)
        ensures { self.now.past.first ≡ None }
    {
        let _ = &self.tokens;
    }

    /// Whether this sign comes next.
    pub fn at_sign(&self, sign: Sign) -> bool
        ensures yes { result ≡ true → ahead self.now.left ≡ Ahead.Sign sign }
        ensures no { result ≡ false → ahead self.now.left ≢ Ahead.Sign sign }
    {
        self.peek() == Ahead::Sign(sign)
    }

    /// Whether this word comes next.
    pub fn at_word(&self, word: Word) -> bool
        ensures yes { result ≡ true → ahead self.now.left ≡ Ahead.Word word }
        ensures no { result ≡ false → ahead self.now.left ≢ Ahead.Word word }
    {
        self.peek() == Ahead::Word(word)
    }

    /// Whether nothing comes.
    #[tactic(auto, using(crate::proofs::Fronts::nothings))]
    pub fn at_end(&self) -> bool
        ensures yes { result ≡ true → ahead self.now.left ≡ Ahead.Nothing }
        ensures end { result ≡ true → self.now.left ≡ [] }
        ensures no { result ≡ false → ahead self.now.left ≢ Ahead.Nothing }
    {
        self.peek() == Ahead::Nothing
    }

    /// Whether a name comes next.
    pub fn at_name(&self) -> bool
        ensures yes { result ≡ true → ahead self.now.left ≡ Ahead.Name }
        ensures no { result ≡ false → ahead self.now.left ≢ Ahead.Name }
    {
        self.peek() == Ahead::Name
    }

    /// Takes this sign.
    #[tactic(auto, using(crate::proofs::Fronts::somes))]
    pub fn sign(&mut self, role: Role, sign: Sign) -> Result<Place, Fault>
        ensures goes { Goes (s.sign role sign) self.old result self.new }
        ensures tree { IfOk result (λ place. IsSign self.old role sign self.new) }
        ensures place { IfOk result (λ place. place ≡ here self.old) }
        ensures shorter { IfOk result (λ _. length self.new.left < length self.old.left) }
    {
        if self.at_sign(sign) {
            self.pass(role)
        } else {
            Err(Fault::Token)
        }
    }

    /// Takes this word.
    #[tactic(auto, using(crate::proofs::Fronts::somes))]
    pub fn word(&mut self, role: Role, word: Word) -> Result<Place, Fault>
        ensures goes { Goes (s.word role word) self.old result self.new }
        ensures tree { IfOk result (λ place. IsWord self.old role word self.new) }
        ensures place { IfOk result (λ place. place ≡ here self.old) }
        ensures shorter { IfOk result (λ _. length self.new.left < length self.old.left) }
    {
        if self.at_word(word) {
            self.pass(role)
        } else {
            Err(Fault::Token)
        }
    }

    /// Takes a number.
    #[tactic(auto, using(crate::proofs::Single::numbers, crate::proofs::Fronts::somes))]
    pub fn number(&mut self, role: Role) -> Result<Numeral, Fault>
        ensures goes { Goes (s.number role) self.old result self.new }
        ensures tree { IfOk result (λ n. IsNumber self.old role n.value self.new) }
        ensures place { IfOk result (λ n. n ≡ numeral self.old n.value) }
        ensures shorter { IfOk result (λ _. length self.new.left < length self.old.left) }
    {
        match self.front_number() {
            Some(value) => {
                let place = self.pass(role)?;
                Ok(Numeral { place, value })
            }
            None => Err(Fault::Token),
        }
    }

    /// Takes a number with a width, and gives the width, then the number.
    #[tactic(auto, using(crate::proofs::Single::sizeds, crate::proofs::Fronts::somes))]
    pub fn sized(&mut self, role: Role) -> Result<(u64, u64), Fault>
        ensures goes { Goes (s.sized role) self.old result self.new }
        ensures tree { IfOk result (λ n. IsSized self.old role n.0 n.1 self.new) }
        ensures shorter { IfOk result (λ _. length self.new.left < length self.old.left) }
    {
        match self.front_sized() {
            Some(sized) => {
                self.pass(role)?;
                Ok(sized)
            }
            None => Err(Fault::Token),
        }
    }

    /// Whether a number and `:` come next.
    #[tactic(auto)]
    pub fn at_slice(&self) -> bool
        ensures yes { result ≡ true → (ahead self.now.left ≡ Ahead.Number) × (second self.now.left ≡ Ahead.Sign Sign.Colon) }
        ensures no { result ≡ false → ahead self.now.left ≡ Ahead.Number → second self.now.left ≢ Ahead.Sign Sign.Colon }
    {
        self.peek() == Ahead::Number && self.peek_second() == Ahead::Sign(Sign::Colon)
    }

    /// Takes a name.
    #[tactic(auto, using(crate::proofs::Single::names, crate::proofs::Fronts::somes))]
    pub fn name(&mut self, alloc: Global, role: Role) -> Result<Mention, Fault>
        ensures goes { Goes (s.any_name role) self.old result self.new }
        ensures tree { IfOk result (λ n. IsName self.old role n.name self.new) }
        ensures place { IfOk result (λ n. n ≡ mention self.old n.name) }
        ensures shorter { IfOk result (λ _. length self.new.left < length self.old.left) }
    {
        match self.front_name(alloc)? {
            Some(name) => {
                let place = self.pass(role)?;
                Ok(Mention { place, name })
            }
            None => Err(Fault::Token),
        }
    }
}
