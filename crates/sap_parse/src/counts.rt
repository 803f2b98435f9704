//! What the tokens so far amount to.

ghost use Rattle.std.specs.Prelude.{◌≡◌, ◌+◌, None};
ghost use Rattle.sap_lex.specs.declared.token.Token.{Token};
ghost use Rattle.sap_parse.specs.Counting.{counts_of};
ghost use Rattle.sap_parse.specs.Limits.{above, breach_of_name, breach_of_role, none_yet, outside, tally};

use crate::role::Role;
use sap_lex::limit::Limit;
use sap_lex::token::Kind;

const MOST_NAME_BYTES: u64 = 40;

const MOST_INPUTS: u64 = 64;

const MOST_REGISTERS: u64 = 256;

const MOST_MEMORIES: u64 = 16;

const MOST_STATES: u64 = 256;

const MOST_NESTING: u64 = 16;

const MOST_COMMANDS: u64 = 4096;

const MOST_BLOCKS: u64 = 64;

const MOST_BRACKETS: u64 = 64;

const MOST_TOKENS: u64 = 256;

/// The declarations, states and commands that the tokens so far begin, and, of the expression that they
/// stand in, the tokens and the brackets that are open.
#[derive(Clone, Copy)]
pub struct Counts {
    pub inputs: u64,
    pub registers: u64,
    pub memories: u64,
    pub states: u64,
    pub commands: u64,
    pub tokens: u64,
    pub brackets: u64,
}

/// The limit, where one more is too many.
fn full(most: u64, n: u64, limit: Limit) -> Option<Limit>
    ensures { result ≡ above most (n + 1) limit }
{
    (n >= most).then_some(limit)
}

/// The limit, where there are too many.
fn above(most: u64, n: u64, limit: Limit) -> Option<Limit>
    ensures { result ≡ above most n limit }
{
    (n > most).then_some(limit)
}

/// The limit that a token of this kind breaks wherever it stands.
pub(crate) fn breach_of_name(kind: &Kind) -> Option<Limit>
    ensures { result ≡ breach_of_name kind.now }
{
    match kind {
        Kind::Name(name) => above(MOST_NAME_BYTES, name.as_bytes().len() as u64, Limit::Name),
        _ => None,
    }
}

impl Counts {
    pub(crate) fn new() -> Counts
        ensures { counts_of result ≡ none_yet }
    {
        Counts {
            inputs: 0,
            registers: 0,
            memories: 0,
            states: 0,
            commands: 0,
            tokens: 0,
            brackets: 0,
        }
    }

    /// The limit that a token in this role breaks.
    pub(crate) fn breach(&self, role: Role) -> Option<Limit>
        ensures { result ≡ breach_of_role (counts_of self.now) role }
    {
        match role {
            Role::Plain => None,
            Role::Input => full(MOST_INPUTS, self.inputs, Limit::Inputs),
            Role::Register => full(MOST_REGISTERS, self.registers, Limit::Registers),
            Role::Memory => full(MOST_MEMORIES, self.memories, Limit::Memories),
            Role::State(depth) => full(MOST_STATES, self.states, Limit::States).or(above(
                MOST_NESTING,
                depth,
                Limit::Nesting,
            )),
            Role::Command(depth) => full(MOST_COMMANDS, self.commands, Limit::Commands).or(above(
                MOST_BLOCKS,
                depth,
                Limit::Blocks,
            )),
            Role::Inner | Role::Closing => full(MOST_TOKENS, self.tokens, Limit::Expression),
            Role::Opening => full(MOST_BRACKETS, self.brackets, Limit::Brackets).or(full(
                MOST_TOKENS,
                self.tokens,
                Limit::Expression,
            )),
        }
    }

    fn outside(self) -> Counts
        ensures { counts_of result ≡ outside (counts_of self) }
    {
        Counts {
            tokens: 0,
            brackets: 0,
            ..self
        }
    }

    /// With a token in this role, which breaks no limit.
    pub(crate) fn tally(self, role: Role) -> Counts
        requires { breach_of_role (counts_of self) role ≡ None }
        ensures { (t : Token) → counts_of result ≡ tally (counts_of self) role t }
    {
        let outside = self.outside();
        match role {
            Role::Plain => outside,
            Role::Input => Counts {
                inputs: self.inputs + 1,
                ..outside
            },
            Role::Register => Counts {
                registers: self.registers + 1,
                ..outside
            },
            Role::Memory => Counts {
                memories: self.memories + 1,
                ..outside
            },
            Role::State(_) => Counts {
                states: self.states + 1,
                ..outside
            },
            Role::Command(_) => Counts {
                commands: self.commands + 1,
                ..outside
            },
            Role::Inner => Counts {
                tokens: self.tokens + 1,
                ..self
            },
            Role::Opening => Counts {
                tokens: self.tokens + 1,
                brackets: self.brackets + 1,
                ..self
            },
            Role::Closing => Counts {
                tokens: self.tokens + 1,
                brackets: self.brackets.saturating_sub(1),
                ..self
            },
        }
    }
}
