//! The limits on the text of a design.

use std::fmt;

/// A limit on the text of a design. If a token breaks several, the first in this order is answered.
#[derive(Clone, Copy, PartialEq, Eq, Debug)]
pub enum Limit {
    Bytes,
    Name,
    Inputs,
    Registers,
    Memories,
    States,
    Nesting,
    Commands,
    Blocks,
    Brackets,
    Expression,
}

impl fmt::Display for Limit {
    ghost use Rattle.std.specs.Prelude.{Some};
    ghost use Rattle.sap_lex.specs.FaultTexts.{limit_text};

    ghost output = { λ limit. Some (limit_text limit) };

    fn fmt<W: fmt::Write>(&self, f: &mut fmt::Formatter<W>) -> fmt::Result {
        f.write_str(match self {
            Limit::Bytes => "bytes",
            Limit::Name => "name",
            Limit::Inputs => "inputs",
            Limit::Registers => "registers",
            Limit::Memories => "memories",
            Limit::States => "states",
            Limit::Nesting => "nesting",
            Limit::Commands => "commands",
            Limit::Blocks => "blocks",
            Limit::Brackets => "brackets",
            Limit::Expression => "expression",
        })
    }
}
