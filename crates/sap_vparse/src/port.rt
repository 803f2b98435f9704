//! The reader of ports.

ghost use Rattle.std.specs.Prelude.{◌≡◌, ◌≢◌, ◌<◌, IfOk, length};
ghost use Rattle.sap_vtext.specs.Grammar.{IsPort, IsRange};
ghost use Rattle.sap_vtext.specs.Tokens as t;
ghost use Rattle.sap_vparse.specs.Parts.{IsOutput, PortsEnd};
ghost use Rattle.sap_vparse.specs.Reading.{Goes, head, of_word};
ghost use Rattle.sap_vparse.specs.Table as s;
ghost use Rattle.sap_vparse.specs.Views.{number_of, port_of, ports_of};

use crate::cursor::{Cursor, Fault};
use crate::items::{Direction, Number, Port};
use crate::row::{TO_ZERO, number_then};
use sap_vlex::token::{Sign, Word};
use std::alloc::Global;

/// The number of a range.
#[tactic(auto, using(crate::proofs::Walks::ranges))]
pub fn range(tokens: &mut Cursor<'_>) -> Result<Number, Fault>
    ensures goes { Goes s.range tokens.old result tokens.new }
    ensures tree { IfOk result (λ n. IsRange tokens.old (number_of n) tokens.new) }
    ensures shorter { IfOk result (λ _. length tokens.new < length tokens.old) }
{
    tokens.sign(Sign::OpenBracket)?;
    number_then(tokens, &TO_ZERO)
}

/// `reg` or `wire`.
#[tactic(auto, using(crate::proofs::Walks::kinds))]
fn output_kind(tokens: &mut Cursor<'_>) -> Result<Direction, Fault>
    ensures goes { Goes s.output_kind tokens.old result tokens.new }
    ensures tree { IfOk result (λ d. IsOutput tokens.old d tokens.new) }
    ensures shorter { IfOk result (λ _. length tokens.new < length tokens.old) }
{
    if tokens.at_word(Word::Reg) {
        tokens.word(Word::Reg)?;
        return Ok(Direction::OutputRegister);
    }
    tokens.word(Word::Wire)?;
    Ok(Direction::OutputWire)
}

#[tactic(auto, using(crate::proofs::Walks::inputs))]
fn input(alloc: Global, tokens: &mut Cursor<'_>) -> Result<Port, Fault>
    requires { head tokens.old ≡ of_word t.input_word }
    ensures goes { Goes s.port tokens.old result tokens.new }
    ensures tree { IfOk result (λ p. IsPort tokens.old (port_of p) tokens.new) }
    ensures shorter { IfOk result (λ _. length tokens.new < length tokens.old) }
{
    tokens.word(Word::Input)?;
    let range = range(tokens)?;
    let name = tokens.name(alloc)?;
    Ok(Port {
        direction: Direction::Input,
        range,
        name,
    })
}

#[tactic(auto, using(crate::proofs::Walks::outputs))]
fn output(alloc: Global, tokens: &mut Cursor<'_>) -> Result<Port, Fault>
    requires { head tokens.old ≢ of_word t.input_word }
    ensures goes { Goes s.port tokens.old result tokens.new }
    ensures tree { IfOk result (λ p. IsPort tokens.old (port_of p) tokens.new) }
    ensures shorter { IfOk result (λ _. length tokens.new < length tokens.old) }
{
    tokens.word(Word::Output)?;
    let direction = output_kind(tokens)?;
    let range = range(tokens)?;
    let name = tokens.name(alloc)?;
    Ok(Port {
        direction,
        range,
        name,
    })
}

fn port(alloc: Global, tokens: &mut Cursor<'_>) -> Result<Port, Fault>
    ensures goes { Goes s.port tokens.old result tokens.new }
    ensures tree { IfOk result (λ p. IsPort tokens.old (port_of p) tokens.new) }
    ensures shorter { IfOk result (λ _. length tokens.new < length tokens.old) }
{
    if tokens.at_word(Word::Input) {
        input(alloc, tokens)
    } else {
        output(alloc, tokens)
    }
}

/// The ports that come next, and `)`.
#[tactic(auto, using(crate::proofs::Walks::port_list))]
pub fn ports(alloc: Global, tokens: &mut Cursor<'_>) -> Result<Vec<Port>, Fault>
    ensures goes { Goes s.ports tokens.old result tokens.new }
    ensures tree { IfOk result (λ list. PortsEnd tokens.old (ports_of list.items) tokens.new) }
    ensures shorter { IfOk result (λ _. length tokens.new < length tokens.old) }
{
    let mut list = Vec::new(alloc);
    'ports: while tokens.at_sign(Sign::Comma) {
        tokens.sign(Sign::Comma)?;
        let next = port(alloc, tokens)?;
        list.push(next)?;
    }
    tokens.sign(Sign::CloseParen)?;
    Ok(list)
}
