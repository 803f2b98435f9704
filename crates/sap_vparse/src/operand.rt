//! The reader of operands.

ghost use Rattle.std.specs.Prelude.{◌<◌, ◌∷◌, IfOk, length};
ghost use Rattle.sap_vtext.specs.Grammar.{IsOperand};
ghost use Rattle.sap_vparse.specs.Reading.{Goes};
ghost use Rattle.sap_vparse.specs.Rows.{GoesOn, OperandThen, symbols_of};
ghost use Rattle.sap_vparse.specs.Table as s;
ghost use Rattle.sap_vparse.specs.Views.{operand_of};

use crate::cursor::{Cursor, Fault};
use crate::items::Operand;
use crate::row::{Fixed, row};
use std::alloc::Global;

/// A name or a constant.
#[tactic(auto, using(crate::proofs::Walks::operands))]
pub fn operand(alloc: Global, tokens: &mut Cursor<'_>) -> Result<Box<Operand>, Fault>
    ensures goes { Goes s.operand tokens.old result tokens.new }
    ensures tree { IfOk result (λ x. IsOperand tokens.old (operand_of x.value) tokens.new) }
    ensures shorter { IfOk result (λ _. length tokens.new < length tokens.old) }
{
    if tokens.at_name() {
        let name = tokens.name(alloc)?;
        let operand = Box::new(alloc, Operand::Named(name))?;
        return Ok(operand);
    }
    let constant = tokens.constant()?;
    let operand = Box::new(alloc, Operand::Constant(constant))?;
    Ok(operand)
}

/// Takes an operand, and then these tokens.
#[tactic(auto, using(crate::proofs::Rows::rows))]
pub fn operand_then(
    alloc: Global,
    tokens: &mut Cursor<'_>,
    behind: &[Fixed],
) -> Result<Box<Operand>, Fault>
    ensures goes { GoesOn (s.operand ∷ symbols_of behind.now) tokens.old result tokens.new }
    ensures tree { IfOk result (λ x. OperandThen tokens.old (operand_of x.value) behind.now tokens.new) }
    ensures shorter { IfOk result (λ _. length tokens.new < length tokens.old) }
{
    let operand = operand(alloc, tokens)?;
    row(tokens, behind)?;
    Ok(operand)
}
