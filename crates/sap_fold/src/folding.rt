//! Right sides folded into helping wires.

ghost use Rattle.std.specs.Prelude.{IfOk, OnOk};
ghost use Rattle.sap_fold.specs.Gives.{Becomes, Gives};
ghost use Rattle.sap_share.specs.Sets.{holds};
ghost use Rattle.sap_fold.specs.Settled.{Orderly};

use crate::fold::fold;
use crate::parts::spread;
use crate::see::see;
use crate::wires::Wires;
use sap_net::parts::{Operand, Right};
use sap_share::name_set::NameSet;
use std::alloc::{AllocError, Global};

/// A right side of equal value, after one round of the rules.
fn simpler(
    alloc: Global,
    wires: &mut Wires,
    taken: &NameSet,
    width: u32,
    given: Right,
) -> Result<Right, AllocError>
    requires { Orderly wires.old.numbers wires.old.list.items }
    ensures orderly { OnOk result (Orderly wires.new.numbers wires.new.list.items) }
    ensures becomes { IfOk result (λ r. Becomes (holds taken.now) wires.old.list.items wires.old.next width given r wires.new.list.items wires.new.next) }
{
    let seen = see(alloc, wires, taken, width, given)?;
    let bits = spread(alloc, width, seen)?;
    Ok(fold(width, bits))
}

/// The operand that has the value of a right side, after three rounds of the rules: one rule often makes room for another.
fn fold_in_rounds(
    alloc: Global,
    wires: &mut Wires,
    taken: &NameSet,
    width: u32,
    given: Right,
) -> Result<Operand, AllocError>
    requires { Orderly wires.old.numbers wires.old.list.items }
    ensures orderly { OnOk result (Orderly wires.new.numbers wires.new.list.items) }
    ensures gives { IfOk result (λ o. Gives (holds taken.now) wires.old.list.items wires.old.next width given o wires.new.list.items wires.new.next) }
{
    let once = simpler(alloc, wires, taken, width, given)?;
    let twice = simpler(alloc, wires, taken, width, once)?;
    let folded = simpler(alloc, wires, taken, width, twice)?;
    let operand = wires.provide(alloc, taken, width, folded)?;
    Ok(operand)
}

/// The operand that has the value of a right side at a width: the copied one, or that of one more wire where it needs one, after those that the rules ask for.
pub fn fold_into(
    alloc: Global,
    wires: &mut Wires,
    taken: &NameSet,
    width: u32,
    given: Right,
) -> Result<Operand, AllocError>
    requires { Orderly wires.old.numbers wires.old.list.items }
    ensures orderly { OnOk result (Orderly wires.new.numbers wires.new.list.items) }
    ensures gives { IfOk result (λ o. Gives (holds taken.now) wires.old.list.items wires.old.next width given o wires.new.list.items wires.new.next) }
{
    match given {
        Right::Copy(operand) => Ok(operand),
        given => fold_in_rounds(alloc, wires, taken, width, given),
    }
}
