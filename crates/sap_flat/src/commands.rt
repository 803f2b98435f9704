//! Single assignments under gates.

ghost use Rattle.std.specs.Prelude.{◌≡◌, ◌∷◌, [], ◌++◌, IfOk, OnOk};
ghost use Rattle.sap_maps.specs.Term.{constant, read};
ghost use Rattle.sap_ir.specs.Calcs.{action_of, commands_of, term_of};
ghost use Rattle.sap_ir.specs.Source.{set};
ghost use Rattle.sap_ir.specs.Plain.Nested.{seat_width};
ghost use Rattle.sap_flat.specs.Gates.{gate_name};
ghost use Rattle.sap_flat.specs.Flat.{is_number, under};

use crate::gates;
use sap_bits::Op2;
use sap_ir::guarded::{Act, Calc, GuardedCmd};
use sap_ir::plain::seats;
use sap_net::parts::Name;
use std::alloc::{AllocError, Global};

/// Whether a gate is 1.
pub fn is_open(j: usize) -> Calc
    ensures { term_of result ≡ read (gate_name j) }
{
    Calc::Read(gates::name(j))
}

/// Whether a number of a width is `n`.
pub fn is_equal(alloc: Global, a: Calc, width: u32, n: u64) -> Result<Calc, AllocError>
    ensures { IfOk result (λ c. term_of c ≡ is_number (term_of a) width n) }
{
    Calc::two(alloc, Op2::Eq, a, Calc::Constant { width, value: n })
}

/// One command more, under the gate `j`.
pub fn add(out: &mut Vec<GuardedCmd>, j: usize, act: Act) -> Result<(), AllocError>
    ensures { OnOk result (commands_of out.new.items ≡ commands_of out.old.items ++ under j (action_of act) ∷ []) }
{
    let when = is_open(j);
    out.push(GuardedCmd { when, act })?;
    Ok(())
}

/// Sets the gate `k` under the gate `j`.
pub fn set_gate(
    out: &mut Vec<GuardedCmd>,
    j: usize,
    k: usize,
    value: Calc,
) -> Result<(), AllocError>
    ensures { OnOk result (commands_of out.new.items ≡ commands_of out.old.items ++ under j (set (gate_name k) (term_of value)) ∷ []) }
{
    let name = gates::name(k);
    add(out, j, Act::Set(name, value))?;
    Ok(())
}

/// Makes child `n` of so many the current one, under the gate `j`.
pub fn set_seat(
    out: &mut Vec<GuardedCmd>,
    j: usize,
    seat: Name,
    count: usize,
    n: usize,
) -> Result<(), AllocError>
    ensures { OnOk result (commands_of out.new.items ≡ commands_of out.old.items ++ under j (set seat (constant (seat_width count) n)) ∷ []) }
{
    let value = Calc::Constant {
        width: seats::width(count),
        value: n as u64,
    };
    add(out, j, Act::Set(seat, value))?;
    Ok(())
}
