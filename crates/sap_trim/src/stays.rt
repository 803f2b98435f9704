//! Wires that have one number as long as a register has its start.

ghost use Rattle.std.specs.Prelude.{◌≡◌, ◌≤◌, true, List, [], ◌∷◌, ◌++◌, length, IfOk, OnOk};
ghost use Rattle.sap_maps.specs.Scope.{find};
ghost use Rattle.sap_trim.specs.Stays as spec;

use sap_net::netlist::Netlist;
use sap_net::parts::{Name, Operand, Register, Right, Wire};
use sap_share::table::Table;
use std::alloc::{AllocError, Global};

/// A number that something has always, or as long as a register has it.
#[derive(Drop)]
pub enum Stay {
    Always(u64),
    While(Name, u64),
}

fn copy(alloc: Global, stay: &Stay) -> Result<Stay, AllocError>
    ensures { IfOk result (λ s. s ≡ stay.now) }
{
    match stay {
        Stay::Always(number) => Ok(Stay::Always(*number)),
        Stay::While(register, number) => {
            let register = register.copy(alloc)?;
            Ok(Stay::While(register, *number))
        }
    }
}

/// What a name stays at.
fn name_stay(alloc: Global, stays: &Table<Stay>, name: &Name) -> Result<Option<Stay>, AllocError>
    ensures { IfOk result (λ s. s ≡ find stays.now name.now) }
{
    match stays.get(name) {
        Some(stay) => {
            let stay = copy(alloc, stay)?;
            Ok(Some(stay))
        }
        None => Ok(None),
    }
}

/// What an operand stays at.
fn operand_stay(
    alloc: Global,
    stays: &Table<Stay>,
    operand: &Operand,
) -> Result<Option<Stay>, AllocError>
    ensures { IfOk result (λ s. s ≡ spec.operand_stay (find stays.now) operand.now) }
{
    match operand {
        Operand::Named(name) => name_stay(alloc, stays, name),
        Operand::Constant { value, .. } => Ok(Some(Stay::Always(*value))),
    }
}

/// Whether two stays are at one number, and ask for at most one register.
fn agree(a: &Stay, b: &Stay) -> bool
    ensures { result ≡ spec.agree a.now b.now }
{
    match (a, b) {
        (Stay::Always(m), Stay::Always(n)) => *m == *n,
        (Stay::Always(m), Stay::While(_, n)) => *m == *n,
        (Stay::While(_, m), Stay::Always(n)) => *m == *n,
        (Stay::While(x, m), Stay::While(y, n)) => *m == *n && x.same(y),
    }
}

/// What two things stay at that agree.
fn both(a: Stay, b: Stay) -> Option<Stay>
    ensures { result ≡ spec.both a b }
{
    if !agree(&a, &b) {
        return None;
    }
    match a {
        Stay::Always(_) => Some(b),
        Stay::While(register, number) => Some(Stay::While(register, number)),
    }
}

/// What a choice between two things stays at.
fn either(a: Option<Stay>, b: Option<Stay>) -> Option<Stay>
    ensures { result ≡ spec.either a b }
{
    match (a, b) {
        (Some(a), Some(b)) => both(a, b),
        _ => None,
    }
}

/// What a right side stays at: a copy, or a choice between two that stay at the same.
fn right_stay(alloc: Global, stays: &Table<Stay>, right: &Right) -> Result<Option<Stay>, AllocError>
    ensures { IfOk result (λ s. s ≡ spec.right_stay (find stays.now) right.now) }
{
    match right {
        Right::Copy(a) => operand_stay(alloc, stays, a),
        Right::Choose(_, a, b) => {
            let a = operand_stay(alloc, stays, a)?;
            let b = operand_stay(alloc, stays, b)?;
            Ok(either(a, b))
        }
        _ => Ok(None),
    }
}

fn put_register(
    alloc: Global,
    stays: &mut Table<Stay>,
    register: &Register,
) -> Result<(), AllocError>
    requires { spec.AllStay [] (find stays.old) }
    ensures { OnOk result (spec.AllStay [] (find stays.new)) }
{
    let name = register.name.copy(alloc)?;
    let stay = Stay::While(name, register.start);
    stays.put(alloc, &register.name, stay)
}

fn put_registers(
    alloc: Global,
    stays: &mut Table<Stay>,
    registers: &[Register],
) -> Result<(), AllocError>
    requires { spec.AllStay [] (find stays.old) }
    ensures { OnOk result (spec.AllStay [] (find stays.new)) }
{
    for register in registers {
        put_register(alloc, stays, register)?;
    }
    Ok(())
}

fn put_wire(alloc: Global, stays: &mut Table<Stay>, wire: &Wire) -> Result<(), AllocError>
    ensures { OnOk result ((ws : List Wire) → spec.AllStay ws (find stays.old) → spec.AllStay (ws ++ wire.now ∷ []) (find stays.new)) }
{
    match right_stay(alloc, stays, &wire.right)? {
        Some(stay) => stays.put(alloc, &wire.name, stay),
        None => Ok(()),
    }
}

fn put_wires(alloc: Global, stays: &mut Table<Stay>, wires: &[Wire]) -> Result<(), AllocError>
    requires { spec.AllStay [] (find stays.old) }
    ensures { OnOk result (spec.AllStay wires.now (find stays.new)) }
{
    for wire in wires {
        put_wire(alloc, stays, wire)?;
    }
    Ok(())
}

/// What registers and wires stay at.
pub fn stays(
    alloc: Global,
    registers: &[Register],
    wires: &[Wire],
) -> Result<Table<Stay>, AllocError>
    ensures { IfOk result (λ s. spec.AllStay wires.now (find s)) }
{
    let mut stays = Table::new(alloc, Vec::new(alloc))?;
    put_registers(alloc, &mut stays, registers)?;
    put_wires(alloc, &mut stays, wires)?;
    Ok(stays)
}

/// How many wires stand before the copies at the end.
fn before_copies(wires: &[Wire]) -> usize
    ensures { result ≤ length wires.now }
{
    let mut rest = wires.len();
    while rest > 0 {
        if !matches!(&wires[rest - 1].right, Right::Copy(_)) {
            return rest;
        }
        rest -= 1;
    }
    0
}

/// What the registers and wires of a folded netlist stay at. Nothing in it reads the copies behind its wires, so that they are left out.
pub fn folded_stays(alloc: Global, netlist: &Netlist) -> Result<Table<Stay>, AllocError>
    ensures { IfOk result (λ s. spec.AllStay netlist.now.wires (find s)) }
{
    let wires = netlist.wires();
    stays(alloc, netlist.registers(), &wires[..before_copies(wires)])
}

/// Whether a stay is at the number, as long as the register has it.
fn is_at(stay: &Stay, name: &Name, number: u64) -> bool
    ensures { result ≡ spec.is_at stay.now name.now number }
{
    match stay {
        Stay::Always(at) => *at == number,
        Stay::While(register, at) => *at == number && register.same(name),
    }
}

/// Whether a register keeps its start: what it takes at the edge is that, as long as it has it.
pub fn keeps_start(
    alloc: Global,
    stays: &Table<Stay>,
    register: &Register,
) -> Result<bool, AllocError>
    ensures { IfOk result (λ t. (ws : List Wire) → spec.AllStay ws (find stays.now) → t ≡ true → spec.KeepsStart ws register.now) }
{
    match operand_stay(alloc, stays, &register.next)? {
        Some(stay) => Ok(is_at(&stay, &register.name, register.start)),
        None => Ok(false),
    }
}

/// How many of the registers keep their start, as far as this tells.
pub fn count_kept(
    alloc: Global,
    stays: &Table<Stay>,
    registers: &[Register],
) -> Result<usize, AllocError> {
    let mut count = 0;
    for register in registers {
        if keeps_start(alloc, stays, register)? {
            count += 1;
        }
    }
    Ok(count)
}
