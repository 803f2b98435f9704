//! Numbers, operands and right sides.

ghost use Rattle.std.specs.Prelude.{◌≡◌, ◌-◌, ◌++◌, OnOk, codes, decimal, flat_map, map};
ghost use Rattle.sap_vprint.specs.Printed.{operand_of, right_of};
ghost use Rattle.sap_vprint.specs.Text.{text_of, operand_text, unary_text, binary_text, part_pieces, parts_pieces, range_pieces, right_pieces};

use sap_bits::{Op1, Op2};
use sap_net::parts::{Name, Operand, Right};
use sap_text::digits::push_number;
use std::alloc::AllocError;

/// A constant of a width.
pub fn constant(out: &mut Vec<u8>, width: u32, value: u64) -> Result<(), AllocError>
    ensures { OnOk result (out.new.items ≡ out.old.items ++ (decimal width ++ (codes "'d" ++ decimal value))) }
{
    push_number(out, u64::from(width))?;
    out.extend_from_slice(b"'d")?;
    push_number(out, value)
}

pub fn operand(out: &mut Vec<u8>, operand: &Operand) -> Result<(), AllocError>
    ensures { OnOk result (out.new.items ≡ out.old.items ++ operand_text (operand_of operand.now)) }
{
    match operand {
        Operand::Named(name) => out.extend_from_slice(name.as_bytes()),
        Operand::Constant { width, value } => constant(out, *width, *value),
    }
}

/// The range of a width.
pub fn range(out: &mut Vec<u8>, width: u32) -> Result<(), AllocError>
    ensures { OnOk result (out.new.items ≡ out.old.items ++ text_of (range_pieces (width - 1))) }
{
    out.extend_from_slice(b"[")?;
    push_number(out, u64::from(width.saturating_sub(1)))?;
    out.extend_from_slice(b":0] ")
}

fn unary(op: Op1) -> &'static [u8]
    ensures { result.now ≡ unary_text op }
{
    match op {
        Op1::Not => b"~",
        Op1::Neg => b"-",
        Op1::AllOnes => b"&",
        Op1::AnyOne => b"|",
        Op1::Odd => b"^",
    }
}

/// An operator with a space on each side.
fn binary(op: Op2) -> &'static [u8]
    ensures { result.now ≡ binary_text op }
{
    match op {
        Op2::Add => b" + ",
        Op2::Sub => b" - ",
        Op2::Mul => b" * ",
        Op2::And => b" & ",
        Op2::Or => b" | ",
        Op2::Xor => b" ^ ",
        Op2::Eq => b" == ",
        Op2::Ne => b" != ",
        Op2::Lt => b" < ",
        Op2::Le => b" <= ",
        Op2::Shl => b" << ",
        Op2::Shr => b" >> ",
    }
}

/// Operands with commas in front.
fn more_parts(out: &mut Vec<u8>, operands: &[Operand]) -> Result<(), AllocError>
    ensures { OnOk result (out.new.items ≡ out.old.items ++ flat_map (λ x. text_of (part_pieces (operand_of x))) operands.now) }
{
    for x in operands {
        out.extend_from_slice(b", ")?;
        operand(out, x)?;
    }
    Ok(())
}

/// Operands with commas between them.
fn parts(out: &mut Vec<u8>, operands: &[Operand]) -> Result<(), AllocError>
    ensures { OnOk result (out.new.items ≡ out.old.items ++ text_of (parts_pieces (map operand_of operands.now))) }
{
    match operands.split_first() {
        None => Ok(()),
        Some((first, others)) => {
            operand(out, first)?;
            more_parts(out, others)
        }
    }
}

fn concat(out: &mut Vec<u8>, operands: &[Operand]) -> Result<(), AllocError>
    ensures { OnOk result (out.new.items ≡ out.old.items ++ (codes "{" ++ (text_of (parts_pieces (map operand_of operands.now)) ++ codes "}"))) }
{
    out.extend_from_slice(b"{")?;
    parts(out, operands)?;
    out.extend_from_slice(b"}")
}

fn slice(out: &mut Vec<u8>, name: &Name, hi: u32, lo: u32) -> Result<(), AllocError>
    ensures { OnOk result (out.new.items ≡ out.old.items ++ (name.now ++ (codes "[" ++ (decimal hi ++ (codes ":" ++ (decimal lo ++ codes "]")))))) }
{
    out.extend_from_slice(name.as_bytes())?;
    out.extend_from_slice(b"[")?;
    push_number(out, u64::from(hi))?;
    out.extend_from_slice(b":")?;
    push_number(out, u64::from(lo))?;
    out.extend_from_slice(b"]")
}

/// A cell of a memory.
pub fn cell(out: &mut Vec<u8>, memory: &Name, index: &Operand) -> Result<(), AllocError>
    ensures { OnOk result (out.new.items ≡ out.old.items ++ (memory.now ++ (codes "[" ++ (operand_text (operand_of index.now) ++ codes "]")))) }
{
    out.extend_from_slice(memory.as_bytes())?;
    out.extend_from_slice(b"[")?;
    operand(out, index)?;
    out.extend_from_slice(b"]")
}

fn two(out: &mut Vec<u8>, op: Op2, x: &Operand, y: &Operand) -> Result<(), AllocError>
    ensures { OnOk result (out.new.items ≡ out.old.items ++ text_of (right_pieces (right_of (Right.Two op x.now y.now)))) }
{
    operand(out, x)?;
    out.extend_from_slice(binary(op))?;
    operand(out, y)
}

fn choose(
    out: &mut Vec<u8>,
    condition: &Operand,
    x: &Operand,
    y: &Operand,
) -> Result<(), AllocError>
    ensures { OnOk result (out.new.items ≡ out.old.items ++ text_of (right_pieces (right_of (Right.Choose condition.now x.now y.now)))) }
{
    operand(out, condition)?;
    out.extend_from_slice(b" ? ")?;
    operand(out, x)?;
    out.extend_from_slice(b" : ")?;
    operand(out, y)
}

/// The right side of an `assign`.
pub fn right(out: &mut Vec<u8>, right: &Right) -> Result<(), AllocError>
    ensures { OnOk result (out.new.items ≡ out.old.items ++ text_of (right_pieces (right_of right.now))) }
{
    match right {
        Right::Copy(x) => operand(out, x),
        Right::One(op, x) => {
            out.extend_from_slice(unary(*op))?;
            operand(out, x)
        }
        Right::Two(op, x, y) => two(out, *op, x, y),
        Right::Choose(condition, x, y) => choose(out, condition, x, y),
        Right::Concat(operands) => concat(out, operands.as_slice()),
        Right::Slice { name, hi, lo } => slice(out, name, *hi, *lo),
        Right::Cell { memory, index } => cell(out, memory, index),
    }
}
