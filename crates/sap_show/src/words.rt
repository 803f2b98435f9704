//! Names, numbers, operators and margins.

ghost use Rattle.std.specs.Prelude.{◌≡◌, ◌++◌, OnOk, IfOk, codes, decimal};
ghost use Rattle.sap_show.specs.Canonical.{unary_text, binary_text, bounds_text};

use sap_text::digits::push_number;
use sap_tree::name::Name;
use sap_tree::syntax::{BinaryOperator, UnaryOperator};
use std::alloc::{AllocError, Global};

pub fn name(out: &mut Vec<u8>, name: &Name) -> Result<(), AllocError>
    ensures { OnOk result (out.new.items ≡ out.old.items ++ name.now) }
{
    out.extend_from_slice(name.as_bytes())
}

/// A number with a width.
pub fn sized(out: &mut Vec<u8>, width: u64, value: u64) -> Result<(), AllocError>
    ensures { OnOk result (out.new.items ≡ out.old.items ++ (decimal width ++ (codes "'d" ++ decimal value))) }
{
    push_number(out, width)?;
    out.extend_from_slice(b"'d")?;
    push_number(out, value)
}

/// The bounds of a slice.
pub fn bounds(out: &mut Vec<u8>, high: u64, low: u64) -> Result<(), AllocError>
    ensures { OnOk result (out.new.items ≡ out.old.items ++ bounds_text high low) }
{
    out.extend_from_slice(b"[")?;
    push_number(out, high)?;
    out.extend_from_slice(b":")?;
    push_number(out, low)?;
    out.extend_from_slice(b"]")
}

pub fn unary(operator: UnaryOperator) -> &'static [u8]
    ensures { result.now ≡ unary_text operator }
{
    match operator {
        UnaryOperator::Not => b"~",
        UnaryOperator::Neg => b"-",
        UnaryOperator::AllOnes => b"&",
        UnaryOperator::AnyOne => b"|",
        UnaryOperator::Odd => b"^",
    }
}

/// An operator with a space on each side.
pub fn binary(operator: BinaryOperator) -> &'static [u8]
    ensures { result.now ≡ binary_text operator }
{
    match operator {
        BinaryOperator::Or => b" | ",
        BinaryOperator::Xor => b" ^ ",
        BinaryOperator::And => b" & ",
        BinaryOperator::Eq => b" == ",
        BinaryOperator::Ne => b" != ",
        BinaryOperator::Lt => b" < ",
        BinaryOperator::Le => b" <= ",
        BinaryOperator::Shl => b" << ",
        BinaryOperator::Shr => b" >> ",
        BinaryOperator::Add => b" + ",
        BinaryOperator::Sub => b" - ",
        BinaryOperator::Mul => b" * ",
    }
}

/// The margin of the lines inside those of this margin.
pub fn deeper(alloc: Global, margin: &[u8]) -> Result<Vec<u8>, AllocError>
    ensures { IfOk result (λ inner. inner.items ≡ margin.now ++ codes "  ") }
{
    let mut inner = margin.to_vec(alloc)?;
    inner.extend_from_slice(b"  ")?;
    Ok(inner)
}
