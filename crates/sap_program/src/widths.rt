//! The widths of what operators give.

ghost use Rattle.std.specs.Prelude.{◌≡◌};
ghost use Rattle.sap_bits.specs.Arithmetic as arithmetic;

use sap_bits::{Op1, Op2};

/// The width of what an operator on a number of this width gives.
pub fn one_width(op: Op1, width: u32) -> u32
    ensures { result ≡ arithmetic.width1 op width }
{
    match op {
        Op1::Not => width,
        Op1::Neg => width,
        Op1::AllOnes => 1,
        Op1::AnyOne => 1,
        Op1::Odd => 1,
    }
}

/// The width of what an operator on two numbers gives, of which the first has this width.
pub fn two_width(op: Op2, width: u32) -> u32
    ensures { result ≡ arithmetic.width2 op width }
{
    match op {
        Op2::Eq => 1,
        Op2::Ne => 1,
        Op2::Lt => 1,
        Op2::Le => 1,
        _ => width,
    }
}
