//! Widths of expressions, and the widths that operators ask of their operands, all in bits.

ghost use Rattle.std.specs.Prelude.{◌≡◌, Some, if◌then◌else◌};
ghost use Rattle.sap_names.specs.Widths as spec;
ghost use Rattle.sap_names.specs.Entities.{what_is};
ghost use Rattle.sap_tree.specs.Trees.{expression_of, expressions_of};

use crate::entities::Entities;
use crate::kind::{Declared, Family};
use sap_tree::syntax::{BinaryOperator, Expr, UnaryOperator};

/// A width as it is written, where it is from 1 to 64 bits; else none.
pub(crate) fn sound_width(width: u64) -> Option<u64>
    ensures { result ≡ spec.sound_width width }
{
    if 1 <= width && width <= 64 {
        Some(width)
    } else {
        None
    }
}

/// The bits of the index of a memory of this depth, from 1 to 12; none where the depth is no power of two from 2 to 4096.
pub(crate) fn index_bits(depth: u64) -> Option<u64>
    ensures { result ≡ spec.index_bits depth }
{
    if depth.is_power_of_two() && 2 <= depth && depth <= 4096 {
        Some(u64::from(depth.ilog2()))
    } else {
        None
    }
}

/// The bits of what a plain name reads; none where it is no input and no register, or one without a sound width.
pub(crate) fn plain_width(what: Option<Declared>) -> Option<u64>
    ensures { result ≡ spec.plain_width what }
{
    match what {
        Some(Declared::Input(width)) => sound_width(width),
        Some(Declared::Register(width)) => sound_width(width),
        Some(Declared::Memory(_, _)) => None,
        Some(Declared::State) => None,
        None => None,
    }
}

/// The bits of a register; none where the name is no register, or one without a sound width.
pub fn register_width(what: Option<Declared>) -> Option<u64>
    ensures { result ≡ spec.register_width what }
{
    match what {
        Some(Declared::Register(width)) => sound_width(width),
        Some(Declared::Input(_)) => None,
        Some(Declared::Memory(_, _)) => None,
        Some(Declared::State) => None,
        None => None,
    }
}

/// The bits of a memory's cells; none where the name is no memory, or one without a sound width.
pub fn cell_width(what: Option<Declared>) -> Option<u64>
    ensures { result ≡ spec.cell_width what }
{
    match what {
        Some(Declared::Memory(width, _)) => sound_width(width),
        Some(Declared::Register(_)) => None,
        Some(Declared::Input(_)) => None,
        Some(Declared::State) => None,
        None => None,
    }
}

/// The bits of a memory's index; none where the name is no memory, or one without a sound depth.
pub fn index_width(what: Option<Declared>) -> Option<u64>
    ensures { result ≡ spec.index_width what }
{
    match what {
        Some(Declared::Memory(_, depth)) => index_bits(depth),
        Some(Declared::Register(_)) => None,
        Some(Declared::Input(_)) => None,
        Some(Declared::State) => None,
        None => None,
    }
}

/// The first width, or the other where there is none.
pub fn else_of(width: Option<u64>, other: Option<u64>) -> Option<u64>
    ensures { result ≡ spec.else_of width other }
{
    match width {
        Some(w) => Some(w),
        None => other,
    }
}

/// The bits of an operand widened to `width` bits; none where the operand has none, more than `width`, or `width` is over 64.
pub(crate) fn extended(from: Option<u64>, width: u64) -> Option<u64>
    ensures { result ≡ spec.extended from width }
{
    match from {
        Some(w) => {
            if w <= width && width <= 64 {
                Some(width)
            } else {
                None
            }
        }
        None => None,
    }
}

/// The bits of the slice `[high:low]` of an operand; none where the operand has none, or not these bits.
pub(crate) fn sliced(from: Option<u64>, high: u64, low: u64) -> Option<u64>
    ensures { result ≡ spec.sliced from high low }
{
    match from {
        Some(w) => {
            if low <= high && high < w {
                Some(high - low + 1)
            } else {
                None
            }
        }
        None => None,
    }
}

/// The bits of two parts together; none where a part has none, or they are over 64.
pub(crate) fn joined(front: Option<u64>, back: Option<u64>) -> Option<u64>
    ensures { result ≡ spec.joined front back }
{
    match front {
        Some(w) => match back {
            Some(u) => together(w, u),
            None => None,
        },
        None => None,
    }
}

fn together(w: u64, u: u64) -> Option<u64>
    ensures { result ≡ spec.joined (Some w) (Some u) }
{
    match w.checked_add(u) {
        Some(sum) => { if sum <= 64 { Some(sum) } else { None } }
        None => None,
    }
}

/// The family of an operator.
pub fn family(operator: BinaryOperator) -> Family
    ensures { result ≡ spec.family operator }
{
    match operator {
        BinaryOperator::Or => Family::Arithmetic,
        BinaryOperator::Xor => Family::Arithmetic,
        BinaryOperator::And => Family::Arithmetic,
        BinaryOperator::Add => Family::Arithmetic,
        BinaryOperator::Sub => Family::Arithmetic,
        BinaryOperator::Mul => Family::Arithmetic,
        BinaryOperator::Eq => Family::Comparison,
        BinaryOperator::Ne => Family::Comparison,
        BinaryOperator::Lt => Family::Comparison,
        BinaryOperator::Le => Family::Comparison,
        BinaryOperator::Shl => Family::Shift,
        BinaryOperator::Shr => Family::Shift,
    }
}

fn own_binary(family: Family, left: Option<u64>, right: Option<u64>) -> Option<u64>
    ensures { result ≡ spec.own_binary family left right }
{
    match family {
        Family::Arithmetic => else_of(left, right),
        Family::Shift => left,
        Family::Comparison => Some(1),
    }
}

/// Whether an operator makes one bit of all of its operand's.
pub(crate) fn is_reduction(operator: UnaryOperator) -> bool
    ensures { result ≡ spec.is_reduction operator }
{
    match operator {
        UnaryOperator::Not => false,
        UnaryOperator::Neg => false,
        UnaryOperator::AllOnes => true,
        UnaryOperator::AnyOne => true,
        UnaryOperator::Odd => true,
    }
}

fn own_unary(operator: UnaryOperator, width: Option<u64>) -> Option<u64>
    ensures { result ≡ (if spec.is_reduction operator then Some 1 else width) }
{
    if is_reduction(operator) {
        Some(1)
    } else {
        width
    }
}

fn asked_count(count: Option<u64>) -> Option<u64>
    ensures { result ≡ spec.asked_count count }
{
    match count {
        Some(_) => None,
        None => Some(64),
    }
}

/// The bits that an operator asks of its left operand, in an expression of the width `whole` with operands of the own
/// widths `left` and `right`; none where it asks for no width.
pub fn asked_left(
    family: Family,
    whole: Option<u64>,
    left: Option<u64>,
    right: Option<u64>,
) -> Option<u64>
    ensures { result ≡ spec.asked_left family whole left right }
{
    match family {
        Family::Arithmetic => whole,
        Family::Shift => whole,
        Family::Comparison => else_of(left, right),
    }
}

/// The bits that an operator asks of its right operand, as `asked_left`: of a shift's count 64 where it has no own width,
/// else none.
pub fn asked_right(
    family: Family,
    whole: Option<u64>,
    left: Option<u64>,
    right: Option<u64>,
) -> Option<u64>
    ensures { result ≡ spec.asked_right family whole left right }
{
    match family {
        Family::Arithmetic => whole,
        Family::Shift => asked_count(right),
        Family::Comparison => else_of(left, right),
    }
}

/// The bits that an operator asks of its one operand, in an expression of the width `whole`; none where it asks for no width.
pub fn asked_one(operator: UnaryOperator, whole: Option<u64>) -> Option<u64>
    ensures { result ≡ spec.asked_one operator whole }
{
    if is_reduction(operator) { None } else { whole }
}

/// The own width of an expression; none where it has none.
#[cycle(own)]
#[tactic(auto, using(sap_tree::proofs::Views::views))]
pub(crate) fn own(names: &Entities, e: &Expr) -> Option<u64>
    ensures { result ≡ spec.own (what_is names.now) (expression_of e.now) }
{
    match e {
        Expr::Number(_, _) => None,
        Expr::Sized(_, width, _) => sound_width(*width),
        Expr::Read(_, name) => plain_width(names.look(name)),
        Expr::Cell(_, name, _) => cell_width(names.look(name)),
        Expr::Unary(_, operator, operand) => {
            let width = own(names, operand);
            own_unary(*operator, width)
        }
        Expr::Binary(_, operator, left, right) => {
            let one = own(names, left);
            let other = own(names, right);
            own_binary(family(*operator), one, other)
        }
        Expr::Choose(_, _, one, other) => {
            let first = own(names, one);
            let second = own(names, other);
            else_of(first, second)
        }
        Expr::Slice(_, operand, high, low) => {
            let width = own(names, operand);
            sliced(width, *high, *low)
        }
        Expr::Concat(_, parts) => own_parts(names, parts),
        Expr::Zext(_, operand, width) => {
            let from = own(names, operand);
            extended(from, *width)
        }
    }
}

/// The own width of parts one behind the other.
#[cycle(own)]
#[tactic(auto, using(sap_tree::proofs::Views::views))]
fn own_parts(names: &Entities, parts: &[Expr]) -> Option<u64>
    ensures { result ≡ spec.own_parts (what_is names.now) (expressions_of parts.now) }
{
    match parts {
        [first, rest @ ..] => {
            let front = own(names, first);
            let back = own_parts(names, rest);
            joined(front, back)
        }
        [] => Some(0),
    }
}
