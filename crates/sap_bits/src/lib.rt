//! The operators of expressions on unsigned numbers of 1 to 64 bits, each equal to its arithmetic.
#![tactic(auto)]

ghost use Rattle.std.specs.Prelude.{◌≡◌, ◌-◌, ◌^◌, ◌<◌, ◌≤◌};
ghost use Rattle.sap_bits.specs.Arithmetic.{value1, value2, slice_of, joined, RightFits};

/// An operator on one number. `AllOnes`, `AnyOne` and `Odd` give one bit: whether all bits are 1,
/// whether any is, and whether an odd number of them is.
#[derive(Clone, Copy, PartialEq, Eq, Debug)]
pub enum Op1 {
    Not,
    Neg,
    AllOnes,
    AnyOne,
    Odd,
}

/// An operator on two numbers. Comparisons give one bit.
#[derive(Clone, Copy, PartialEq, Eq, Debug)]
pub enum Op2 {
    Add,
    Sub,
    Mul,
    And,
    Or,
    Xor,
    Eq,
    Ne,
    Lt,
    Le,
    Shl,
    Shr,
}

/// The largest number of `w` bits.
pub fn mask(w: u32) -> u64
    requires wide { 1 ≤ w }
    requires narrow { w ≤ 64 }
    ensures { result ≡ 2 ^ w - 1 }
{
    u64::MAX >> (64 - w)
}

/// An operator on a number of `w` bits.
pub fn apply1(op: Op1, w: u32, a: u64) -> u64
    requires wide { 1 ≤ w }
    requires narrow { w ≤ 64 }
    requires fits { a < 2 ^ w }
    ensures { result ≡ value1 op w a }
{
    match op {
        Op1::Not => mask(w) - a,
        Op1::Neg => { if a == 0 { 0 } else { mask(w) - a + 1 } }
        Op1::AllOnes => u64::from(a == mask(w)),
        Op1::AnyOne => u64::from(a != 0),
        Op1::Odd => u64::from(a.count_ones() % 2),
    }
}

/// An operator on two numbers of `w` bits. The count of a shift, `b`, is any number; shifting by the
/// width or more gives 0.
pub fn apply2(op: Op2, w: u32, a: u64, b: u64) -> u64
    requires wide { 1 ≤ w }
    requires narrow { w ≤ 64 }
    requires left { a < 2 ^ w }
    requires right { RightFits op w b }
    ensures { result ≡ value2 op w a b }
{
    match op {
        Op2::Add => a.wrapping_add(b) & mask(w),
        Op2::Sub => a.wrapping_sub(b) & mask(w),
        Op2::Mul => a.wrapping_mul(b) & mask(w),
        Op2::And => a & b,
        Op2::Or => a | b,
        Op2::Xor => a ^ b,
        Op2::Eq => u64::from(a == b),
        Op2::Ne => u64::from(a != b),
        Op2::Lt => u64::from(a < b),
        Op2::Le => u64::from(a <= b),
        Op2::Shl => shift_left(w, a, b),
        Op2::Shr => shift_right(w, a, b),
    }
}

fn shift_left(w: u32, a: u64, b: u64) -> u64
    requires wide { 1 ≤ w }
    requires narrow { w ≤ 64 }
    ensures { result ≡ value2 Op2.Shl w a b }
{
    if b < u64::from(w) {
        (a << b) & mask(w)
    } else {
        0
    }
}

fn shift_right(w: u32, a: u64, b: u64) -> u64
    requires narrow { w ≤ 64 }
    requires left { a < 2 ^ w }
    ensures { result ≡ value2 Op2.Shr w a b }
{
    if b < u64::from(w) { a >> b } else { 0 }
}

/// The bits of `a` from `lo` up to `hi`, counted from 0.
pub fn slice(a: u64, hi: u32, lo: u32) -> u64
    requires order { lo ≤ hi }
    requires within { hi < 64 }
    ensures { result ≡ slice_of a hi lo }
{
    (a >> lo) & mask(hi - lo + 1)
}

/// `a` in front of `b`, which has `wb` bits.
pub fn concat(a: u64, wb: u32, b: u64) -> u64
    requires wide { 1 ≤ wb }
    requires narrow { wb ≤ 64 }
    requires front { a < 2 ^ (64 - wb) }
    requires back { b < 2 ^ wb }
    ensures { result ≡ joined a wb b }
{
    if wb == 64 { b } else { (a << wb) | b }
}
