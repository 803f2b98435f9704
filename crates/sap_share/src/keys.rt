//! The bytes that tell right sides apart.

ghost use Rattle.std.specs.Prelude.{◌≡◌, ◌++◌, ◌∷◌, [], IfOk, OnOk, length};
ghost use Rattle.std.specs.Str.{bytes_eq};
ghost use Rattle.std.specs.Cmp.{partial_equiv_from_equiv};
ghost use Rattle.std.specs.Cmp.Lexicographic.{nat_list_eq_equiv};
ghost use Rattle.std.specs.Cmp.Rules.{hashing};
ghost use Rattle.std.proofs.Common.{rules};
ghost use Rattle.sap_share.specs.Keys as spec;

use sap_bits::{Op1, Op2};
use sap_net::parts::{Operand, Right};
use std::alloc::{AllocError, Global};
use std::hash::{Hash, Hasher};
use std::marker::Model;

/// Room for the right side of a choice on three names of up to ten bytes, which holds what most wires have.
const MOST_BYTES: usize = 40;

/// The bytes of a right side at a width, seen as these. They are hashed at once.
#[derive(Drop)]
pub struct RightKey {
    bytes: Vec<u8>,
}

impl Model for RightKey {
    ghost use Rattle.std.specs.Prelude.{ℕ, List};

    ghost Value = { List ℕ };

    ghost view = { λ k. k.bytes.items };
}

impl PartialEq for RightKey {
    ghost eq = { bytes_eq };

    ghost laws = { partial_equiv_from_equiv nat_list_eq_equiv };

    fn eq(&self, other: &RightKey) -> bool {
        self.bytes.as_slice() == other.bytes.as_slice()
    }
}

impl Eq for RightKey {
    ghost laws = { nat_list_eq_equiv };
}

impl Hash for RightKey {
    ghost hash_input = { λ k. k ∷ [] };

    ghost respects_eq = { Prim.search (hashing, rules) };

    fn hash<H: Hasher>(&self, state: &mut H) {
        state.write(&self.bytes);
    }
}

fn number_one(op: Op1) -> u8
    ensures { result ≡ spec.number1 op }
{
    match op {
        Op1::Not => 0,
        Op1::Neg => 1,
        Op1::AllOnes => 2,
        Op1::AnyOne => 3,
        Op1::Odd => 4,
    }
}

fn number_two(op: Op2) -> u8
    ensures { result ≡ spec.number2 op }
{
    match op {
        Op2::Add => 0,
        Op2::Sub => 1,
        Op2::Mul => 2,
        Op2::And => 3,
        Op2::Or => 4,
        Op2::Xor => 5,
        Op2::Eq => 6,
        Op2::Ne => 7,
        Op2::Lt => 8,
        Op2::Le => 9,
        Op2::Shl => 10,
        Op2::Shr => 11,
    }
}

fn add_number(key: &mut Vec<u8>, number: u64) -> Result<(), AllocError>
    ensures { OnOk result (key.new.items ≡ key.old.items ++ spec.number number) }
{
    let mut rest = number;
    while rest >= 128 {
        key.push((128 + rest % 128) as u8)?;
        rest /= 128;
    }
    key.push(rest as u8)?;
    Ok(())
}

fn add_numbers(key: &mut Vec<u8>, first: u64, second: u64) -> Result<(), AllocError>
    ensures { OnOk result (key.new.items ≡ key.old.items ++ (spec.number first ++ spec.number second)) }
{
    add_number(key, first)?;
    add_number(key, second)
}

// What stands in front of a name of so many bytes.
#[tactic(auto, using(crate::proofs::Digits::number_last))]
fn add_length(key: &mut Vec<u8>, length: usize) -> Result<(), AllocError>
    ensures { OnOk result (key.new.items ≡ key.old.items ++ 0 ∷ spec.number length) }
{
    if length < 128 {
        return key.extend_from_slice(&[0, length as u8]);
    }
    key.push(0)?;
    add_number(key, length as u64)
}

fn add_operand(key: &mut Vec<u8>, operand: &Operand) -> Result<(), AllocError>
    ensures { OnOk result (key.new.items ≡ key.old.items ++ spec.operand_bytes operand.now) }
{
    match operand {
        Operand::Named(name) => {
            let bytes = name.as_bytes();
            add_length(key, bytes.len())?;
            key.extend_from_slice(bytes)
        }
        Operand::Constant { width, value } => {
            key.push(1)?;
            add_numbers(key, u64::from(*width), *value)
        }
    }
}

// A number of one byte, and an operand after it.
fn add_numbered(key: &mut Vec<u8>, number: u8, operand: &Operand) -> Result<(), AllocError>
    ensures { OnOk result (key.new.items ≡ key.old.items ++ (number ∷ spec.operand_bytes operand.now)) }
{
    key.push(number)?;
    add_operand(key, operand)
}

fn add_pair(key: &mut Vec<u8>, a: &Operand, b: &Operand) -> Result<(), AllocError>
    ensures { OnOk result (key.new.items ≡ key.old.items ++ (spec.operand_bytes a.now ++ spec.operand_bytes b.now)) }
{
    add_operand(key, a)?;
    add_operand(key, b)
}

fn add_operands(key: &mut Vec<u8>, operands: &[Operand]) -> Result<(), AllocError>
    ensures { OnOk result (key.new.items ≡ key.old.items ++ spec.operands_bytes operands.now) }
{
    for operand in operands {
        add_operand(key, operand)?;
    }
    Ok(())
}

// A list of operands, its length in front.
fn add_list(key: &mut Vec<u8>, operands: &[Operand]) -> Result<(), AllocError>
    ensures { OnOk result (key.new.items ≡ key.old.items ++ (spec.number (length operands.now) ++ spec.operands_bytes operands.now)) }
{
    add_number(key, operands.len() as u64)?;
    add_operands(key, operands)
}

fn add_right(key: &mut Vec<u8>, right: &Right) -> Result<(), AllocError>
    ensures { OnOk result (key.new.items ≡ key.old.items ++ spec.right_bytes right.now) }
{
    match right {
        Right::Copy(a) => add_numbered(key, 0, a),
        Right::One(op, a) => {
            key.push(1)?;
            add_numbered(key, number_one(*op), a)
        }
        Right::Two(op, a, b) => {
            key.push(2)?;
            key.push(number_two(*op))?;
            add_pair(key, a, b)
        }
        Right::Choose(c, a, b) => {
            add_numbered(key, 3, c)?;
            add_pair(key, a, b)
        }
        Right::Concat(operands) => {
            key.push(4)?;
            add_list(key, operands.as_slice())
        }
        Right::Slice { name, hi, lo } => {
            key.push(5)?;
            add_numbers(key, u64::from(*hi), u64::from(*lo))?;
            key.extend_from_slice(name.as_bytes())
        }
        Right::Cell { memory, index } => {
            add_numbered(key, 6, index)?;
            key.extend_from_slice(memory.as_bytes())
        }
    }
}

/// The bytes of a right side at a width.
#[tactic(auto, unfolding(crate::specs::Keys::key))]
pub fn key(alloc: Global, width: u32, right: &Right) -> Result<RightKey, AllocError>
    ensures { IfOk result (λ k. k ≡ spec.key width right.now) }
{
    let mut bytes = Vec::with_capacity(alloc, MOST_BYTES)?;
    add_number(&mut bytes, u64::from(width))?;
    add_right(&mut bytes, right)?;
    Ok(RightKey { bytes })
}
