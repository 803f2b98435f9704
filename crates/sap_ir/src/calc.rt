//! Makes and copies expressions.

ghost use Rattle.std.specs.Prelude.{◌≡◌, IfOk, map};
ghost use Rattle.sap_maps.specs.Term.{cell, choose, one, part, two};
ghost use Rattle.sap_ir.specs.Calcs.{joined_terms, term_of};

use crate::guarded::Calc;
use sap_bits::{Op1, Op2};
use sap_net::parts::Name;
use std::alloc::{AllocError, Global};

impl Calc {
    /// A cell of a memory, as it is at the start of the cycle.
    pub fn cell(alloc: Global, memory: Name, index: Calc) -> Result<Calc, AllocError>
        ensures { IfOk result (λ c. term_of c ≡ cell memory (term_of index)) }
    {
        Ok(Calc::Cell {
            memory,
            index: Box::new(alloc, index)?,
        })
    }

    pub fn one(alloc: Global, op: Op1, a: Calc) -> Result<Calc, AllocError>
        ensures { IfOk result (λ c. term_of c ≡ one op (term_of a)) }
    {
        Ok(Calc::One(op, Box::new(alloc, a)?))
    }

    pub fn two(alloc: Global, op: Op2, a: Calc, b: Calc) -> Result<Calc, AllocError>
        ensures { IfOk result (λ c. term_of c ≡ two op (term_of a) (term_of b)) }
    {
        Ok(Calc::Two(op, Box::new(alloc, a)?, Box::new(alloc, b)?))
    }

    /// The second where the first isn't 0, else the third.
    pub fn choose(alloc: Global, test: Calc, yes: Calc, no: Calc) -> Result<Calc, AllocError>
        ensures { IfOk result (λ c. term_of c ≡ choose (term_of test) (term_of yes) (term_of no)) }
    {
        Ok(Calc::Choose(
            Box::new(alloc, test)?,
            Box::new(alloc, yes)?,
            Box::new(alloc, no)?,
        ))
    }

    /// The parts one behind another, the foremost first.
    pub fn concat(parts: Vec<Calc>) -> Calc
        ensures { term_of result ≡ joined_terms (map term_of parts.items) }
    {
        Calc::Concat(parts)
    }

    /// The bits from `lo` up to `hi`, counted from 0.
    pub fn slice(alloc: Global, of: Calc, hi: u32, lo: u32) -> Result<Calc, AllocError>
        ensures { IfOk result (λ c. term_of c ≡ part (term_of of) hi lo) }
    {
        Ok(Calc::Slice {
            of: Box::new(alloc, of)?,
            hi,
            lo,
        })
    }

    /// A second expression that is seen as the same.
    #[cycle(copy)]
    pub fn copy(&self, alloc: Global) -> Result<Calc, AllocError>
        ensures { IfOk result (λ c. term_of c ≡ term_of self.now) }
    {
        match self {
            Calc::Constant { width, value } => Ok(Calc::Constant {
                width: *width,
                value: *value,
            }),
            Calc::Read(name) => Ok(Calc::Read(name.copy(alloc)?)),
            Calc::Cell { memory, index } => {
                let memory = memory.copy(alloc)?;
                let index = index.copy(alloc)?;
                Calc::cell(alloc, memory, index)
            }
            Calc::One(op, a) => {
                let a = a.copy(alloc)?;
                Calc::one(alloc, *op, a)
            }
            Calc::Two(op, a, b) => {
                let a = a.copy(alloc)?;
                let b = b.copy(alloc)?;
                Calc::two(alloc, *op, a, b)
            }
            Calc::Choose(test, yes, no) => {
                let test = test.copy(alloc)?;
                let yes = yes.copy(alloc)?;
                let no = no.copy(alloc)?;
                Calc::choose(alloc, test, yes, no)
            }
            Calc::Concat(parts) => {
                let parts = copy_all(alloc, parts)?;
                Ok(Calc::concat(parts))
            }
            Calc::Slice { of, hi, lo } => {
                let of = of.copy(alloc)?;
                Calc::slice(alloc, of, *hi, *lo)
            }
        }
    }
}

/// Second expressions that are seen as the same.
#[cycle(copy)]
fn copy_all(alloc: Global, parts: &[Calc]) -> Result<Vec<Calc>, AllocError>
    ensures { IfOk result (λ copies. map term_of copies.items ≡ map term_of parts.now) }
{
    let mut copies = Vec::new(alloc);
    for part in parts {
        let copy = part.copy(alloc)?;
        copies.push(copy)?;
    }
    Ok(copies)
}
