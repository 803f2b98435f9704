//! Makes expressions and tag expressions of others.

ghost use Rattle.std.specs.Prelude.{◌≡◌, IfOk};
ghost use Rattle.sap_maps.specs.Term as term;
ghost use Rattle.sap_meaning.specs.Program as meaning;
ghost use Rattle.sap_program.specs.Views.{term_of, level_of};

use crate::program::{Number, TagOf};
use sap_bits::{Op1, Op2};
use std::alloc::{AllocError, Global};

impl Number {
    pub fn cell(alloc: Global, memory: usize, index: Number) -> Result<Number, AllocError>
        ensures { IfOk result (λ n. term_of n ≡ term.cell memory (term_of index)) }
    {
        Ok(Number::Cell {
            memory,
            index: Box::new(alloc, index)?,
        })
    }

    pub fn one(alloc: Global, op: Op1, a: Number) -> Result<Number, AllocError>
        ensures { IfOk result (λ n. term_of n ≡ term.one op (term_of a)) }
    {
        Ok(Number::One(op, Box::new(alloc, a)?))
    }

    pub fn two(alloc: Global, op: Op2, a: Number, b: Number) -> Result<Number, AllocError>
        ensures { IfOk result (λ n. term_of n ≡ term.two op (term_of a) (term_of b)) }
    {
        Ok(Number::Two(op, Box::new(alloc, a)?, Box::new(alloc, b)?))
    }

    pub fn choose(
        alloc: Global,
        test: Number,
        yes: Number,
        no: Number,
    ) -> Result<Number, AllocError>
        ensures { IfOk result (λ n. term_of n ≡ term.choose (term_of test) (term_of yes) (term_of no)) }
    {
        Ok(Number::Choose(
            Box::new(alloc, test)?,
            Box::new(alloc, yes)?,
            Box::new(alloc, no)?,
        ))
    }

    pub fn join(alloc: Global, front: Number, back: Number) -> Result<Number, AllocError>
        ensures { IfOk result (λ n. term_of n ≡ term.join (term_of front) (term_of back)) }
    {
        Ok(Number::Join(Box::new(alloc, front)?, Box::new(alloc, back)?))
    }

    pub fn part(alloc: Global, of: Number, hi: u64, lo: u64) -> Result<Number, AllocError>
        ensures { IfOk result (λ n. term_of n ≡ term.part (term_of of) hi lo) }
    {
        Ok(Number::Part {
            of: Box::new(alloc, of)?,
            hi,
            lo,
        })
    }
}

impl TagOf {
    pub fn both(alloc: Global, a: TagOf, b: TagOf) -> Result<TagOf, AllocError>
        ensures { IfOk result (λ t. level_of t ≡ meaning.both (level_of a) (level_of b)) }
    {
        Ok(TagOf::Both(Box::new(alloc, a)?, Box::new(alloc, b)?))
    }
}
