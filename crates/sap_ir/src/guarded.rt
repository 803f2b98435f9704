//! Flat lists of assignments, each under a condition.

ghost use Rattle.std.specs.Prelude.{◌≡◌, IfOk};
ghost use Rattle.sap_ir.specs.IsGuarded.{variable_names};

use sap_bits::{Op1, Op2};
use sap_net::parts::Name;
use std::alloc::{AllocError, Global};

/// An expression over names.
#[derive(Drop)]
pub enum Calc {
    Constant { width: u32, value: u64 },
    Read(Name),
    /// A cell of a memory, as it is at the start of the cycle.
    Cell { memory: Name, index: Box<Calc> },
    One(Op1, Box<Calc>),
    Two(Op2, Box<Calc>, Box<Calc>),
    /// The second where the first isn't 0, else the third.
    Choose(Box<Calc>, Box<Calc>, Box<Calc>),
    /// The parts one behind another, the foremost first.
    Concat(Vec<Calc>),
    /// The bits from `lo` up to `hi`, counted from 0.
    Slice { of: Box<Calc>, hi: u32, lo: u32 },
}

/// An input, a wire or a register. `start` is the number that a register has before the first cycle.
#[derive(Drop)]
pub struct Var {
    pub name: Name,
    pub width: u32,
    pub start: u64,
}

/// The names of variables, in order.
pub fn variable_names(alloc: Global, variables: &[Var]) -> Result<Vec<Name>, AllocError>
    ensures { IfOk result (λ names. names.items ≡ variable_names variables.now) }
{
    let mut names = Vec::new(alloc);
    for variable in variables {
        names.push(variable.name.copy(alloc)?)?;
    }
    Ok(names)
}

/// A memory of `depth` cells, each `start` before the first cycle.
#[derive(Drop)]
pub struct MemoryVariable {
    pub name: Name,
    pub width: u32,
    pub depth: u32,
    pub start: u64,
}

#[derive(Drop)]
pub enum Act {
    Set(Name, Calc),
    Put {
        memory: Name,
        index: Calc,
        value: Calc,
    },
}

/// What is done where the condition isn't 0.
#[derive(Drop)]
pub struct GuardedCmd {
    pub when: Calc,
    pub act: Act,
}

/// All parts of a program: `ports` are the registers and wires that are output ports, in order.
#[derive(Drop)]
pub struct GuardedParts {
    pub inputs: Vec<Var>,
    pub wires: Vec<Var>,
    pub registers: Vec<Var>,
    pub memories: Vec<MemoryVariable>,
    pub ports: Vec<Name>,
    pub cmds: Vec<GuardedCmd>,
}
