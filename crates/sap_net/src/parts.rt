//! The parts of a netlist.

ghost use Rattle.std.specs.Prelude.{◌≡◌, IfOk};

use sap_bits::{Op1, Op2};
pub use sap_text::name::Name;
use std::alloc::{AllocError, Global};
use std::marker::Model;

/// What an operator reads: an input, a wire or a register, or a number of a width.
#[derive(Debug, Drop)]
pub enum Operand {
    Named(Name),
    Constant { width: u32, value: u64 },
}

impl Operand {
    /// A second operand, equal to this one.
    pub fn copy(&self, alloc: Global) -> Result<Operand, AllocError>
        ensures { IfOk result (λ o. o ≡ self.now) }
    {
        match self {
            Operand::Named(name) => {
                let copy = name.copy(alloc)?;
                Ok(Operand::Named(copy))
            }
            Operand::Constant { width, value } => Ok(Operand::Constant {
                width: *width,
                value: *value,
            }),
        }
    }
}

/// The operands of a concatenation, the foremost first, seen as a list.
#[derive(Debug, Drop)]
pub struct Operands {
    list: Vec<Operand>,
}

// Operands are seen as their list.
impl Model for Operands {
    ghost use Rattle.std.specs.Prelude.{List};
    ghost use Rattle.sap_net.specs.declared.parts.Operand.{Operand};

    ghost Value = { List Operand };

    ghost view = { λ o. o.list.items };
}

impl Operands {
    /// The operands of this list.
    pub fn new(list: Vec<Operand>) -> Operands
        ensures { result ≡ list.items }
    {
        Operands { list }
    }

    /// Gives the list back.
    pub fn into_vec(self) -> Vec<Operand>
        ensures { result.items ≡ self }
    {
        self.list
    }

    pub fn as_slice(&self) -> &[Operand]
        ensures { result.now ≡ self.now }
    {
        self.list.as_slice()
    }
}

/// The right side of an `assign`.
#[derive(Debug, Drop)]
pub enum Right {
    Copy(Operand),
    One(Op1, Operand),
    Two(Op2, Operand, Operand),
    /// A condition of one bit; the value where it is 1; the value where it is 0.
    Choose(Operand, Operand, Operand),
    Concat(Operands),
    /// The bits of a value from `lo` up to `hi`, counted from 0.
    Slice { name: Name, hi: u32, lo: u32 },
    /// A cell of a memory, as it is before the edge.
    Cell { memory: Name, index: Operand },
}

/// What a port shows.
#[derive(Clone, Copy, PartialEq, Eq, Debug)]
pub enum PortKind {
    Input,
    Register,
    Wire,
}

/// A port of a netlist: what it shows.
#[derive(Debug, Drop)]
pub struct Port {
    pub name: Name,
    pub kind: PortKind,
}

/// An input of a netlist.
#[derive(Debug, Drop)]
pub struct Input {
    pub name: Name,
    pub width: u32,
}

/// A wire of a netlist, with the right side of its equation.
#[derive(Debug, Drop)]
pub struct Wire {
    pub name: Name,
    pub width: u32,
    pub right: Right,
}

/// A register: `start` is its number before the first edge, `next` what it takes at each edge.
#[derive(Debug, Drop)]
pub struct Register {
    pub name: Name,
    pub width: u32,
    pub start: u64,
    pub next: Operand,
}

/// A memory of `depth` cells, each `start` before the first edge. At an edge where `enable` is 1 the cell at
/// `index` takes `value`.
#[derive(Debug, Drop)]
pub struct Memory {
    pub name: Name,
    pub width: u32,
    pub depth: u32,
    pub start: u64,
    pub enable: Operand,
    pub index: Operand,
    pub value: Operand,
}

/// All parts of a netlist: `names` has all declared names but the clock's in the order of declaration, `ports` the ports but
/// the clock in their order, `inputs` the inputs but the clock in port order, `wires` the wires in the order of their assigns,
/// `registers` and `memories` each in the order of declaration.
#[derive(Debug, Drop)]
pub struct Parts {
    pub module_name: Name,
    pub names: Vec<Name>,
    pub ports: Vec<Port>,
    pub inputs: Vec<Input>,
    pub wires: Vec<Wire>,
    pub registers: Vec<Register>,
    pub memories: Vec<Memory>,
}
