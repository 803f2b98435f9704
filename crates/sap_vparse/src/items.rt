//! A module's text without its layout. A place is the number of bytes of the text before what stands there.

ghost use Rattle.std.specs.Prelude.{◌≡◌};

use sap_bits::{Op1, Op2};
use sap_net::parts::Name;
use std::marker::Model;

/// A name where it stands.
#[derive(Drop)]
pub struct Mention {
    pub place: u64,
    pub name: Name,
}

/// A number where it stands.
#[derive(Clone, Copy, PartialEq, Eq)]
pub struct Number {
    pub place: u64,
    pub value: u64,
}

/// A number of a width where it stands.
#[derive(Clone, Copy, PartialEq, Eq)]
pub struct Constant {
    pub place: u64,
    pub width: u64,
    pub value: u64,
}

/// What an operator reads.
#[derive(Drop)]
pub enum Operand {
    Named(Mention),
    Constant(Constant),
}

/// The operands of a concatenation, the foremost first, seen as a list.
#[derive(Drop)]
pub struct Operands {
    list: Vec<Operand>,
}

impl Model for Operands {
    ghost use Rattle.std.specs.Prelude.{List};
    ghost use Rattle.sap_vparse.specs.declared.items.Operand.{Operand};

    ghost Value = { List Operand };

    ghost view = { λ o. o.list.items };
}

impl Operands {
    /// The operands of this list.
    pub fn new(list: Vec<Operand>) -> Operands
        ensures { result ≡ list.items }
    {
        Operands { list }
    }

    pub fn as_slice(&self) -> &[Operand]
        ensures { result.now ≡ self.now }
    {
        self.list.as_slice()
    }
}

/// The right side of an `assign`.
#[derive(Drop)]
pub enum Right {
    Copy(Operand),
    One(Op1, Operand),
    Two(Op2, Operand, Operand),
    /// A condition; the value where it is 1; the value where it is 0.
    Choose(Operand, Operand, Operand),
    Concat(Operands),
    /// A name, its highest bit, and its lowest.
    Slice(Mention, u64, u64),
    /// A memory, and its index.
    Cell(Mention, Operand),
}

/// What a port is declared as.
#[derive(Clone, Copy, PartialEq, Eq)]
pub enum Direction {
    Input,
    OutputRegister,
    OutputWire,
}

/// A port, with the number of its range.
#[derive(Drop)]
pub struct Port {
    pub direction: Direction,
    pub range: Number,
    pub name: Mention,
}

/// An item. A declaration has the number of its range before its name.
#[derive(Drop)]
pub enum Item {
    Wire(Number, Mention),
    Register(Number, Mention),
    /// With the number of its last cell.
    Memory(Number, Mention, Number),
    /// With the place of `integer`.
    Integer(u64),
    Assign(Mention, Right),
    Initial(Mention, Constant),
    /// The `for` of a memory's first contents: the place of its first `i`, its bound, the memory and the value.
    InitialCells(u64, Number, Mention, Constant),
    Always(Mention, Operand),
    /// The `always` of a memory: the condition, the memory, the index and the value.
    AlwaysCell(Operand, Mention, Operand, Operand),
}

/// A whole module, with its ports and items in the order of the text.
#[derive(Drop)]
pub struct File {
    pub module_name: Name,
    pub ports: Vec<Port>,
    pub items: Vec<Item>,
}
