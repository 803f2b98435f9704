//! The parts of a design.

ghost use Rattle.std.specs.Prelude.{◌≡◌};
ghost use Rattle.sap_tree.specs.Precedence.{precedence};
ghost use Rattle.sap_tree.specs.Touches.{is_dynamic_kind};

use crate::name::{Mention, Name};
use crate::place::{Place, Spot};

/// An operator with one operand. `AllOnes`, `AnyOne` and `Odd` are the reductions `&`, `|` and `^`.
#[derive(Clone, Copy, PartialEq, Eq, Debug)]
pub enum UnaryOperator {
    Not,
    Neg,
    AllOnes,
    AnyOne,
    Odd,
}

/// An operator with two operands.
#[derive(Clone, Copy, PartialEq, Eq, Debug)]
pub enum BinaryOperator {
    Or,
    Xor,
    And,
    Eq,
    Ne,
    Lt,
    Le,
    Shl,
    Shr,
    Add,
    Sub,
    Mul,
}

impl BinaryOperator {
    /// How tightly it binds, from 1, the loosest, to 8.
    pub fn precedence(self) -> u32
        ensures { result ≡ precedence self }
    {
        match self {
            BinaryOperator::Or => 1,
            BinaryOperator::Xor => 2,
            BinaryOperator::And => 3,
            BinaryOperator::Eq | BinaryOperator::Ne => 4,
            BinaryOperator::Lt | BinaryOperator::Le => 5,
            BinaryOperator::Shl | BinaryOperator::Shr => 6,
            BinaryOperator::Add | BinaryOperator::Sub => 7,
            BinaryOperator::Mul => 8,
        }
    }
}

/// A number, and the place where it is written.
#[derive(Clone, Copy, PartialEq, Eq, Debug)]
pub struct Numeral {
    pub place: Place,
    pub value: u64,
}

/// An expression.
#[derive(Drop)]
pub enum Expr {
    /// A number without a width.
    Number(Spot, u64),
    /// A number with a width: the width, then the number.
    Sized(Spot, u64, u64),
    /// An input or a register.
    Read(Spot, Name),
    /// A cell of a memory, by its index.
    Cell(Spot, Name, Box<Expr>),
    Unary(Spot, UnaryOperator, Box<Expr>),
    Binary(Spot, BinaryOperator, Box<Expr>, Box<Expr>),
    /// `condition ? arm : arm`.
    Choose(Spot, Box<Expr>, Box<Expr>, Box<Expr>),
    /// The bits from the first number, the high one, down to the second.
    Slice(Spot, Box<Expr>, u64, u64),
    /// Two or more parts, the highest first.
    Concat(Spot, Vec<Expr>),
    /// An expression filled with zeros up to a width.
    Zext(Spot, Box<Expr>, u64),
}

/// A tag expression. The places are those of the words `tag`, `level` and `join`.
#[derive(Drop)]
pub enum TagExpr {
    Level(Mention),
    TagOf(Place, Expr),
    LevelAt(Place, Expr),
    /// Two or more parts.
    Join(Place, Vec<TagExpr>),
}

/// A command that can have a handler. The places are those of the first words.
#[derive(Drop)]
pub enum Simple {
    /// A register and its new value.
    Assign(Mention, Expr),
    /// A memory, an index and the cell's new value.
    Write(Mention, Expr, Expr),
    /// A register or a state, and its new tag.
    SetTag(Place, Mention, TagExpr),
    /// A memory, an index and the cell's new tag.
    SetCellTag(Place, Mention, Expr, TagExpr),
    Goto(Place, Mention),
    Fall(Place),
}

/// Commands in braces, or those of a state, and the place of the token after them.
#[cycle(command)]
#[derive(Drop)]
pub struct Block {
    pub commands: Vec<Cmd>,
    pub after: Place,
}

/// A command.
#[cycle(command)]
#[derive(Drop)]
pub enum Cmd {
    Do(Simple),
    /// A command, the place of its `otherwise` and its handler.
    Try(Simple, Place, Block),
    /// The place of the word `if`, the condition, the block and that of `else`, where one is written.
    If(Place, Expr, Block, Option<Block>),
    /// A command, the place of its `then`, the block after it and that after `otherwise`.
    TryThen(Simple, Place, Block, Block),
    /// The place of the word `case`, the expression, the arms and the block of `else`.
    Case(Place, Expr, Vec<Arm>, Block),
}

/// An arm of a `case`: its constants, and the block that runs where one of them is the number.
#[cycle(command)]
#[derive(Drop)]
pub struct Arm {
    pub constants: Vec<Expr>,
    pub block: Block,
}

/// A written authority: the place of `under`, and the level.
#[derive(Drop)]
pub struct Under {
    pub place: Place,
    pub level: Mention,
}

/// How the tag of an entity behaves.
#[derive(Drop)]
pub enum Kind {
    /// The place of the word `dynamic`.
    Dynamic(Place),
    /// The declared level, and the authority where one is written.
    Enforced(Mention, Option<Under>),
}

impl Kind {
    pub fn is_dynamic(&self) -> bool
        ensures { result ≡ is_dynamic_kind self.now }
    {
        matches!(self, Kind::Dynamic(_))
    }
}

/// A declaration, with the place of its first word.
#[derive(Drop)]
pub enum Decl {
    /// The name and the width.
    Input(Place, Mention, Numeral),
    /// The name, the width, the kind and the initial number, where one is written.
    Register(Place, Mention, Numeral, Kind, Option<Numeral>),
    /// The name, the width, the depth and the kind.
    Memory(Place, Mention, Numeral, Numeral, Kind),
}

/// A state with its children.
#[derive(Drop)]
pub struct State {
    /// The place of the word `state`.
    pub place: Place,
    pub name: Mention,
    pub kind: Kind,
    pub body: Block,
    pub children: Vec<State>,
}
