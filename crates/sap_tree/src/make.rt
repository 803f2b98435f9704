//! Makes expressions, tag expressions, commands and states.

ghost use Rattle.std.specs.Prelude.{◌≡◌, IfOk};
ghost use Rattle.sap_tree.specs.Spots.{enclosed, first_of, from_place, spot_of};
ghost use Rattle.sap_tree.specs.Syntax;
ghost use Rattle.sap_tree.specs.Trees.{arms_of, block_of, command_of, else_of, expression_of, expressions_of, simple_of, state_of, states_of, tag_of, tags_of};

use crate::name::{Mention, Name};
use crate::place::{Place, Spot};
use crate::syntax::{
    Arm, BinaryOperator, Block, Cmd, Expr, Kind, Simple, State, TagExpr, UnaryOperator,
};
use std::alloc::{AllocError, Global};

impl Expr {
    #[tactic(auto, using(crate::proofs::Views::views))]
    pub fn number(spot: Spot, value: u64) -> Expr
        ensures { expression_of result ≡ Syntax.literal spot value }
    {
        Expr::Number(spot, value)
    }

    #[tactic(auto, using(crate::proofs::Views::views))]
    pub fn sized(spot: Spot, width: u64, value: u64) -> Expr
        ensures { expression_of result ≡ Syntax.sized_literal spot width value }
    {
        Expr::Sized(spot, width, value)
    }

    #[tactic(auto, using(crate::proofs::Views::views))]
    pub fn read(spot: Spot, name: Name) -> Expr
        ensures { expression_of result ≡ Syntax.variable spot name }
    {
        Expr::Read(spot, name)
    }

    #[tactic(auto, using(crate::proofs::Views::views))]
    pub fn cell(spot: Spot, memory: Name, index: Box<Expr>) -> Expr
        ensures { expression_of result ≡ Syntax.cell_at spot memory (expression_of index.value) }
    {
        Expr::Cell(spot, memory, index)
    }

    #[tactic(auto, using(crate::proofs::Views::views))]
    pub fn unary(
        alloc: Global,
        spot: Spot,
        operator: UnaryOperator,
        operand: Expr,
    ) -> Result<Expr, AllocError>
        ensures { IfOk result (λ x. expression_of x ≡ Syntax.unary_of spot operator (expression_of operand)) }
    {
        Ok(Expr::Unary(spot, operator, Box::new(alloc, operand)?))
    }

    #[tactic(auto, using(crate::proofs::Views::views))]
    pub fn binary(
        alloc: Global,
        spot: Spot,
        operator: BinaryOperator,
        left: Box<Expr>,
        right: Expr,
    ) -> Result<Expr, AllocError>
        ensures { IfOk result (λ x. expression_of x ≡ Syntax.binary_of spot operator (expression_of left.value) (expression_of right)) }
    {
        Ok(Expr::Binary(spot, operator, left, Box::new(alloc, right)?))
    }

    /// `condition ? one : other`.
    #[tactic(auto, using(crate::proofs::Views::views))]
    pub fn choose(
        alloc: Global,
        spot: Spot,
        condition: Box<Expr>,
        one: Box<Expr>,
        other: Expr,
    ) -> Result<Expr, AllocError>
        ensures { IfOk result (λ x. expression_of x ≡ Syntax.choice spot (expression_of condition.value) (expression_of one.value) (expression_of other)) }
    {
        Ok(Expr::Choose(spot, condition, one, Box::new(alloc, other)?))
    }

    #[tactic(auto, using(crate::proofs::Views::views))]
    pub fn slice(spot: Spot, operand: Box<Expr>, high: u64, low: u64) -> Expr
        ensures { expression_of result ≡ Syntax.slice spot (expression_of operand.value) high low }
    {
        Expr::Slice(spot, operand, high, low)
    }

    #[tactic(auto, using(crate::proofs::Views::views))]
    pub fn concat(spot: Spot, parts: Vec<Expr>) -> Expr
        ensures { expression_of result ≡ Syntax.concat spot (expressions_of parts.items) }
    {
        Expr::Concat(spot, parts)
    }

    #[tactic(auto, using(crate::proofs::Views::views))]
    pub fn zext(spot: Spot, operand: Box<Expr>, width: u64) -> Expr
        ensures { expression_of result ≡ Syntax.zero_extend spot (expression_of operand.value) width }
    {
        Expr::Zext(spot, operand, width)
    }

    /// Where the expression stands.
    #[tactic(auto, using(crate::proofs::Views::views), unfolding(crate::specs::Spots::spot_of))]
    pub fn spot(&self) -> Spot
        ensures { result ≡ spot_of (expression_of self.now) }
    {
        match self {
            Expr::Number(spot, _)
            | Expr::Sized(spot, _, _)
            | Expr::Read(spot, _)
            | Expr::Cell(spot, _, _)
            | Expr::Unary(spot, _, _)
            | Expr::Binary(spot, _, _, _)
            | Expr::Choose(spot, _, _, _)
            | Expr::Slice(spot, _, _, _)
            | Expr::Concat(spot, _)
            | Expr::Zext(spot, _, _) => *spot,
        }
    }

    /// The place of the first token.
    #[tactic(auto, unfolding(crate::specs::Spots::first_of))]
    pub fn first(&self) -> Place
        ensures { result ≡ first_of (expression_of self.now) }
    {
        self.spot().first
    }

    /// The expression in parentheses that begin at `place`.
    #[tactic(auto, using(crate::proofs::Views::views), unfolding(crate::specs::Spots::enclosed))]
    pub fn enclosed(self, place: Place) -> Expr
        ensures { expression_of result ≡ enclosed place (expression_of self) }
    {
        match self {
            Expr::Number(spot, value) => Expr::Number(from_place(place, spot), value),
            Expr::Sized(spot, width, value) => Expr::Sized(from_place(place, spot), width, value),
            Expr::Read(spot, name) => Expr::Read(from_place(place, spot), name),
            Expr::Cell(spot, memory, index) => Expr::Cell(from_place(place, spot), memory, index),
            Expr::Unary(spot, operator, operand) => Expr::Unary(
                from_place(place, spot),
                operator,
                operand,
            ),
            Expr::Binary(spot, operator, left, right) => Expr::Binary(
                from_place(place, spot),
                operator,
                left,
                right,
            ),
            Expr::Choose(spot, condition, one, other) => Expr::Choose(
                from_place(place, spot),
                condition,
                one,
                other,
            ),
            Expr::Slice(spot, operand, high, low) => Expr::Slice(
                from_place(place, spot),
                operand,
                high,
                low,
            ),
            Expr::Concat(spot, parts) => Expr::Concat(from_place(place, spot), parts),
            Expr::Zext(spot, operand, width) => Expr::Zext(from_place(place, spot), operand, width),
        }
    }
}

fn from_place(place: Place, spot: Spot) -> Spot
    ensures { result ≡ from_place place spot }
{
    Spot {
        first: place,
        at: spot.at,
    }
}

impl TagExpr {
    #[tactic(auto, using(crate::proofs::Views::views))]
    pub fn level(name: Mention) -> TagExpr
        ensures { tag_of result ≡ Syntax.level_of name }
    {
        TagExpr::Level(name)
    }

    #[tactic(auto, using(crate::proofs::Views::views))]
    pub fn tag(place: Place, operand: Expr) -> TagExpr
        ensures { tag_of result ≡ Syntax.tag_at place (expression_of operand) }
    {
        TagExpr::TagOf(place, operand)
    }

    #[tactic(auto, using(crate::proofs::Views::views))]
    pub fn level_at(place: Place, operand: Expr) -> TagExpr
        ensures { tag_of result ≡ Syntax.level_at place (expression_of operand) }
    {
        TagExpr::LevelAt(place, operand)
    }

    #[tactic(auto, using(crate::proofs::Views::views))]
    pub fn join(place: Place, parts: Vec<TagExpr>) -> TagExpr
        ensures { tag_of result ≡ Syntax.join_of place (tags_of parts.items) }
    {
        TagExpr::Join(place, parts)
    }
}

impl Cmd {
    #[tactic(auto, using(crate::proofs::Views::views))]
    pub fn plain(command: Simple) -> Cmd
        ensures { command_of result ≡ Syntax.lone (simple_of command) }
    {
        Cmd::Do(command)
    }

    #[tactic(auto, using(crate::proofs::Views::views))]
    pub fn handled(command: Simple, otherwise: Place, handler: Block) -> Cmd
        ensures { command_of result ≡ Syntax.try (simple_of command) otherwise (block_of handler) }
    {
        Cmd::Try(command, otherwise, handler)
    }

    #[tactic(auto, using(crate::proofs::Views::views))]
    pub fn branch(place: Place, condition: Expr, block: Block, other: Option<Block>) -> Cmd
        ensures { command_of result ≡ Syntax.if_else place (expression_of condition) (block_of block) (else_of other) }
    {
        Cmd::If(place, condition, block, other)
    }

    /// `command then { accepted } otherwise { refused }`.
    #[tactic(auto, using(crate::proofs::Views::views))]
    pub fn decided(command: Simple, then: Place, accepted: Block, refused: Block) -> Cmd
        ensures { command_of result ≡ Syntax.try_then (simple_of command) then (block_of accepted) (block_of refused) }
    {
        Cmd::TryThen(command, then, accepted, refused)
    }

    #[tactic(auto, using(crate::proofs::Views::views))]
    pub fn case(place: Place, number: Expr, arms: Vec<Arm>, last: Block) -> Cmd
        ensures { command_of result ≡ Syntax.case_of place (expression_of number) (arms_of arms.items (block_of last)) }
    {
        Cmd::Case(place, number, arms, last)
    }
}

impl State {
    #[tactic(auto, using(crate::proofs::Views::views))]
    pub fn new(place: Place, name: Mention, kind: Kind, body: Block, children: Vec<State>) -> State
        ensures { state_of result ≡ Syntax.state_node place name kind (block_of body) (states_of children.items) }
    {
        State {
            place,
            name,
            kind,
            body,
            children,
        }
    }
}
