//! The reader of commands.

ghost use Rattle.std.specs.Prelude.{◌≡◌, ◌≢◌, ◌≤◌, ◌<◌, ◌+◌, ◌^◌, IfOk, false, length, true};
ghost use Rattle.sap_parse.specs.Choices.{command_head, is_constant, primary_of};
ghost use Rattle.sap_parse.specs.Grammar as g;
ghost use Rattle.sap_parse.specs.Joining.{CollectsArms, CollectsConstants};
ghost use Rattle.sap_parse.specs.Reading.{Goes, ahead};
ghost use Rattle.sap_parse.specs.CommandRows.{ArmHead, ArmsBetween, Behind, CellPart, Ends, NewTag, NewValue, TagPlace, arms_row, assigned, behind_row, constants_row, ended, new_tag_row, new_value_row, tag_place_row, tag_set};
ghost use Rattle.sap_parse.specs.Rows.{RowGoes};
ghost use Rattle.sap_parse.specs.Stages.{here};
ghost use Rattle.sap_parse.specs.Table as s;
ghost use Rattle.sap_tree.specs.Trees.{arm_block_of, arms_of, block_of, command_of, commands_of, constants_of, else_of, expression_of, expressions_of, simple_of, tag_of};

use crate::choice::{CommandHead, Primary, command_head, primary_of};
use crate::cursor::{Cursor, Fault};
use crate::expr::{asked, between, expr, spot};
use crate::role::Role;
use crate::tag::tag_expr;
use sap_lex::token::Sign;
use sap_tree::name::Mention;
use sap_tree::place::Place;
use sap_tree::syntax::{Arm, Block, Cmd, Expr, Simple, TagExpr};
use sap_tree::word::Word;
use std::alloc::Global;

/// What follows a command that can have a handler.
#[derive(Drop)]
pub enum Handling {
    /// `;`
    Plain,
    /// The place of `otherwise`, and the block behind it.
    Handled(Place, Block),
    /// The place of `then`, the block behind it and that behind `otherwise`.
    Decided(Place, Block, Block),
}

impl Handling {
    /// The command with what follows it.
    fn applied_to(self, command: Simple) -> Cmd
        ensures { command_of result ≡ ended (simple_of command) self }
    {
        match self {
            Handling::Plain => Cmd::plain(command),
            Handling::Handled(place, handler) => Cmd::handled(command, place, handler),
            Handling::Decided(place, accepted, refused) => Cmd::decided(
                command, place, accepted, refused,
            ),
        }
    }
}

/// The index in brackets behind the name of a memory, where one is written.
#[tactic(auto, using(crate::proofs::Walks::cell_parts))]
fn cell_part(alloc: Global, tokens: &mut Cursor<'_>) -> Result<Option<Expr>, Fault>
    ensures goes { Goes s.cell_part tokens.old result tokens.new }
    ensures tree { IfOk result (λ cell. CellPart tokens.old cell tokens.new) }
    ensures no_longer { IfOk result (λ _. length tokens.new.left ≤ length tokens.old.left) }
{
    if !tokens.at_sign(Sign::OpenBracket) {
        return Ok(None);
    }
    let (_, index) = between(
        alloc,
        tokens,
        Role::Plain,
        Sign::OpenBracket,
        Role::Plain,
        Sign::CloseBracket,
    )?;
    Ok(Some(Box::into_inner(index)))
}

/// `:=` and the new value.
#[tactic(auto, using(crate::proofs::Walks::enclosing))]
fn new_value(alloc: Global, tokens: &mut Cursor<'_>) -> Result<Expr, Fault>
    ensures goes { RowGoes new_value_row tokens.old result tokens.new }
    ensures tree { IfOk result (λ x. NewValue tokens.old (expression_of x) tokens.new) }
    ensures shorter { IfOk result (λ _. length tokens.new.left < length tokens.old.left) }
{
    tokens.sign(Role::Plain, Sign::Becomes)?;
    expr(alloc, tokens)
}

/// An assignment, or a write where an index is given.
fn assigned(name: Mention, index: Option<Expr>, value: Expr) -> Simple
    ensures { simple_of result ≡ assigned name index value }
{
    match index {
        Some(index) => Simple::Write(name, index, value),
        None => Simple::Assign(name, value),
    }
}

/// An assignment or a write.
#[tactic(auto, using(crate::proofs::Walks::targets))]
fn assign(alloc: Global, tokens: &mut Cursor<'_>, depth: u64) -> Result<Simple, Fault>
    requires { command_head (ahead tokens.old.left) ≡ CommandHead.Name }
    ensures goes { Goes (s.simple depth) tokens.old result tokens.new }
    ensures tree { IfOk result (λ c. g.Simple depth tokens.old (simple_of c) tokens.new) }
    ensures shorter { IfOk result (λ _. length tokens.new.left < length tokens.old.left) }
{
    let name = tokens.name(alloc, Role::Command(depth))?;
    let index = cell_part(alloc, tokens)?;
    let value = new_value(alloc, tokens)?;
    Ok(assigned(name, index, value))
}

/// `setTag`, `(` and a name.
#[tactic(auto, using(crate::proofs::Walks::enclosing))]
fn tag_place(alloc: Global, tokens: &mut Cursor<'_>, depth: u64) -> Result<(Place, Mention), Fault>
    ensures goes { RowGoes (tag_place_row depth) tokens.old result tokens.new }
    ensures tree { IfOk result (λ x. TagPlace depth tokens.old x.0 x.1 tokens.new) }
    ensures shorter { IfOk result (λ _. length tokens.new.left < length tokens.old.left) }
{
    let place = tokens.word(Role::Command(depth), Word::SetTag)?;
    tokens.sign(Role::Plain, Sign::OpenParen)?;
    let name = tokens.name(alloc, Role::Plain)?;
    Ok((place, name))
}

/// `,`, the new tag and `)`.
#[tactic(auto, using(crate::proofs::Walks::enclosing))]
fn new_tag(alloc: Global, tokens: &mut Cursor<'_>) -> Result<TagExpr, Fault>
    ensures goes { RowGoes new_tag_row tokens.old result tokens.new }
    ensures tree { IfOk result (λ x. NewTag tokens.old (tag_of x) tokens.new) }
    ensures shorter { IfOk result (λ _. length tokens.new.left < length tokens.old.left) }
{
    tokens.sign(Role::Plain, Sign::Comma)?;
    let read = tag_expr(alloc, tokens)?;
    let tag = Box::new(alloc, read)?;
    tokens.sign(Role::Plain, Sign::CloseParen)?;
    Ok(Box::into_inner(tag))
}

/// A `setTag`, of a cell where an index is given.
fn tag_set(place: Place, name: Mention, index: Option<Expr>, tag: TagExpr) -> Simple
    ensures { simple_of result ≡ tag_set place name index tag }
{
    match index {
        Some(index) => Simple::SetCellTag(place, name, index, tag),
        None => Simple::SetTag(place, name, tag),
    }
}

#[tactic(auto, using(crate::proofs::Walks::tag_setting))]
fn set_tag(alloc: Global, tokens: &mut Cursor<'_>, depth: u64) -> Result<Simple, Fault>
    ensures goes { Goes (s.set_tag depth) tokens.old result tokens.new }
    ensures tree { IfOk result (λ c. g.Simple depth tokens.old (simple_of c) tokens.new) }
    ensures shorter { IfOk result (λ _. length tokens.new.left < length tokens.old.left) }
{
    let (place, name) = tag_place(alloc, tokens, depth)?;
    let index = cell_part(alloc, tokens)?;
    let tag = new_tag(alloc, tokens)?;
    Ok(tag_set(place, name, index, tag))
}

#[tactic(auto, using(crate::proofs::Walks::going))]
fn goto(alloc: Global, tokens: &mut Cursor<'_>, depth: u64) -> Result<Simple, Fault>
    ensures goes { Goes (s.goto depth) tokens.old result tokens.new }
    ensures tree { IfOk result (λ c. g.Simple depth tokens.old (simple_of c) tokens.new) }
    ensures shorter { IfOk result (λ _. length tokens.new.left < length tokens.old.left) }
{
    let place = tokens.word(Role::Command(depth), Word::Goto)?;
    let target = tokens.name(alloc, Role::Plain)?;
    Ok(Simple::Goto(place, target))
}

#[tactic(auto, using(crate::proofs::Walks::binding))]
fn fall(tokens: &mut Cursor<'_>, depth: u64) -> Result<Simple, Fault>
    ensures goes { Goes (s.word (Role.Command depth) Word.Fall) tokens.old result tokens.new }
    ensures tree { IfOk result (λ c. g.Simple depth tokens.old (simple_of c) tokens.new) }
    ensures shorter { IfOk result (λ _. length tokens.new.left < length tokens.old.left) }
{
    let place = tokens.word(Role::Command(depth), Word::Fall)?;
    Ok(Simple::Fall(place))
}

/// A command that can have a handler.
#[tactic(auto, using(crate::proofs::Walks::simples))]
fn simple(alloc: Global, tokens: &mut Cursor<'_>, depth: u64) -> Result<Simple, Fault>
    ensures goes { Goes (s.simple depth) tokens.old result tokens.new }
    ensures tree { IfOk result (λ c. g.Simple depth tokens.old (simple_of c) tokens.new) }
    ensures shorter { IfOk result (λ _. length tokens.new.left < length tokens.old.left) }
{
    match command_head(tokens.peek()) {
        CommandHead::Name => assign(alloc, tokens, depth),
        CommandHead::SetTag => set_tag(alloc, tokens, depth),
        CommandHead::Goto => goto(alloc, tokens, depth),
        CommandHead::Fall => fall(tokens, depth),
        CommandHead::If => Err(Fault::Token),
        CommandHead::Case => Err(Fault::Token),
        CommandHead::Neither => Err(Fault::Token),
    }
}

/// The same, in a box.
#[tactic(auto, using(crate::proofs::Walks::binding))]
fn boxed(alloc: Global, tokens: &mut Cursor<'_>, depth: u64) -> Result<Box<Simple>, Fault>
    ensures goes { Goes (s.simple depth) tokens.old result tokens.new }
    ensures tree { IfOk result (λ c. g.Simple depth tokens.old (simple_of c.value) tokens.new) }
    ensures shorter { IfOk result (λ _. length tokens.new.left < length tokens.old.left) }
{
    let read = simple(alloc, tokens, depth)?;
    let command = Box::new(alloc, read)?;
    Ok(command)
}

/// Whether a constant comes next.
fn at_constant(tokens: &Cursor<'_>) -> bool
    ensures { result ≡ is_constant (primary_of (ahead tokens.now.left)) }
{
    match primary_of(tokens.peek()) {
        Primary::Number => true,
        Primary::Sized => true,
        Primary::Paren => false,
        Primary::Braces => false,
        Primary::Zext => false,
        Primary::Neither => false,
    }
}

#[tactic(auto, using(crate::proofs::Walks::binding))]
fn plain_constant(tokens: &mut Cursor<'_>) -> Result<Expr, Fault>
    ensures goes { Goes (s.number Role.Plain) tokens.old result tokens.new }
    ensures tree { IfOk result (λ x. g.Constant tokens.old (expression_of x) tokens.new) }
    ensures shorter { IfOk result (λ _. length tokens.new.left < length tokens.old.left) }
{
    let n = tokens.number(Role::Plain)?;
    Ok(Expr::number(spot(n.place), n.value))
}

#[tactic(auto, using(crate::proofs::Walks::binding))]
fn wide_constant(tokens: &mut Cursor<'_>) -> Result<Expr, Fault>
    ensures goes { Goes (s.sized Role.Plain) tokens.old result tokens.new }
    ensures tree { IfOk result (λ x. g.Constant tokens.old (expression_of x) tokens.new) }
    ensures shorter { IfOk result (λ _. length tokens.new.left < length tokens.old.left) }
{
    let place = tokens.here();
    let (width, value) = tokens.sized(Role::Plain)?;
    Ok(Expr::sized(spot(place), width, value))
}

/// A number with or without a width.
#[tactic(auto, using(crate::proofs::Walks::constants))]
fn constant(tokens: &mut Cursor<'_>) -> Result<Expr, Fault>
    ensures goes { Goes s.constant tokens.old result tokens.new }
    ensures tree { IfOk result (λ x. g.Constant tokens.old (expression_of x) tokens.new) }
    ensures shorter { IfOk result (λ _. length tokens.new.left < length tokens.old.left) }
{
    match primary_of(tokens.peek()) {
        Primary::Number => plain_constant(tokens),
        Primary::Sized => wide_constant(tokens),
        Primary::Paren => Err(Fault::Token),
        Primary::Braces => Err(Fault::Token),
        Primary::Zext => Err(Fault::Token),
        Primary::Neither => Err(Fault::Token),
    }
}

/// The constants that follow, each behind a comma.
#[tactic(auto, using(crate::proofs::Walks::constant_list))]
fn more_constants(tokens: &mut Cursor<'_>, constants: &mut Vec<Expr>) -> Result<(), Fault>
    ensures goes { Goes s.constants tokens.old result tokens.new }
    ensures tree { IfOk result (λ _. CollectsConstants tokens.old constants.old.items constants.new.items tokens.new) }
    ensures no_longer { IfOk result (λ _. length tokens.new.left ≤ length tokens.old.left) }
{
    'constants: while tokens.at_sign(Sign::Comma) {
        tokens.sign(Role::Plain, Sign::Comma)?;
        let next = constant(tokens)?;
        constants.push(next)?;
    }
    Ok(())
}

/// The constants of an arm, and the `:` behind them.
#[tactic(auto, using(crate::proofs::Walks::enclosing))]
fn constants(alloc: Global, tokens: &mut Cursor<'_>) -> Result<Vec<Expr>, Fault>
    ensures goes { RowGoes constants_row tokens.old result tokens.new }
    ensures tree { IfOk result (λ list. ArmHead tokens.old (expressions_of list.items) tokens.new) }
    ensures shorter { IfOk result (λ _. length tokens.new.left < length tokens.old.left) }
{
    let first = constant(tokens)?;
    let mut list = Vec::new(alloc);
    list.push(first)?;
    more_constants(tokens, &mut list)?;
    tokens.sign(Role::Plain, Sign::Colon)?;
    Ok(list)
}

/// Whether a command comes next.
fn at_command(tokens: &Cursor<'_>) -> bool
    ensures yes { result ≡ true → command_head (ahead tokens.now.left) ≢ CommandHead.Neither }
    ensures no { result ≡ false → command_head (ahead tokens.now.left) ≡ CommandHead.Neither }
{
    command_head(tokens.peek()) != CommandHead::Neither
}

/// The commands that come next, at this depth.
#[cycle(command)]
#[tactic(auto, using(crate::proofs::Walks::command_list))]
pub fn commands(alloc: Global, tokens: &mut Cursor<'_>, depth: u64) -> Result<Vec<Cmd>, Fault>
    requires { depth + length tokens.old.left < 2 ^ 64 }
    ensures goes { Goes (s.cmds depth) tokens.old result tokens.new }
    ensures tree { IfOk result (λ list. g.Cmds depth tokens.old (commands_of list.items) tokens.new) }
    ensures no_longer { IfOk result (λ _. length tokens.new.left ≤ length tokens.old.left) }
{
    let mut list = Vec::new(alloc);
    'commands: while at_command(tokens) {
        let next = command(alloc, tokens, depth)?;
        list.push(next)?;
    }
    Ok(list)
}

#[cycle(command)]
#[tactic(auto, using(crate::proofs::Walks::one_command))]
fn command(alloc: Global, tokens: &mut Cursor<'_>, depth: u64) -> Result<Cmd, Fault>
    requires { depth + length tokens.old.left < 2 ^ 64 }
    ensures goes { Goes (s.cmd depth) tokens.old result tokens.new }
    ensures tree { IfOk result (λ c. g.Cmd depth tokens.old (command_of c) tokens.new) }
    ensures shorter { IfOk result (λ _. length tokens.new.left < length tokens.old.left) }
{
    if tokens.at_word(Word::If) {
        return branch(alloc, tokens, depth);
    }
    if tokens.at_word(Word::Case) {
        return case(alloc, tokens, depth);
    }
    let first = boxed(alloc, tokens, depth)?;
    let ending = ending(alloc, tokens, depth)?;
    Ok(ending.applied_to(Box::into_inner(first)))
}

/// What follows a command that can have a handler.
#[cycle(command)]
#[tactic(auto, using(crate::proofs::Walks::endings))]
fn ending(alloc: Global, tokens: &mut Cursor<'_>, depth: u64) -> Result<Handling, Fault>
    requires { depth + length tokens.old.left < 2 ^ 64 }
    ensures goes { Goes (s.ending depth) tokens.old result tokens.new }
    ensures tree { IfOk result (λ e. Ends depth tokens.old e tokens.new) }
    ensures shorter { IfOk result (λ _. length tokens.new.left < length tokens.old.left) }
{
    if tokens.at_word(Word::Then) {
        let (place, accepted) = behind(alloc, tokens, Word::Then, depth)?;
        let (_, refused) = behind(alloc, tokens, Word::Otherwise, depth)?;
        return Ok(Handling::Decided(place, accepted, refused));
    }
    if tokens.at_word(Word::Otherwise) {
        let (place, handler) = behind(alloc, tokens, Word::Otherwise, depth)?;
        return Ok(Handling::Handled(place, handler));
    }
    tokens.sign(Role::Plain, Sign::Semicolon)?;
    Ok(Handling::Plain)
}

/// A word and the block behind it, one deeper, and the place of the word.
#[cycle(command)]
#[tactic(auto, using(crate::proofs::Walks::enclosing))]
fn behind(
    alloc: Global,
    tokens: &mut Cursor<'_>,
    word: Word,
    depth: u64,
) -> Result<(Place, Block), Fault>
    requires { depth + length tokens.old.left < 2 ^ 64 }
    ensures goes { RowGoes (behind_row word depth) tokens.old result tokens.new }
    ensures tree { IfOk result (λ x. Behind word depth tokens.old (block_of x.1) tokens.new) }
    ensures place { IfOk result (λ x. x.0 ≡ here tokens.old) }
    ensures shorter { IfOk result (λ _. length tokens.new.left < length tokens.old.left) }
{
    let place = tokens.word(Role::Plain, word)?;
    let block = block(alloc, tokens, depth + 1)?;
    Ok((place, block))
}

#[cycle(command)]
#[tactic(auto, using(crate::proofs::Walks::branching))]
fn branch(alloc: Global, tokens: &mut Cursor<'_>, depth: u64) -> Result<Cmd, Fault>
    requires { depth + length tokens.old.left < 2 ^ 64 }
    ensures goes { Goes (s.if_command depth) tokens.old result tokens.new }
    ensures tree { IfOk result (λ c. g.Cmd depth tokens.old (command_of c) tokens.new) }
    ensures shorter { IfOk result (λ _. length tokens.new.left < length tokens.old.left) }
{
    let (place, condition) = asked(
        alloc,
        tokens,
        Role::Command(depth),
        Word::If,
        Role::Plain,
        Role::Plain,
    )?;
    let one = block(alloc, tokens, depth + 1)?;
    let other = otherwise(alloc, tokens, depth)?;
    Ok(Cmd::branch(place, Box::into_inner(condition), one, other))
}

#[cycle(command)]
#[tactic(auto, using(crate::proofs::Walks::cases))]
fn case(alloc: Global, tokens: &mut Cursor<'_>, depth: u64) -> Result<Cmd, Fault>
    requires { depth + length tokens.old.left < 2 ^ 64 }
    ensures goes { Goes (s.case_command depth) tokens.old result tokens.new }
    ensures tree { IfOk result (λ c. g.Cmd depth tokens.old (command_of c) tokens.new) }
    ensures shorter { IfOk result (λ _. length tokens.new.left < length tokens.old.left) }
{
    let (place, number) = asked(
        alloc,
        tokens,
        Role::Command(depth),
        Word::Case,
        Role::Plain,
        Role::Plain,
    )?;
    let (arms, last) = arms(alloc, tokens, depth + 1)?;
    Ok(Cmd::case(place, Box::into_inner(number), arms, last))
}

/// The arms of a `case` and the block after `else`, in braces.
#[cycle(command)]
#[tactic(auto, using(crate::proofs::Walks::enclosing))]
fn arms(alloc: Global, tokens: &mut Cursor<'_>, depth: u64) -> Result<(Vec<Arm>, Block), Fault>
    requires { depth + length tokens.old.left < 2 ^ 64 }
    ensures goes { RowGoes (arms_row depth) tokens.old result tokens.new }
    ensures tree { IfOk result (λ x. ArmsBetween depth tokens.old (arms_of x.0.items (block_of x.1)) tokens.new) }
    ensures shorter { IfOk result (λ _. length tokens.new.left < length tokens.old.left) }
{
    tokens.sign(Role::Plain, Sign::OpenBrace)?;
    let first = arm(alloc, tokens, depth)?;
    let mut arms = Vec::new(alloc);
    arms.push(first)?;
    let last = more_arms(alloc, tokens, depth, &mut arms)?;
    tokens.sign(Role::Plain, Sign::CloseBrace)?;
    Ok((arms, last))
}

/// Further arms, and the block after `else`.
#[cycle(command)]
#[tactic(auto, using(crate::proofs::Walks::arm_list))]
fn more_arms(
    alloc: Global,
    tokens: &mut Cursor<'_>,
    depth: u64,
    arms: &mut Vec<Arm>,
) -> Result<Block, Fault>
    requires { depth + length tokens.old.left < 2 ^ 64 }
    ensures goes { Goes (s.arms depth) tokens.old result tokens.new }
    ensures tree { IfOk result (λ last. CollectsArms depth tokens.old arms.old.items arms.new.items (block_of last) tokens.new) }
    ensures shorter { IfOk result (λ _. length tokens.new.left < length tokens.old.left) }
{
    'arms: while at_constant(tokens) {
        let next = arm(alloc, tokens, depth)?;
        arms.push(next)?;
    }
    tokens.word(Role::Plain, Word::Else)?;
    block(alloc, tokens, depth)
}

#[cycle(command)]
#[tactic(auto, using(crate::proofs::Walks::one_arm))]
fn arm(alloc: Global, tokens: &mut Cursor<'_>, depth: u64) -> Result<Arm, Fault>
    requires { depth + length tokens.old.left < 2 ^ 64 }
    ensures goes { Goes (s.arm depth) tokens.old result tokens.new }
    ensures tree { IfOk result (λ a. g.Arm depth tokens.old (constants_of a) (arm_block_of a) tokens.new) }
    ensures shorter { IfOk result (λ _. length tokens.new.left < length tokens.old.left) }
{
    let constants = constants(alloc, tokens)?;
    let block = block(alloc, tokens, depth)?;
    Ok(Arm { constants, block })
}

/// The block after `else`, one deeper, where one is written.
#[cycle(command)]
#[tactic(auto, using(crate::proofs::Walks::elses))]
fn otherwise(alloc: Global, tokens: &mut Cursor<'_>, depth: u64) -> Result<Option<Block>, Fault>
    requires { depth + length tokens.old.left < 2 ^ 64 }
    ensures goes { Goes (s.else_part (depth + 1)) tokens.old result tokens.new }
    ensures tree { IfOk result (λ other. g.Else (depth + 1) tokens.old (else_of other) tokens.new) }
    ensures no_longer { IfOk result (λ _. length tokens.new.left ≤ length tokens.old.left) }
{
    if !tokens.at_word(Word::Else) {
        return Ok(None);
    }
    let (_, other) = behind(alloc, tokens, Word::Else, depth)?;
    Ok(Some(other))
}

#[cycle(command)]
#[tactic(auto, using(crate::proofs::Walks::blocks))]
fn block(alloc: Global, tokens: &mut Cursor<'_>, depth: u64) -> Result<Block, Fault>
    requires { depth + length tokens.old.left < 2 ^ 64 }
    ensures goes { Goes (s.block depth) tokens.old result tokens.new }
    ensures tree { IfOk result (λ b. g.Block depth tokens.old (block_of b) tokens.new) }
    ensures shorter { IfOk result (λ _. length tokens.new.left < length tokens.old.left) }
{
    tokens.sign(Role::Plain, Sign::OpenBrace)?;
    let commands = commands(alloc, tokens, depth)?;
    let after = tokens.sign(Role::Plain, Sign::CloseBrace)?;
    Ok(Block { commands, after })
}
