//! What is read of the lines that are no changes.

ghost use Rattle.std.specs.Prelude.{◌≡◌, ◌++◌, ◌∷◌, [], List, true, IfNone, IfOk, IfSome, None, OnOk, replicate};
ghost use Rattle.std.specs.Str.Parse.{digits_value};
ghost use Rattle.sap_net.specs.NameMaps.{Indexes};
ghost use Rattle.sap_net.specs.Names.{is_name};
ghost use Rattle.sap_wave.specs.Lines.{block, is_formed, is_id, variable};
ghost use Rattle.sap_wave.specs.Waves.{names_of};
ghost use Rattle.sap_wave.specs.Reading.{IsNextBlock, IsVariable, before_blocks, before_end, before_scope, before_timescale, declaring, in_block, is_full, next_block, numbers_in};
ghost use Rattle.sap_wave.specs.Faults.{IsLeast, IsWrong, Misdeclared};
ghost use Rattle.sap_wave.specs.Changes.{IsOther, IsOtherIn};
ghost use Rattle.sap_wave.specs.Steps.{FormRead, IsIndexed, LineRead, open_of, state_of};
ghost use Rattle.sap_wave.specs.Numbers.{now_of};

use crate::block_list::BlockList;
use crate::fault::WaveCode;
use crate::numbers::{has_identifier, is_number, width};
use crate::parts::{Declaration, block_number, declaration_of};
use crate::pieces::{is_name, is_same};
use crate::state::{Block, Numbers, State, Stop};
use crate::variable::Variable;
use sap_net::name_map::{index, is_indexed};
use sap_net::parts::Name;
use std::alloc::{AllocError, Global};
use std::collections::HashMap;

/// Whether none is missing.
fn are_there(numbers: &[Option<u64>]) -> bool
    ensures { result ≡ is_full numbers.now }
{
    numbers.iter().all(|number| number.is_some())
}

/// Whether each variable has a number.
pub fn is_full(numbers: &Numbers) -> bool
    ensures { result ≡ is_full (now_of numbers.now) }
{
    match numbers {
        Numbers::First(numbers) => are_there(numbers),
        Numbers::Later(_) => true,
    }
}

/// These numbers, 0 where one is missing.
fn or_zeros(alloc: Global, numbers: &[Option<u64>]) -> Result<Vec<u64>, AllocError>
    ensures { IfOk result (λ all. all.items ≡ numbers_in numbers.now) }
{
    numbers
        .iter()
        .map(|number| number.unwrap_or(0))
        .collect(alloc)
}

/// The numbers of the variables.
pub fn numbers_in(alloc: Global, numbers: Numbers) -> Result<Vec<u64>, AllocError>
    ensures { IfOk result (λ all. all.items ≡ numbers_in (now_of numbers)) }
{
    match numbers {
        Numbers::First(numbers) => or_zeros(alloc, &numbers),
        Numbers::Later(numbers) => Ok(numbers),
    }
}

fn first_line(text: &[u8]) -> Result<State, Stop>
    ensures { LineRead before_timescale text.now result }
{
    if is_same(text, b"$timescale 1ns $end") {
        Ok(State::BeforeScope)
    } else {
        Err(Stop::Code(WaveCode::Y1))
    }
}

fn second_line(alloc: Global, text: &[u8]) -> Result<State, Stop>
    ensures { LineRead before_scope text.now result }
{
    if is_same(text, b"$scope module top $end") {
        let variables = Vec::new(alloc);
        let places = HashMap::new(alloc);
        Ok(State::Declaring(variables, places))
    } else {
        Err(Stop::Code(WaveCode::Y1))
    }
}

/// The width of a variable that can be declared behind these: with the identifier of its number, a width, and a new name.
fn declarable(
    variables: &[Variable],
    places: &HashMap<Vec<u8>, usize>,
    declaration: &Declaration<'_>,
) -> Option<u32>
    requires indexed { Indexes places.now (names_of variables.now) }
    requires id { is_id declaration.now.id.now ≡ true }
    ensures none { IfNone result (Misdeclared variables.now declaration.now.width.now declaration.now.id.now declaration.now.name.now) }
    ensures some { IfSome result (λ w. w ≡ digits_value 10 declaration.now.width.now) }
    ensures variable { IfSome result (λ w. IsVariable variables.now declaration.now.width.now declaration.now.id.now declaration.now.name.now) }
{
    if !has_identifier(declaration.id, variables.len()) {
        return None;
    }
    if !is_name(declaration.name) {
        return None;
    }
    if is_indexed(places, declaration.name) {
        return None;
    }
    width(declaration.width)
}

/// One more variable, of a new name.
fn push_variable(
    alloc: Global,
    variables: &mut Vec<Variable>,
    places: &mut HashMap<Vec<u8>, usize>,
    name: &[u8],
    width: u32,
) -> Result<(), AllocError>
    requires indexed { Indexes places.old (names_of variables.old.items) }
    requires name { is_name name.now ≡ true }
    ensures variables { OnOk result (variables.new.items ≡ variables.old.items ++ (record { name = name.now; width = width } ∷ [])) }
    ensures indexed { OnOk result (Indexes places.new (names_of variables.new.items)) }
{
    let place = variables.len();
    let name = Name::spelled(alloc, name)?;
    index(places, alloc, &name, place)?;
    variables.push(Variable { name, width })?;
    Ok(())
}

/// Declares a variable.
fn declared(
    alloc: Global,
    mut variables: Vec<Variable>,
    mut places: HashMap<Vec<u8>, usize>,
    declaration: &Declaration<'_>,
) -> Result<State, Stop>
    requires indexed { Indexes places (names_of variables.items) }
    requires formed { is_formed (variable declaration.now.width.now declaration.now.id.now declaration.now.name.now) ≡ true }
    ensures { FormRead (declaring variables.items) (variable declaration.now.width.now declaration.now.id.now declaration.now.name.now) result }
{
    let Some(width) = declarable(&variables, &places, declaration) else {
        return Err(Stop::Code(WaveCode::Y2));
    };
    push_variable(alloc, &mut variables, &mut places, declaration.name, width)?;
    Ok(State::Declaring(variables, places))
}

fn declaring_line(
    alloc: Global,
    variables: Vec<Variable>,
    places: HashMap<Vec<u8>, usize>,
    text: &[u8],
) -> Result<State, Stop>
    requires { Indexes places (names_of variables.items) }
    ensures { LineRead (declaring variables.items) text.now result }
{
    if is_same(text, b"$upscope $end") {
        return Ok(State::BeforeEnd(variables));
    }
    match declaration_of(text) {
        Some(declaration) => declared(alloc, variables, places, &declaration),
        None => Err(Stop::Code(WaveCode::Y1)),
    }
}

fn end_line(variables: Vec<Variable>, text: &[u8]) -> Result<State, Stop>
    ensures { LineRead (before_end variables.items) text.now result }
{
    if is_same(text, b"$enddefinitions $end") {
        Ok(State::BeforeBlocks(variables))
    } else {
        Err(Stop::Code(WaveCode::Y1))
    }
}

/// No number for each of so many variables.
fn unset(alloc: Global, count: usize) -> Result<Vec<Option<u64>>, AllocError>
    ensures { IfOk result (λ now. now.items ≡ replicate count None) }
{
    let mut now = Vec::new(alloc);
    now.resize(count, None)?;
    Ok(now)
}

/// Begins block 0.
fn first_block(alloc: Global, variables: Vec<Variable>, digits: &[u8]) -> Result<State, Stop>
    ensures { FormRead (before_blocks variables.items) (block digits.now) result }
{
    if !is_number(digits, 0) {
        return Err(Stop::Code(WaveCode::Y4));
    }
    let count = variables.len();
    let numbers = Numbers::First(unset(alloc, count)?);
    let before = BlockList::new(alloc, count);
    Ok(State::InBlock(
        variables,
        Block {
            before,
            numbers,
            next: 0,
        },
    ))
}

fn blocks_line(alloc: Global, variables: Vec<Variable>, text: &[u8]) -> Result<State, Stop>
    ensures { LineRead (before_blocks variables.items) text.now result }
{
    match block_number(text) {
        Some(digits) => first_block(alloc, variables, digits),
        None => Err(Stop::Code(WaveCode::Y1)),
    }
}

/// What is wrong with the end of a block, where the next has this number.
fn wrong_end(reached: &Block, digits: &[u8]) -> Option<WaveCode>
    ensures some { IfSome result (λ code. (xs : List Variable) → IsLeast (IsWrong (in_block xs (open_of reached.now)) (block digits.now)) code) }
    ensures none { IfNone result (IsNextBlock (open_of reached.now) digits.now) }
{
    if !is_number(digits, reached.before.count() as u64 + 1) {
        return Some(WaveCode::Y4);
    }
    if !is_full(&reached.numbers) {
        return Some(WaveCode::Y5);
    }
    None
}

/// Ends a block and begins the next.
fn begin_next(alloc: Global, reached: Block) -> Result<Block, AllocError>
    requires { is_full (now_of reached.numbers) ≡ true }
    ensures { IfOk result (λ next. open_of next ≡ next_block (open_of reached)) }
{
    let Block {
        mut before,
        numbers,
        next: _,
    } = reached;
    let numbers = numbers_in(alloc, numbers)?;
    before.push(&numbers)?;
    Ok(Block {
        before,
        numbers: Numbers::Later(numbers),
        next: 0,
    })
}

/// Ends a block and begins the next, which has this number.
fn next_block(
    alloc: Global,
    variables: Vec<Variable>,
    reached: Block,
    digits: &[u8],
) -> Result<State, Stop>
    ensures { FormRead (in_block variables.items (open_of reached)) (block digits.now) result }
{
    if let Some(code) = wrong_end(&reached, digits) {
        return Err(Stop::Code(code));
    }
    let next = begin_next(alloc, reached)?;
    Ok(State::InBlock(variables, next))
}

fn block_line(
    alloc: Global,
    variables: Vec<Variable>,
    reached: Block,
    text: &[u8],
) -> Result<State, Stop>
    requires { IsOther text.now }
    ensures { LineRead (in_block variables.items (open_of reached)) text.now result }
{
    match block_number(text) {
        Some(digits) => next_block(alloc, variables, reached, digits),
        None => Err(Stop::Code(WaveCode::Y1)),
    }
}

/// What is read of a line with an LF, which in an open block is no change.
pub fn read_line(alloc: Global, state: State, text: &[u8]) -> Result<State, Stop>
    requires other { IsOtherIn (state_of state) text.now }
    requires indexed { IsIndexed state }
    ensures { LineRead (state_of state) text.now result }
{
    match state {
        State::BeforeTimescale => first_line(text),
        State::BeforeScope => second_line(alloc, text),
        State::Declaring(variables, places) => declaring_line(alloc, variables, places, text),
        State::BeforeEnd(variables) => end_line(variables, text),
        State::BeforeBlocks(variables) => blocks_line(alloc, variables, text),
        State::InBlock(variables, reached) => block_line(alloc, variables, reached, text),
    }
}
