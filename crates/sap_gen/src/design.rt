//! The generated design.

ghost use Rattle.std.specs.Prelude.{◌≡◌, ◌<◌, ◌∷◌, IfOk, map};
ghost use Rattle.sap_lattice.specs.Levels.{numbers};
ghost use Rattle.sap_tree.specs.Bare.{no_spot, nowhere};
ghost use Rattle.sap_tree.specs.Designs.{design_of};
ghost use Rattle.sap_tree.specs.Trees.{block_of, command_of, expression_of, state_of};
ghost use Rattle.sap_gen.specs.Design.{assignment, body, declared_input, declared_register, design_of_counts, eight_bits, input_name, register_kind, register_name, state, state_name, sum, transfer};
ghost use Rattle.sap_tree.specs.Making.{enforced, named, states};

use crate::size::Size;
use sap_tree::design::Design;
use sap_tree::name::{Mention, Name};
use sap_tree::place::{Place, Spot};
use sap_tree::syntax::{BinaryOperator, Block, Cmd, Decl, Expr, Kind, Numeral, Simple, State};
use sap_tree::version::Version;
use std::alloc::{AllocError, Global};

/// The one place of a design without text.
fn nowhere() -> Place
    ensures { result ≡ nowhere }
{
    Place { line: 1, column: 1 }
}

fn no_spot() -> Spot
    ensures { result ≡ no_spot }
{
    Spot {
        first: nowhere(),
        at: nowhere(),
    }
}

fn eight_bits() -> Numeral
    ensures { result ≡ eight_bits }
{
    Numeral {
        place: nowhere(),
        value: 8,
    }
}

fn mention(name: Name) -> Mention
    ensures { result ≡ named name }
{
    Mention {
        place: nowhere(),
        name,
    }
}

fn name(alloc: Global, text: &str) -> Result<Name, AllocError>
    ensures { IfOk result (λ name. name ≡ text.now) }
{
    Ok(Name::new(String::from_str(alloc, text)?))
}

fn input_name(alloc: Global) -> Result<Name, AllocError>
    ensures { IfOk result (λ name. name ≡ input_name) }
{
    name(alloc, "d")
}

fn register_name(alloc: Global, register: u32) -> Result<Name, AllocError>
    ensures { IfOk result (λ name. name ≡ register_name register) }
{
    let text = format!(in alloc; "x{register}")?;
    Ok(Name::new(text))
}

fn state_name(alloc: Global, state: u32) -> Result<Name, AllocError>
    ensures { IfOk result (λ name. name ≡ state_name state) }
{
    let text = format!(in alloc; "S{state}")?;
    Ok(Name::new(text))
}

fn enforced(alloc: Global, level: &str) -> Result<Kind, AllocError>
    ensures { IfOk result (λ kind. kind ≡ enforced level.now) }
{
    Ok(Kind::Enforced(mention(name(alloc, level)?), None))
}

fn register_kind(alloc: Global, register: u32) -> Result<Kind, AllocError>
    ensures { IfOk result (λ kind. kind ≡ register_kind register) }
{
    if register % 2 == 0 {
        Ok(Kind::Dynamic(nowhere()))
    } else {
        enforced(alloc, "a")
    }
}

fn declared_input(alloc: Global) -> Result<Decl, AllocError>
    ensures { IfOk result (λ d. d ≡ declared_input) }
{
    let name = mention(input_name(alloc)?);
    Ok(Decl::Input(nowhere(), name, eight_bits()))
}

fn declared_register(alloc: Global, register: u32) -> Result<Decl, AllocError>
    ensures { IfOk result (λ d. d ≡ declared_register register) }
{
    let name = mention(register_name(alloc, register)?);
    let kind = register_kind(alloc, register)?;
    Ok(Decl::Register(nowhere(), name, eight_bits(), kind, None))
}

fn declarations(alloc: Global, size: Size) -> Result<Vec<Decl>, AllocError>
    ensures { IfOk result (λ ds. ds.items ≡ declared_input ∷ map declared_register (numbers size.registers)) }
{
    let mut declarations = Vec::new(alloc);
    declarations.push(declared_input(alloc)?)?;
    for register in 0..size.registers {
        declarations.push(declared_register(alloc, register)?)?;
    }
    Ok(declarations)
}

/// The register of this number plus the input.
fn sum(alloc: Global, register: u32) -> Result<Expr, AllocError>
    ensures { IfOk result (λ e. expression_of e ≡ sum register) }
{
    let operand = Expr::read(no_spot(), register_name(alloc, register)?);
    let left = Box::new(alloc, operand)?;
    let right = Expr::read(no_spot(), input_name(alloc)?);
    Expr::binary(alloc, no_spot(), BinaryOperator::Add, left, right)
}

fn assignment(alloc: Global, size: Size, state: u32, register: u32) -> Result<Cmd, AllocError>
    requires state { state < size.states }
    requires register { register < size.registers }
    ensures { IfOk result (λ c. command_of c ≡ assignment size.registers state register) }
{
    let target = mention(register_name(alloc, register)?);
    let value = sum(alloc, (register + state) % size.registers)?;
    Ok(Cmd::plain(Simple::Assign(target, value)))
}

fn transfer(alloc: Global, size: Size, state: u32) -> Result<Cmd, AllocError>
    requires { state < size.states }
    ensures { IfOk result (λ c. command_of c ≡ transfer size.states state) }
{
    let target = mention(state_name(alloc, (state + 1) % size.states)?);
    Ok(Cmd::plain(Simple::Goto(nowhere(), target)))
}

fn assignments(alloc: Global, size: Size, state: u32) -> Result<Vec<Cmd>, AllocError>
    requires { state < size.states }
    ensures { IfOk result (λ cs. map command_of cs.items ≡ map (assignment size.registers state) (numbers size.registers)) }
{
    let mut commands = Vec::new(alloc);
    for register in 0..size.registers {
        commands.push(assignment(alloc, size, state, register)?)?;
    }
    Ok(commands)
}

fn body(alloc: Global, size: Size, state: u32) -> Result<Block, AllocError>
    requires { state < size.states }
    ensures { IfOk result (λ b. block_of b ≡ body size.registers size.states state) }
{
    let mut commands = assignments(alloc, size, state)?;
    commands.push(transfer(alloc, size, state)?)?;
    Ok(Block {
        commands,
        after: nowhere(),
    })
}

fn state(alloc: Global, size: Size, number: u32) -> Result<State, AllocError>
    requires { number < size.states }
    ensures { IfOk result (λ s. state_of s ≡ state size.registers size.states number) }
{
    let name = mention(state_name(alloc, number)?);
    let kind = enforced(alloc, "low")?;
    let body = body(alloc, size, number)?;
    Ok(State::new(nowhere(), name, kind, body, Vec::new(alloc)))
}

fn states(alloc: Global, size: Size) -> Result<Vec<State>, AllocError>
    ensures { IfOk result (λ ss. map state_of ss.items ≡ map (state size.registers size.states) (numbers size.states)) }
{
    let mut states = Vec::new(alloc);
    for number in 0..size.states {
        states.push(state(alloc, size, number)?)?;
    }
    Ok(states)
}

/// The design of this size.
pub(crate) fn design(alloc: Global, size: Size) -> Result<Design, AllocError>
    ensures { IfOk result (λ d. design_of d ≡ design_of_counts size.registers size.states) }
{
    let declarations = declarations(alloc, size)?;
    let states = states(alloc, size)?;
    Ok(Design::new(Version::One, declarations, states))
}
