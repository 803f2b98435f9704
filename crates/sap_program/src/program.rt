//! The program of a design, with numbers for names. Entities are numbered from 0 in the order of the text.

use crate::hang::Hang;
use sap_bits::{Op1, Op2};
use sap_lattice::level::Level;
use sap_tree::name::Name;

/// What an entity is. A memory has a depth; a state has a place in its group, and the number of the last state inside it.
#[derive(Drop)]
pub enum Sort {
    Input,
    Register,
    Memory(u64),
    State { place: usize, last: usize },
}

/// An entity with its name: an input, a register, a memory or a state.
#[derive(Drop)]
pub struct Entity {
    pub name: Name,
    pub sort: Sort,
    pub width: u64,
    pub dynamic: bool,
    /// The level that an enforced entity starts with.
    pub declared: Level,
    pub authority: Level,
    /// The number that a register starts with.
    pub initial: u64,
}

/// An expression over the numbers of entities.
#[derive(Drop)]
pub enum Number {
    Constant { width: u64, value: u64 },
    Read(usize),
    Cell { memory: usize, index: Box<Number> },
    One(Op1, Box<Number>),
    Two(Op2, Box<Number>, Box<Number>),
    /// The second where the first isn't 0, else the third.
    Choose(Box<Number>, Box<Number>, Box<Number>),
    /// The first in front of the second.
    Join(Box<Number>, Box<Number>),
    /// The bits from `lo` up to `hi`.
    Part { of: Box<Number>, hi: u64, lo: u64 },
}

/// A tag expression.
#[derive(Drop)]
pub enum TagOf {
    Fixed(Level),
    Of(Number),
    /// The level at the place that an expression gives.
    AtPlace(Number),
    Both(Box<TagOf>, Box<TagOf>),
}

/// A command that may be a check site, with the site's number, 0 where it is none.
#[derive(Drop)]
pub enum Step {
    Set {
        site: u32,
        register: usize,
        value: Number,
    },
    Write {
        site: u32,
        memory: usize,
        index: Number,
        value: Number,
    },
    /// A new tag of a register or of a state.
    Retag {
        site: u32,
        entity: usize,
        tag: TagOf,
    },
    RetagCell {
        site: u32,
        memory: usize,
        index: Number,
        tag: TagOf,
    },
    Goto {
        site: u32,
        target: usize,
    },
    Fall {
        site: u32,
        hang: Hang,
    },
}

impl Step {
    ghost use Rattle.std.specs.Prelude.{◌≡◌, ℕ};
    ghost use Rattle.sap_meaning.specs.Checks.{site_of};
    ghost use Rattle.sap_program.specs.Views.{step_of};

    /// The number of a step as a check site.
    pub fn site(&self) -> u32
        ensures { (n : ℕ) → result ≡ site_of (step_of n self.now) }
    {
        match self {
            Step::Set { site, .. } => *site,
            Step::Write { site, .. } => *site,
            Step::Retag { site, .. } => *site,
            Step::RetagCell { site, .. } => *site,
            Step::Goto { site, .. } => *site,
            Step::Fall { site, .. } => *site,
        }
    }
}

/// A step alone, a step with its handler, a choice, a step with what follows it where it is accepted and where it is refused, and a choice of an
/// arm, all but the first with what hangs on them.
#[cycle(command)]
#[derive(Drop)]
pub enum Command {
    Do(Step),
    Try {
        step: Step,
        hang: Hang,
        handler: Vec<Command>,
    },
    If {
        hang: Hang,
        condition: Number,
        yes: Vec<Command>,
        no: Vec<Command>,
    },
    TryThen {
        step: Step,
        hang: Hang,
        accepted: Vec<Command>,
        refused: Vec<Command>,
    },
    /// The first arm that has the number among its constants is picked, and the last commands where none has.
    Case {
        hang: Hang,
        number: Number,
        arms: Vec<Arm>,
        last: Vec<Command>,
    },
}

/// An arm: its constants, and its commands.
#[cycle(command)]
#[derive(Drop)]
pub struct Arm {
    pub constants: Vec<u64>,
    pub block: Vec<Command>,
}

/// A state with its number, its body and its children.
#[derive(Drop)]
pub struct State {
    pub number: usize,
    pub body: Vec<Command>,
    pub children: Vec<State>,
}

/// All entities, how many children each of them has, the root's last, and the top-level states. `hang` is what hangs on the root's
/// fall, and `sites` is how many check sites there are.
#[derive(Drop)]
pub struct Program {
    pub entities: Vec<Entity>,
    pub children: Vec<usize>,
    pub states: Vec<State>,
    pub hang: Hang,
    pub sites: u32,
}
