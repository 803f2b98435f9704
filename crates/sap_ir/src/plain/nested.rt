//! Nested states and their commands.

use crate::guarded::{Act, Calc, MemoryVariable, Var};
use sap_net::parts::Name;

/// A command of a state's body.
#[derive(Drop)]
pub enum PlainCmd {
    Do(Act),
    /// The commands of `yes` where the test isn't 0, else those of `no`.
    If {
        test: Calc,
        yes: Vec<PlainCmd>,
        no: Vec<PlainCmd>,
    },
    /// That state becomes the current child of the group, and each group below it returns to its first child.
    Goto(Name),
    /// The body of the current child is done.
    Fall,
}

/// A state with its children. The register `s_` and its name has the number of its current child.
#[derive(Drop)]
pub struct PlainState {
    pub name: Name,
    pub cmds: Vec<PlainCmd>,
    pub children: Vec<PlainState>,
}

/// All parts of a program: `ports` are the registers and wires that are output ports, in order. The register `s_0` has the number
/// of the current one of `states`.
#[derive(Drop)]
pub struct PlainParts {
    pub inputs: Vec<Var>,
    pub wires: Vec<Var>,
    pub registers: Vec<Var>,
    pub memories: Vec<MemoryVariable>,
    pub ports: Vec<Name>,
    pub states: Vec<PlainState>,
}
