//! Programs of nested states.

ghost use Rattle.std.specs.Prelude.{IsTrue};
ghost use Rattle.sap_ir.specs.Plain.Parts.{parts_nested};
ghost use Rattle.sap_ir.specs.Plain.Test.{is_plain};

use crate::guarded::{MemoryVariable, Var};
use crate::plain::nested::{PlainParts, PlainState};
use sap_net::parts::Name;

/// Nested states, of which each has a body of assignments, writes and choices that may end in a `goto` or a `fall`. Names are
/// declared once and used as what they are, and all widths and depths fit; no name is an `n` or a `g` and digits.
#[derive(Drop)]
pub struct Plain {
    parts: PlainParts,
    ghost rules: { IsTrue (is_plain (parts_nested parts)) },
}

impl Plain {
    ghost use Rattle.std.specs.Prelude.{◌≡◌};
    ghost use Rattle.sap_ir.specs.Plain.IsPlain.{IsPlain};
    ghost use Rattle.sap_ir.specs.Plain.Views.{forest_of};
    ghost use Rattle.sap_ir.specs.Plain.Program.{nested_of};

    /// The program of its parts.
    pub fn new(parts: PlainParts) -> Plain
        requires { IsPlain (parts_nested parts) }
        ensures { nested_of result ≡ parts_nested parts }
    {
        Plain { parts }
    }

    /// What every program keeps.
    pub fn rules(&self)
        ensures { IsPlain (nested_of self.now) }
    {}

    pub fn inputs(&self) -> &[Var]
        ensures { result.now ≡ (nested_of self.now).inputs }
    {
        self.parts.inputs.as_slice()
    }

    pub fn wires(&self) -> &[Var]
        ensures { result.now ≡ (nested_of self.now).wires }
    {
        self.parts.wires.as_slice()
    }

    pub fn registers(&self) -> &[Var]
        ensures { result.now ≡ (nested_of self.now).registers }
    {
        self.parts.registers.as_slice()
    }

    pub fn memories(&self) -> &[MemoryVariable]
        ensures { result.now ≡ (nested_of self.now).memories }
    {
        self.parts.memories.as_slice()
    }

    /// The registers and wires that are output ports, in order.
    pub fn ports(&self) -> &[Name]
        ensures { result.now ≡ (nested_of self.now).ports }
    {
        self.parts.ports.as_slice()
    }

    /// The top-level states.
    pub fn states(&self) -> &[PlainState]
        ensures { forest_of result.now ≡ (nested_of self.now).states }
    {
        self.parts.states.as_slice()
    }
}
