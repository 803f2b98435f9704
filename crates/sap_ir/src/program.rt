//! Flat programs.

ghost use Rattle.std.specs.Prelude.{IsTrue};
ghost use Rattle.sap_ir.specs.Parts.{parts_source};
ghost use Rattle.sap_ir.specs.Test.{is_guarded};

use crate::guarded::{GuardedCmd, GuardedParts, MemoryVariable, Var};
use sap_net::parts::Name;

/// Assignments and writes, each under a condition, that are done in order in each cycle. Names are declared once and used as
/// what they are, and all widths and depths fit; no name is an `n` and digits.
#[derive(Drop)]
pub struct Guarded {
    parts: GuardedParts,
    ghost rules: { IsTrue (is_guarded (parts_source parts)) },
}

impl Guarded {
    ghost use Rattle.std.specs.Prelude.{◌≡◌};
    ghost use Rattle.sap_ir.specs.Calcs.{commands_of};
    ghost use Rattle.sap_ir.specs.IsGuarded.{IsGuarded};
    ghost use Rattle.sap_ir.specs.Program.{source_of};

    /// The program of its parts.
    pub fn new(parts: GuardedParts) -> Guarded
        requires { IsGuarded (parts_source parts) }
        ensures { source_of result ≡ parts_source parts }
    {
        Guarded { parts }
    }

    /// What every program keeps.
    pub fn rules(&self)
        ensures { IsGuarded (source_of self.now) }
    {}

    pub fn inputs(&self) -> &[Var]
        ensures { result.now ≡ (source_of self.now).inputs }
    {
        self.parts.inputs.as_slice()
    }

    pub fn wires(&self) -> &[Var]
        ensures { result.now ≡ (source_of self.now).wires }
    {
        self.parts.wires.as_slice()
    }

    pub fn registers(&self) -> &[Var]
        ensures { result.now ≡ (source_of self.now).registers }
    {
        self.parts.registers.as_slice()
    }

    pub fn memories(&self) -> &[MemoryVariable]
        ensures { result.now ≡ (source_of self.now).memories }
    {
        self.parts.memories.as_slice()
    }

    /// The registers and wires that are output ports, in order.
    pub fn ports(&self) -> &[Name]
        ensures { result.now ≡ (source_of self.now).ports }
    {
        self.parts.ports.as_slice()
    }

    pub fn cmds(&self) -> &[GuardedCmd]
        ensures { commands_of result.now ≡ (source_of self.now).commands }
    {
        self.parts.cmds.as_slice()
    }
}
