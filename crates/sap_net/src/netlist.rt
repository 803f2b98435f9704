//! Netlists.

ghost use Rattle.std.specs.Prelude.{◌≡◌};

use crate::parts::{Input, Memory, Name, Parts, Port, Register, Wire};
use std::marker::Model;

/// A netlist that the module subset can write without a fault: names are declared once and used as what they are, wires are read
/// after they are assigned, and all widths and depths fit.
#[derive(Debug, Drop)]
pub struct Netlist {
    parts: Parts,
}

impl Model for Netlist {
    ghost use Rattle.sap_net.specs.Net.{Net, net_of};

    ghost Value = { Net };

    ghost use Rattle.sap_net.specs.IsNetlist.{IsNetlist};

    ghost view = { λ n. net_of n.parts };

    ghost invariant = { λ n. IsNetlist (net_of n.parts) };
}

impl Netlist {
    ghost use Rattle.sap_net.specs.Net.{net_of};
    ghost use Rattle.sap_net.specs.IsNetlist.{IsNetlist};

    /// The netlist of its parts.
    pub fn new(parts: Parts) -> Netlist
        requires { IsNetlist (net_of parts) }
        ensures { result ≡ net_of parts }
    {
        Netlist { parts }
    }

    /// Gives the parts back.
    pub fn into_parts(self) -> Parts
        ensures same { net_of result ≡ self }
        ensures kept { IsNetlist (net_of result) }
    {
        self.parts
    }

    /// What every netlist keeps.
    pub fn rules(&self)
        ensures { IsNetlist self.now }
    {
        let _ = &self.parts;
    }

    pub fn module_name(&self) -> &Name
        ensures { result.now ≡ self.now.module_name }
    {
        &self.parts.module_name
    }

    /// All declared names but the clock's, in the order of declaration.
    pub fn names(&self) -> &[Name]
        ensures { result.now ≡ self.now.names }
    {
        self.parts.names.as_slice()
    }

    /// The ports but the clock, in order.
    pub fn ports(&self) -> &[Port]
        ensures { result.now ≡ self.now.ports }
    {
        self.parts.ports.as_slice()
    }

    /// The inputs but the clock, in port order.
    pub fn inputs(&self) -> &[Input]
        ensures { result.now ≡ self.now.inputs }
    {
        self.parts.inputs.as_slice()
    }

    /// The wires, in the order of their assigns.
    pub fn wires(&self) -> &[Wire]
        ensures { result.now ≡ self.now.wires }
    {
        self.parts.wires.as_slice()
    }

    /// The registers, in the order of declaration.
    pub fn registers(&self) -> &[Register]
        ensures { result.now ≡ self.now.registers }
    {
        self.parts.registers.as_slice()
    }

    /// The memories, in the order of declaration.
    pub fn memories(&self) -> &[Memory]
        ensures { result.now ≡ self.now.memories }
    {
        self.parts.memories.as_slice()
    }
}
