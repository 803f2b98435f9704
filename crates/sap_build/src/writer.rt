//! Netlists, written part by part.

ghost use Rattle.std.specs.Prelude.{◌≡◌, ◌||◌, IfOk, OnOk};
ghost use Rattle.sap_net.specs.Names.{is_among, helper};
ghost use Rattle.sap_net.specs.Net.{net_of};
ghost use Rattle.sap_net.specs.IsNetlist.{IsNetlist};
ghost use Rattle.sap_build.specs.Writing as spec;

use sap_net::netlist::Netlist;
use sap_net::parts::{Input, Memory, Name, Parts, Port, PortKind, Register, Wire};
use sap_share::names::helper_name;
use sap_share::places::Places;
use std::alloc::{AllocError, Global};
use std::marker::Model;

/// A netlist in the making, seen as the netlist so far.
#[derive(Drop)]
pub struct Writer {
    module_name: Name,
    names: Places,
    ports: Vec<Port>,
    inputs: Vec<Input>,
    wires: Vec<Wire>,
    registers: Vec<Register>,
    memories: Vec<Memory>,
    // the helping wires of all lower numbers have names that are taken
    next: u64,
}

impl Model for Writer {
    ghost use Rattle.std.specs.Prelude.{◌≤◌, ◌∷◌};
    ghost use Rattle.sap_net.specs.Net.{Net};
    ghost use Rattle.sap_build.specs.Writing.{AreTaken};

    ghost Value = { Net };

    ghost view = { λ w.
        record {
          module_name = w.module_name;
          names = w.names;
          ports = w.ports.items;
          inputs = w.inputs.items;
          wires = w.wires.items;
          registers = w.registers.items;
          memories = w.memories.items;
        } };

    ghost invariant = { λ w. (1 ≤ w.next) × AreTaken (w.module_name ∷ w.names) w.next };
}

impl Writer {
    /// Begins with nothing but the module's name.
    pub fn new(alloc: Global, module_name: Name) -> Result<Writer, AllocError>
        ensures { IfOk result (λ w. w ≡ spec.blank module_name) }
    {
        Ok(Writer {
            module_name,
            names: Places::new(alloc, Vec::new(alloc))?,
            ports: Vec::new(alloc),
            inputs: Vec::new(alloc),
            wires: Vec::new(alloc),
            registers: Vec::new(alloc),
            memories: Vec::new(alloc),
            next: 1,
        })
    }

    /// Begins with these parts.
    pub fn resume(alloc: Global, parts: Parts) -> Result<Writer, AllocError>
        ensures { IfOk result (λ w. w ≡ net_of parts) }
    {
        let Parts {
            module_name,
            names,
            ports,
            inputs,
            wires,
            registers,
            memories,
        } = parts;
        Ok(Writer {
            module_name,
            names: Places::new(alloc, names)?,
            ports,
            inputs,
            wires,
            registers,
            memories,
            next: 1,
        })
    }

    /// Declares a wire, which no port shows.
    pub fn wire(&mut self, alloc: Global, name: Name) -> Result<(), AllocError>
        ensures { OnOk result (self.new ≡ spec.declared name self.old) }
    {
        self.names.add(alloc, name)
    }

    /// Declares a wire or register, and a port that shows it.
    pub fn port(&mut self, alloc: Global, port: Port) -> Result<(), AllocError>
        ensures { OnOk result (self.new ≡ spec.shown port self.old) }
    {
        let name = port.name.copy(alloc)?;
        self.ports.push(port)?;
        self.names.add(alloc, name)
    }

    /// Declares an input, and the port of it.
    pub fn input(&mut self, alloc: Global, input: Input) -> Result<(), AllocError>
        ensures { OnOk result (self.new ≡ spec.with_input input self.old) }
    {
        let name = input.name.copy(alloc)?;
        self.inputs.push(input)?;
        let kind = PortKind::Input;
        self.port(alloc, Port { name, kind })
    }

    /// Declares a memory.
    pub fn memory(&mut self, alloc: Global, memory: Memory) -> Result<(), AllocError>
        ensures { OnOk result (self.new ≡ spec.with_memory memory self.old) }
    {
        let name = memory.name.copy(alloc)?;
        self.memories.push(memory)?;
        self.names.add(alloc, name)
    }

    /// Adds the `assign` of a wire.
    pub fn assign(&mut self, wire: Wire) -> Result<(), AllocError>
        ensures { OnOk result (self.new ≡ spec.assigned wire self.old) }
    {
        self.wires.push(wire)?;
        Ok(())
    }

    /// Adds what a register starts with and takes.
    pub fn register(&mut self, register: Register) -> Result<(), AllocError>
        ensures { OnOk result (self.new ≡ spec.registered register self.old) }
    {
        self.registers.push(register)?;
        Ok(())
    }

    fn is_taken(&self, name: &Name) -> bool
        ensures { result ≡ is_among name.now (spec.taken self.now) }
    {
        name.as_bytes() == self.module_name.as_bytes() || self.names.holds(name)
    }

    fn first_free(&self) -> Result<u64, AllocError>
        ensures { IfOk result (λ k. spec.IsFree (spec.taken self.now) k) }
    {
        let mut number = self.next;
        let mut name = helper_name(number);
        while self.is_taken(&name) {
            number = number.checked_add(1).ok_or(AllocError)?;
            name = helper_name(number);
        }
        Ok(number)
    }

    /// Declares a helping wire, of the least number from 1 on whose name isn't taken.
    pub fn helper(&mut self, alloc: Global) -> Result<Name, AllocError>
        ensures fresh { IfOk result (λ x. spec.IsFresh (spec.taken self.old) x) }
        ensures declared { IfOk result (λ x. self.new ≡ spec.declared x self.old) }
    {
        let number = self.first_free()?;
        let next = number.checked_add(1).ok_or(AllocError)?;
        let name = helper_name(number);
        self.names.add(alloc, name.copy(alloc)?)?;
        self.next = next;
        Ok(name)
    }

    /// Gives the parts.
    pub fn into_parts(self) -> Parts
        ensures { net_of result ≡ self }
    {
        Parts {
            module_name: self.module_name,
            names: self.names.into_names(),
            ports: self.ports,
            inputs: self.inputs,
            wires: self.wires,
            registers: self.registers,
            memories: self.memories,
        }
    }

    /// The netlist.
    pub fn finish(self) -> Netlist
        requires { IsNetlist self }
        ensures { result ≡ self }
    {
        let parts = self.into_parts();
        Netlist::new(parts)
    }
}
