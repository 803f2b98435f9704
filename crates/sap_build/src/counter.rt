//! A counter, written part by part.

ghost use Rattle.std.specs.Prelude.{◌≡◌, IfOk};
ghost use Rattle.sap_build.specs.Counting as spec;

use crate::laws::worked_counter;
use crate::writer::Writer;
use sap_bits::Op2;
use sap_net::netlist::Netlist;
use sap_net::parts::{Input, Memory, Name, Operand, Port, PortKind, Register, Right, Wire};
use std::alloc::{AllocError, Global};

fn named(alloc: Global, text: &str) -> Result<Name, AllocError>
    ensures { IfOk result (λ name. name ≡ text.now) }
{
    Ok(Name::new(String::from_str(alloc, text)?))
}

/// What it counts by.
fn step(alloc: Global) -> Result<Input, AllocError>
    ensures { IfOk result (λ input. input ≡ spec.step) }
{
    let name = named(alloc, "step")?;
    Ok(Input { name, width: 8 })
}

/// The count of the next cycle.
fn next(alloc: Global) -> Result<Wire, AllocError>
    ensures { IfOk result (λ wire. wire ≡ spec.next) }
{
    let count = Operand::Named(named(alloc, "count")?);
    let step = Operand::Named(named(alloc, "step")?);
    Ok(Wire {
        name: named(alloc, "n1")?,
        width: 8,
        right: Right::Two(Op2::Add, count, step),
    })
}

/// The cell for it.
fn place(alloc: Global) -> Result<Wire, AllocError>
    ensures { IfOk result (λ wire. wire ≡ spec.place) }
{
    let next = named(alloc, "n1")?;
    Ok(Wire {
        name: named(alloc, "n2")?,
        width: 2,
        right: Right::Slice {
            name: next,
            hi: 1,
            lo: 0,
        },
    })
}

fn output(alloc: Global) -> Result<Wire, AllocError>
    ensures { IfOk result (λ wire. wire ≡ spec.output) }
{
    let next = Operand::Named(named(alloc, "n1")?);
    Ok(Wire {
        name: named(alloc, "out")?,
        width: 8,
        right: Right::Copy(next),
    })
}

fn count(alloc: Global) -> Result<Register, AllocError>
    ensures { IfOk result (λ register. register ≡ spec.count) }
{
    Ok(Register {
        name: named(alloc, "count")?,
        width: 8,
        start: 0,
        next: Operand::Named(named(alloc, "n1")?),
    })
}

/// The last count of each remainder by four.
fn counts(alloc: Global) -> Result<Memory, AllocError>
    ensures { IfOk result (λ memory. memory ≡ spec.counts) }
{
    Ok(Memory {
        name: named(alloc, "counts")?,
        width: 8,
        depth: 4,
        start: 0,
        enable: Operand::Constant { width: 1, value: 1 },
        index: Operand::Named(named(alloc, "n2")?),
        value: Operand::Named(named(alloc, "n1")?),
    })
}

/// Declares the names, with their ports.
fn begin(alloc: Global) -> Result<Writer, AllocError>
    ensures { IfOk result (λ writer. writer ≡ spec.counter_names) }
{
    let mut writer = Writer::new(alloc, named(alloc, "top")?)?;
    writer.input(alloc, step(alloc)?)?;
    let name = named(alloc, "out")?;
    let kind = PortKind::Wire;
    writer.port(alloc, Port { name, kind })?;
    let name = named(alloc, "count")?;
    let kind = PortKind::Register;
    writer.port(alloc, Port { name, kind })?;
    writer.wire(alloc, named(alloc, "n1")?)?;
    writer.wire(alloc, named(alloc, "n2")?)?;
    Ok(writer)
}

/// A counter that adds its input in each cycle, shows the sum, and keeps the last sum of each remainder by four.
pub fn counter(alloc: Global) -> Result<Netlist, AllocError>
    ensures { IfOk result (λ netlist. netlist ≡ spec.counter) }
{
    let mut writer = begin(alloc)?;
    writer.assign(next(alloc)?)?;
    writer.assign(place(alloc)?)?;
    writer.assign(output(alloc)?)?;
    writer.register(count(alloc)?)?;
    writer.memory(alloc, counts(alloc)?)?;
    worked_counter();
    Ok(writer.finish())
}
