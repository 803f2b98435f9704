//! Whole programs.

ghost use Rattle.std.specs.Prelude.{◌≡◌, ◌≤◌, ◌++◌, map, IfOk};
ghost use Rattle.sap_net.specs.Net.{net_of};
ghost use Rattle.sap_ir.specs.IsGuarded.{variable_names};
ghost use Rattle.sap_ir.specs.Program.{source_of};
ghost use Rattle.sap_ir.specs.Writes.{WritesOnce};
ghost use Rattle.sap_size.specs.Flat.{source_weight};
ghost use Rattle.sap_size.specs.Items.{items};
ghost use Rattle.sap_lower.specs.Lowered as spec;
ghost use Rattle.sap_lower.specs.Lowered.{input_of, input_port, last_lowering, listed, memory_of, names_declared, net_declared, out_wire, port_shown, register_of, registers_declared};
ghost use Rattle.sap_share.specs.Copying.{CopiesPorts};
ghost use Rattle.sap_lower.specs.Same.{Declares, RunsAlike, SharesWires};

use crate::lowering::Lowering;
use crate::parts::{Part, WritePort};
use crate::wires::Wires;
use crate::{declare, first};
use sap_ir::guarded::variable_names;
use sap_ir::program::Guarded;
use sap_net::netlist::Netlist;
use sap_net::parts::{Input, Memory, Name, Parts, Port, Register, Wire};
use sap_share::places::Places;
use sap_share::table::Table;
use sap_text::name::copy_names;
use std::alloc::{AllocError, Global};

// The names of a program's registers, and of its ports but the inputs.
#[derive(Drop)]
struct Names {
    registers: Places,
    ports: Places,
}

fn names_of(alloc: Global, source: &Guarded) -> Result<Names, AllocError>
    ensures registers { IfOk result (λ n. n.registers ≡ variable_names (source_of source.now).registers) }
    ensures ports { IfOk result (λ n. n.ports ≡ (source_of source.now).ports) }
{
    let registers = Places::new(alloc, variable_names(alloc, source.registers())?)?;
    let ports = Places::new(alloc, copy_names(alloc, source.ports())?)?;
    Ok(Names { registers, ports })
}

// What is declared but for wires and the state.
#[derive(Drop)]
struct Declared {
    names: Vec<Name>,
    ports: Vec<Port>,
    inputs: Vec<Input>,
}

fn declared_of(
    alloc: Global,
    source: &Guarded,
    known: &Names,
    wires: &[Wire],
) -> Result<Declared, AllocError>
    requires registers { known.now.registers ≡ variable_names (source_of source.now).registers }
    requires ports { known.now.ports ≡ (source_of source.now).ports }
    ensures names { IfOk result (λ d. d.names.items ≡ names_declared (source_of source.now) wires.now) }
    ensures ports { IfOk result (λ d. d.ports.items ≡ map input_port (source_of source.now).inputs ++ map (port_shown (source_of source.now).registers) (source_of source.now).ports) }
    ensures inputs { IfOk result (λ d. d.inputs.items ≡ map input_of (source_of source.now).inputs) }
{
    let names = declare::names(
        alloc,
        source.inputs(),
        &known.ports,
        wires,
        source.registers(),
        source.memories(),
    )?;
    let ports = declare::ports(alloc, source.inputs(), &known.registers, source.ports())?;
    let inputs = declare::inputs(alloc, source.inputs())?;
    Ok(Declared {
        names,
        ports,
        inputs,
    })
}

// The state, with what it takes at the edge.
#[derive(Drop)]
struct Edge {
    registers: Vec<Register>,
    memories: Vec<Memory>,
}

fn edge_of(
    alloc: Global,
    source: &Guarded,
    known: &Names,
    entries: &Table<Part>,
    ports: &Table<WritePort>,
) -> Result<Edge, AllocError>
    requires registers { known.now.registers ≡ variable_names (source_of source.now).registers }
    requires ports { known.now.ports ≡ (source_of source.now).ports }
    ensures registers { IfOk result (λ e. e.registers.items ≡ map (register_of entries.now) (registers_declared (source_of source.now))) }
    ensures memories { IfOk result (λ e. e.memories.items ≡ map (memory_of ports.now) (source_of source.now).memories) }
{
    let registers = declare::registers(
        alloc,
        entries,
        &known.registers,
        source.registers(),
        &known.ports,
    )?;
    let memories = declare::memories(alloc, ports, source.memories())?;
    Ok(Edge {
        registers,
        memories,
    })
}

// The helping wires, and the wires that are ports.
fn wires_of(
    alloc: Global,
    source: &Guarded,
    known: &Names,
    helping: Wires,
    entries: &Table<Part>,
) -> Result<Vec<Wire>, AllocError>
    requires { known.now.ports ≡ (source_of source.now).ports }
    ensures { IfOk result (λ ws. ws.items ≡ helping ++ map (out_wire entries.now) (listed (source_of source.now).ports (source_of source.now).wires)) }
{
    let mut wires = helping.into_vec();
    declare::out_wires(alloc, &mut wires, entries, &known.ports, source.wires())?;
    Ok(wires)
}

/// The netlist of these wires.
fn parts(
    alloc: Global,
    source: &Guarded,
    known: &Names,
    wires: Vec<Wire>,
    entries: &Table<Part>,
    ports: &Table<WritePort>,
) -> Result<Parts, AllocError>
    requires registers { known.now.registers ≡ variable_names (source_of source.now).registers }
    requires ports { known.now.ports ≡ (source_of source.now).ports }
    ensures { IfOk result (λ p. net_of p ≡ net_declared (source_of source.now) wires.items entries.now ports.now) }
{
    let module_name = Name::new(String::from_str(alloc, "top")?);
    let declared = declared_of(alloc, source, known, &wires)?;
    let edge = edge_of(alloc, source, known, entries, ports)?;
    Ok(Parts {
        module_name,
        names: declared.names,
        ports: declared.ports,
        inputs: declared.inputs,
        wires,
        registers: edge.registers,
        memories: edge.memories,
    })
}

/// The netlist of a program that is lowered to its end.
fn declare_all(alloc: Global, source: &Guarded, lowering: Lowering) -> Result<Parts, AllocError>
    requires { lowering ≡ last_lowering (source_of source.now) }
    ensures { IfOk result (λ p. net_of p ≡ spec.lowered (source_of source.now)) }
{
    let Lowering {
        wires,
        entries,
        ports,
    } = lowering;
    let known = names_of(alloc, source)?;
    let wires = wires_of(alloc, source, &known, wires, &entries)?;
    parts(alloc, source, &known, wires, &entries, &ports)
}

fn lowered(alloc: Global, source: &Guarded) -> Result<Parts, AllocError>
    ensures { IfOk result (λ p. net_of p ≡ spec.lowered (source_of source.now)) }
{
    let memories = first::shapes(alloc, source.memories())?;
    let mut lowering = Lowering::new(alloc, source)?;
    lowering.commands(alloc, &memories, source.cmds())?;
    declare_all(alloc, source, lowering)
}

/// The netlist of a program that writes no memory twice in a cycle. It declares the program's inputs, registers and memories, those of its
/// wires that are ports, and helping wires. On every stream and in each cycle it has the program's number at each input, register, memory cell
/// and port. It has at most as many items as the program's weight.
pub fn lower(alloc: Global, source: &Guarded) -> Result<Netlist, AllocError>
    requires { WritesOnce (source_of source.now) }
    ensures declares { IfOk result (λ n. Declares (source_of source.now) n) }
    ensures same { IfOk result (λ n. RunsAlike (source_of source.now) n) }
    ensures shared { IfOk result (λ n. SharesWires (source_of source.now) n) }
    ensures copies { IfOk result (λ n. CopiesPorts n) }
    ensures small { IfOk result (λ n. items n ≤ source_weight (source_of source.now)) }
{
    source.rules();
    let parts = lowered(alloc, source)?;
    Ok(Netlist::new(parts))
}
