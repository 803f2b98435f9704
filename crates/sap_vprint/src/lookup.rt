//! Looks up what a netlist has under a name.

ghost use Rattle.std.specs.Prelude.{◌≡◌, ◌<◌, ◌≤◌, ℕ, List, length, slice_index_or, IfSome, IfNone, IfOk, Some, false};
ghost use Rattle.std.specs.List.{HoldsAt};
ghost use Rattle.sap_maps.specs.Scope.{find};
ghost use Rattle.sap_net.specs.Names.{is_among};
ghost use Rattle.sap_net.specs.IsNetlist.{input_names, wire_names, register_names, memory_names};
ghost use Rattle.sap_vtext.specs.Widths.{shape_width};
ghost use Rattle.sap_vprint.specs.Printed.{entities};
ghost use Rattle.sap_vprint.specs.Lookup.{shape_of, shape_found};

use sap_net::name_map::{at_name, put};
use sap_net::netlist::Netlist;
use sap_net::parts::{Input, Memory, Name, Register, Wire};
use std::alloc::{AllocError, Global};
use std::collections::HashMap;

/// What a netlist has under a name, with its width; of a memory the depth too.
#[derive(Clone, Copy, Debug, PartialEq, Eq)]
pub enum Entity {
    Input { width: u32 },
    Wire { width: u32 },
    Register { width: u32 },
    Memory { width: u32, depth: u32 },
}

impl Entity {
    pub fn width(self) -> u32
        ensures { result ≡ shape_width (shape_of self) }
    {
        match self {
            Entity::Input { width }
            | Entity::Wire { width }
            | Entity::Register { width }
            | Entity::Memory { width, .. } => width,
        }
    }
}

/// What has a name.
trait Named {
    ghost name_of: { Self → List ℕ };

    fn name(&self) -> &Name
        ensures { result.now ≡ name_of self.now };
}

impl Named for Input {
    ghost name_of = { λ x. x.name };

    fn name(&self) -> &Name {
        &self.name
    }
}

impl Named for Wire {
    ghost name_of = { λ x. x.name };

    fn name(&self) -> &Name {
        &self.name
    }
}

impl Named for Register {
    ghost name_of = { λ x. x.name };

    fn name(&self) -> &Name {
        &self.name
    }
}

impl Named for Memory {
    ghost name_of = { λ x. x.name };

    fn name(&self) -> &Name {
        &self.name
    }
}

/// The first place from `from` on at which a list has a name, before `to`.
fn position_within<T: Named>(list: &[T], name: &Name, from: usize, to: usize) -> Option<usize>
    requires { to ≤ length list.now }
    ensures found { IfSome result (λ i. (i < length list.now) × HoldsAt (λ x. T.name_of x ≡ name.now) list.now i) }
    ensures absent { IfNone result ((k : ℕ) (x : T) → from ≤ k → k < to → T.name_of (slice_index_or list.now k x) ≡ name.now → ⊥) }
{
    for i in from..to {
        if list[i].name().same(name) {
            return Some(i);
        }
    }
    None
}

/// A place at which a list has a name. It is sought from `from` on, and then from the first place.
fn position<T: Named>(list: &[T], name: &Name, from: usize) -> Option<usize>
    ensures found { IfSome result (λ i. (i < length list.now) × HoldsAt (λ x. T.name_of x ≡ name.now) list.now i) }
    ensures absent { IfNone result ((k : ℕ) (x : T) → k < length list.now → T.name_of (slice_index_or list.now k x) ≡ name.now → ⊥) }
{
    let middle = from.min(list.len());
    match position_within(list, name, middle, list.len()) {
        Some(i) => Some(i),
        None => position_within(list, name, 0, middle),
    }
}

/// Where the next name is sought in each list: behind the last one that was found there. Only wires may be declared in another
/// order than their list's.
#[derive(Drop)]
pub struct Hints {
    alloc: Global,
    input: usize,
    wire: usize,
    register: usize,
    memory: usize,
    // the places of all wires, once one stood before the last one; most modules declare their wires in order and never need it
    places: HashMap<Vec<u8>, usize>,
}

impl Hints {
    pub fn new(alloc: Global) -> Self {
        Hints {
            alloc,
            input: 0,
            wire: 0,
            register: 0,
            memory: 0,
            places: HashMap::new(alloc),
        }
    }

    /// Seeks the next wire from the first one on.
    pub fn restart_wires(&mut self) {
        self.wire = 0;
    }
}

fn input(netlist: &Netlist, name: &Name, hints: &mut Hints) -> Option<Entity>
    ensures found { IfSome result (λ x. find (entities netlist.now) name.now ≡ Some (shape_of x)) }
    ensures absent { IfNone result (is_among name.now (input_names netlist.now) ≡ false) }
{
    netlist.rules();
    let inputs = netlist.inputs();
    let i = position(inputs, name, hints.input)?;
    hints.input = i + 1;
    Some(Entity::Input {
        width: inputs[i].width,
    })
}

fn wire(netlist: &Netlist, name: &Name, hints: &mut Hints) -> Option<Entity>
    ensures found { IfSome result (λ x. find (entities netlist.now) name.now ≡ Some (shape_of x)) }
    ensures absent { IfNone result (is_among name.now (wire_names netlist.now) ≡ false) }
{
    netlist.rules();
    let wires = netlist.wires();
    let i = position(wires, name, hints.wire)?;
    hints.wire = i + 1;
    Some(Entity::Wire {
        width: wires[i].width,
    })
}

fn register(netlist: &Netlist, name: &Name, hints: &mut Hints) -> Option<Entity>
    ensures found { IfSome result (λ x. find (entities netlist.now) name.now ≡ Some (shape_of x)) }
    ensures absent { IfNone result (is_among name.now (register_names netlist.now) ≡ false) }
{
    netlist.rules();
    let registers = netlist.registers();
    let i = position(registers, name, hints.register)?;
    hints.register = i + 1;
    Some(Entity::Register {
        width: registers[i].width,
    })
}

fn memory(netlist: &Netlist, name: &Name, hints: &mut Hints) -> Option<Entity>
    ensures found { IfSome result (λ x. find (entities netlist.now) name.now ≡ Some (shape_of x)) }
    ensures absent { IfNone result (is_among name.now (memory_names netlist.now) ≡ false) }
{
    netlist.rules();
    let memories = netlist.memories();
    let i = position(memories, name, hints.memory)?;
    hints.memory = i + 1;
    let memory = &memories[i];
    Some(Entity::Memory {
        width: memory.width,
        depth: memory.depth,
    })
}

fn index_wires(
    places: &mut HashMap<Vec<u8>, usize>,
    alloc: Global,
    wires: &[Wire],
) -> Result<(), AllocError> {
    for (k, wire) in wires.iter().enumerate() {
        put(places, alloc, &wire.name, k)?;
    }
    Ok(())
}

/// Goes to the wire of the name, if there is one.
fn seek_wire(wires: &[Wire], name: &Name, hints: &mut Hints) -> Result<(), AllocError> {
    if hints.places.is_empty() {
        if let Some(i) = position_within(wires, name, hints.wire, wires.len()) {
            hints.wire = i;
            return Ok(());
        }
        index_wires(&mut hints.places, hints.alloc, wires)?;
    }
    if let Some(i) = at_name(&hints.places, name.as_bytes()) {
        hints.wire = i;
    }
    Ok(())
}

/// Whether a list has the name at a place.
fn stands_at<T: Named>(list: &[T], name: &Name, at: usize) -> bool {
    match list.get(at) {
        Some(x) => x.name().same(name),
        None => false,
    }
}

/// What the netlist has under the name, if that stands next on a list.
fn next(netlist: &Netlist, name: &Name, hints: &mut Hints) -> Option<Entity>
    ensures { IfSome result (λ x. find (entities netlist.now) name.now ≡ Some (shape_of x)) }
{
    if stands_at(netlist.wires(), name, hints.wire) {
        return wire(netlist, name, hints);
    }
    if stands_at(netlist.registers(), name, hints.register) {
        return register(netlist, name, hints);
    }
    if stands_at(netlist.inputs(), name, hints.input) {
        return input(netlist, name, hints);
    }
    if stands_at(netlist.memories(), name, hints.memory) {
        return memory(netlist, name, hints);
    }
    None
}

/// What the netlist has under the name.
pub fn look_up(
    netlist: &Netlist,
    name: &Name,
    hints: &mut Hints,
) -> Result<Option<Entity>, AllocError>
    ensures { IfOk result (λ found. shape_found found ≡ find (entities netlist.now) name.now) }
{
    if let Some(x) = next(netlist, name, hints) {
        return Ok(Some(x));
    }
    seek_wire(netlist.wires(), name, hints)?;
    if let Some(x) = wire(netlist, name, hints) {
        return Ok(Some(x));
    }
    if let Some(x) = register(netlist, name, hints) {
        return Ok(Some(x));
    }
    if let Some(x) = input(netlist, name, hints) {
        return Ok(Some(x));
    }
    Ok(memory(netlist, name, hints))
}
