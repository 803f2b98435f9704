//! The dump of a netlist that runs.

ghost use Rattle.std.specs.Prelude.{◌≡◌, ◌+◌, ◌<◌, ◌≤◌, ◌^◌, ◌++◌, true, length, vec_capacity, All, IfOk, OnErr, OnOk, Option};
ghost use Rattle.sap_maps.specs.Maps.{Valuation};
ghost use Rattle.sap_maps.specs.Ranges.{IsWidth};
ghost use Rattle.sap_net.specs.IsNetlist.{register_names};
ghost use Rattle.sap_net.specs.Names.{is_among};
ghost use Rattle.sap_cycle.specs.Running.{IsPlaceOf, Shows, seen, value_names};
ghost use Rattle.sap_wave.specs.Lines.{text_of};
ghost use Rattle.sap_wave.specs.Dumps.{block_of, head};
ghost use Rattle.sap_wave.specs.Dumping.{AddsBlock, StandAt, begun, block_room, numbers_seen};
ghost use Rattle.sap_wave.specs.Runs.{variables_of};

use crate::registers::{Shown, shown_by_ports};
use crate::room::block_room;
use crate::texts::{push_block, push_changes, push_head};
use crate::variable::Variable;
use sap_cycle::runner::{Place, Runner};
use sap_desk::{Bytes, RowBuf};
use sap_net::netlist::Netlist;
use sap_net::parts::Name;
use std::alloc::{AllocError, Global};
use std::marker::Model;
use std::mem;

/// The place of a register.
fn place(runner: &Runner, name: &Name) -> Place
    requires { is_among name.now (register_names runner.now.net) ≡ true }
    ensures is { IsPlaceOf runner.now.net name.now result }
    ensures within { result < length (value_names runner.now.net) }
{
    runner.netlist().rules();
    match runner.find(name.as_str()) {
        Some(place) => place,
        None => unreachable!(),
    }
}

/// The places of the variables.
fn places_of(
    alloc: Global,
    runner: &Runner,
    variables: &[Variable],
) -> Result<Vec<Place>, AllocError>
    requires { variables.now ≡ variables_of runner.now.net }
    ensures { IfOk result (λ places. StandAt runner.now.net variables.now places.items) }
{
    runner.netlist().rules();
    let mut places = Vec::new(alloc);
    for variable in variables {
        places.push(place(runner, &variable.name))?;
    }
    Ok(places)
}

/// The number of a register.
fn number(runner: &Runner, name: &Name) -> u64
    requires { is_among name.now (register_names runner.now.net) ≡ true }
    ensures { (cycle : Option Valuation) → Shows runner.now cycle → result ≡ (seen runner.now.net cycle).value name.now }
{
    runner.at(place(runner, name))
}

/// Takes the numbers of the variables, in place of others.
fn take_seen(runner: &Runner, variables: &[Variable], numbers: &mut [u64])
    requires variables { variables.now ≡ variables_of runner.now.net }
    requires count { length numbers.old ≡ length variables.now }
    ensures count { length numbers.new ≡ length variables.now }
    ensures seen { (cycle : Option Valuation) → Shows runner.now cycle → numbers.new ≡ numbers_seen runner.now.net cycle }
{
    runner.netlist().rules();
    for k in 0..variables.len() {
        numbers[k] = number(runner, &variables[k].name);
    }
}

/// Takes the numbers of the variables at their places, in place of others.
fn take_at(runner: &Runner, places: &[Place], numbers: &mut [u64])
    requires places { StandAt runner.now.net (variables_of runner.now.net) places.now }
    requires count { length numbers.old ≡ length places.now }
    ensures count { length numbers.new ≡ length places.now }
    ensures seen { (cycle : Option Valuation) → Shows runner.now cycle → numbers.new ≡ numbers_seen runner.now.net cycle }
{
    for k in 0..places.len() {
        numbers[k] = runner.at(places[k]);
    }
}

/// Appends a block.
fn push_numbered(
    out: &mut Vec<u8>,
    number: u64,
    variables: &[Variable],
    before: &[u64],
    after: &[u64],
) -> Result<(), AllocError>
    requires widths { All (λ x. IsWidth x.width) variables.now }
    requires before { length before.now ≡ length variables.now }
    requires after { length after.now ≡ length variables.now }
    ensures text { OnOk result (out.new.items ≡ out.old.items ++ text_of (block_of number variables.now before.now after.now)) }
    ensures full { OnErr result (vec_capacity out.old < length out.old.items + length (text_of (block_of number variables.now before.now after.now))) }
    ensures room { vec_capacity out.old ≤ vec_capacity out.new }
{
    push_block(out, number)?;
    push_changes(out, variables, before, after)
}

/// Writes a block in place of another, in a buffer that has room for any block. It takes no memory.
fn fill_block(
    block: &mut RowBuf,
    number: u64,
    variables: &[Variable],
    before: &[u64],
    after: &[u64],
)
    requires widths { All (λ x. IsWidth x.width) variables.now }
    requires before { length before.now ≡ length variables.now }
    requires after { length after.now ≡ length variables.now }
    requires room { block_room variables.now ≤ block.old.room }
    ensures text { block.new.bytes ≡ text_of (block_of number variables.now before.now after.now) }
    ensures room { block.old.room ≤ block.new.room }
{
    block.clear();
    let mut bytes = block.take();
    push_numbered(&mut bytes, number, variables, before, after).unwrap();
    block.put(bytes);
}

/// The dump of a netlist that runs, written block by block. It takes all memory for blocks when it is made.
#[derive(Drop)]
pub struct Dumper {
    variables: Vec<Variable>,
    first: Vec<u64>,
    last: Vec<u64>,
    // room for the numbers of the next block
    next: Vec<u64>,
    count: u64,
    block: RowBuf,
}

impl Model for Dumper {
    ghost use Rattle.sap_wave.specs.Dumping.{Dumping};
    ghost use Rattle.sap_wave.specs.Dumper.{IsDumper};

    ghost Value = { Dumping };

    ghost view = { λ d. record { variables = d.variables.items; first = d.first.items; last = d.last.items; count = d.count; block = d.block.bytes } };

    ghost invariant = { λ d. IsDumper (record { variables = d.variables.items; first = d.first.items; last = d.last.items; count = d.count; block = d.block.bytes }) d.next.items d.block.room };
}

impl Dumper {
    /// The dump of a netlist before its first cycle.
    pub fn load(alloc: Global, netlist: &Netlist) -> Result<Dumper, AllocError>
        ensures { IfOk result (λ d. d ≡ begun netlist.now) }
    {
        netlist.rules();
        let Shown { variables, first } = shown_by_ports(alloc, netlist)?;
        let Some(room) = block_room(&variables) else {
            return Err(AllocError);
        };
        let last = first.as_slice().to_vec(alloc)?;
        let next = first.as_slice().to_vec(alloc)?;
        let block = RowBuf::new(alloc, room)?;
        Ok(Dumper {
            variables,
            first,
            last,
            next,
            count: 0,
            block,
        })
    }

    /// The declarations and block 0.
    pub fn head(&self, alloc: Global) -> Result<Bytes, AllocError>
        ensures { IfOk result (λ text. text ≡ text_of (head self.now.variables self.now.first)) }
    {
        let mut out = Vec::new(alloc);
        push_head(&mut out, &self.variables, &self.first)?;
        Ok(Bytes::new(out))
    }

    /// Writes the next block: the variables whose numbers in a runner of the netlist aren't those of the block before. It
    /// takes no memory.
    pub fn write_block(&mut self, runner: &Runner)
        requires variables { variables_of runner.now.net ≡ self.old.variables }
        requires few { self.old.count < 2 ^ 48 }
        ensures block { AddsBlock runner.now self.old self.new }
        ensures variables { self.new.variables ≡ self.old.variables }
        ensures first { self.new.first ≡ self.old.first }
        ensures count { self.new.count ≡ self.old.count + 1 }
    {
        take_seen(runner, &self.variables, &mut self.next);
        self.count += 1;
        fill_block(
            &mut self.block,
            self.count,
            &self.variables,
            &self.last,
            &self.next,
        );
        mem::swap(&mut self.last, &mut self.next);
    }

    /// Where the variables stand in a runner of the netlist.
    pub fn places(&self, alloc: Global, runner: &Runner) -> Result<Vec<Place>, AllocError>
        requires variables { variables_of runner.now.net ≡ self.now.variables }
        ensures { IfOk result (λ places. StandAt runner.now.net self.now.variables places.items) }
    {
        places_of(alloc, runner, &self.variables)
    }

    /// Writes the next block as `write_block` does, by the places of the variables in the runner, without a search. It takes
    /// no memory.
    pub fn write_block_at(&mut self, runner: &Runner, places: &[Place])
        requires variables { variables_of runner.now.net ≡ self.old.variables }
        requires places { StandAt runner.now.net self.old.variables places.now }
        requires few { self.old.count < 2 ^ 48 }
        ensures block { AddsBlock runner.now self.old self.new }
        ensures variables { self.new.variables ≡ self.old.variables }
        ensures first { self.new.first ≡ self.old.first }
        ensures count { self.new.count ≡ self.old.count + 1 }
    {
        take_at(runner, places, &mut self.next);
        self.count += 1;
        fill_block(
            &mut self.block,
            self.count,
            &self.variables,
            &self.last,
            &self.next,
        );
        mem::swap(&mut self.last, &mut self.next);
    }

    /// The text of the block that was written last.
    pub fn block(&self) -> &[u8]
        ensures { result.now ≡ self.now.block }
    {
        self.block.bytes()
    }
}
