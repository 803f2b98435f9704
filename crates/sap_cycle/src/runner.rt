//! A netlist that runs.

ghost use Rattle.std.specs.Prelude.{◌≡◌, ◌<◌, ◌-◌, ◌&&◌, ◌||◌, nat_le, nat_lt, None, length, MatchOption, IfSome, IfOk, IfErr};
ghost use Rattle.sap_maps.specs.Scope.{find};
ghost use Rattle.sap_net.specs.IsNetlist.{readable};
ghost use Rattle.sap_net.specs.Runs.{InputsFit};
ghost use Rattle.sap_cycle.specs.Running.{Shows, ShowsNext, GivesValue, GivesCell, GivesPlace, IsPlaceOf, value_names};

use crate::load::{Loaded, prepare};
use crate::program::{Program, turn};
use sap_net::laws::one_cycle;
use sap_net::name_map::at_name;
use sap_net::netlist::Netlist;
use std::alloc::{AllocError, Global};
use std::collections::HashMap;
use std::marker::Model;

/// The place of a name in a runner.
#[derive(Clone, Copy)]
pub struct Place {
    index: usize,
}

impl Model for Place {
    ghost use Rattle.std.specs.Prelude.{ℕ};

    ghost Value = { ℕ };

    ghost view = { λ p. p.index };

    ghost inverse = { λ k. record { index = k } };
}

/// A netlist that is stepped a cycle at a time. No call on a runner takes memory.
#[derive(Drop)]
pub struct Runner {
    netlist: Netlist,
    stepped: bool,
    // inputs, registers, wires
    values: Vec<u64>,
    cells: Vec<u64>,
    // what the registers take at the next edge
    edge: Vec<u64>,
    program: Program,
    places: HashMap<Vec<u8>, usize>,
    memories: HashMap<Vec<u8>, usize>,
}

impl Model for Runner {
    ghost use Rattle.sap_cycle.specs.Running.{Running};

    ghost Value = { Running };

    ghost use Rattle.sap_cycle.specs.Loaded.{IsRunner};

    ghost view = { λ r. record { net = r.netlist; stepped = r.stepped; values = r.values.items; cells = r.cells.items } };

    ghost invariant = { λ r. IsRunner (record { net = r.netlist; stepped = r.stepped; values = r.values.items; cells = r.cells.items }) r.program r.edge.items r.places r.memories };
}

impl Runner {
    /// Loads a netlist. Where there is no memory, hands it back.
    pub fn load(alloc: Global, netlist: Netlist) -> Result<Runner, (Netlist, AllocError)>
        ensures netlist { IfOk result (λ r. r.net ≡ netlist) }
        ensures unstepped { IfOk result (λ r. Shows r None) }
        ensures handed_back { IfErr result (λ e. e.0 ≡ netlist) }
    {
        match prepare(alloc, &netlist) {
            Ok(loaded) => {
                let Loaded {
                    values,
                    cells,
                    edge,
                    program,
                    places,
                    memories,
                } = loaded;
                Ok(Runner {
                    netlist,
                    stepped: false,
                    values,
                    cells,
                    edge,
                    program,
                    places,
                    memories,
                })
            }
            Err(fault) => Err((netlist, fault)),
        }
    }

    /// The netlist that was loaded.
    pub fn netlist(&self) -> &Netlist
        ensures { result.now ≡ self.now.net }
    {
        &self.netlist
    }

    /// A clock cycle on these numbers of the inputs, in port order without the clock.
    pub fn step(&mut self, inputs: &[u64])
        requires { InputsFit self.old.net.inputs inputs.now }
        ensures netlist { self.new.net ≡ self.old.net }
        ensures next { ShowsNext self.old inputs.now self.new }
    {
        one_cycle(&self.netlist);
        turn(
            &mut self.values,
            &mut self.cells,
            &mut self.edge,
            inputs,
            &self.program,
        );
        self.stepped = true;
    }

    /// The number of an input, a register or a wire: of a register after the last edge, of the others before it. None
    /// exactly where no such thing has the name, or it is an input or a wire and there was no step yet.
    pub fn value(&self, name: &str) -> Option<u64>
        ensures { GivesValue self.now name.now result }
    {
        match at_name(&self.places, name.as_bytes()) {
            None => None,
            Some(place) => {
                if is_shown(
                    self.stepped,
                    place,
                    self.netlist.inputs().len(),
                    self.netlist.registers().len(),
                ) {
                    Some(self.values[place])
                } else {
                    None
                }
            }
        }
    }

    /// The number of a cell of a memory after the last edge. None exactly where no memory has the name, or the index isn't
    /// below its depth.
    pub fn cell(&self, name: &str, index: u32) -> Option<u64>
        ensures { GivesCell self.now name.now index result }
    {
        match at_name(&self.memories, name.as_bytes()) {
            None => None,
            Some(k) => {
                if index < self.netlist.memories()[k].depth {
                    Some(self.cells[self.program.ports[k].base + index as usize])
                } else {
                    None
                }
            }
        }
    }

    /// The place of an input, a register or a wire. None exactly where no such thing has the name.
    pub fn find(&self, name: &str) -> Option<Place>
        ensures found { MatchOption result (find (readable self.now.net) name.now ≡ None) (IsPlaceOf self.now.net name.now) }
        ensures within { IfSome result (λ k. k < length (value_names self.now.net)) }
    {
        match at_name(&self.places, name.as_bytes()) {
            None => None,
            Some(index) => Some(Place { index }),
        }
    }

    /// The number at a place, without a search: what `value` gives for its name, or 0 where that gives none.
    pub fn at(&self, place: Place) -> u64
        requires { place < length (value_names self.now.net) }
        ensures { GivesPlace self.now place result }
    {
        self.values[place.index]
    }
}

/// Whether the number at a place can be seen: that of a register always.
fn is_shown(stepped: bool, place: usize, inputs: usize, registers: usize) -> bool
    ensures { result ≡ (stepped || (nat_le inputs place && nat_lt (place - inputs) registers)) }
{
    stepped || (inputs <= place && place - inputs < registers)
}
