//! A netlist that is stepped on a line of a stimulus at a time.

ghost use Rattle.std.specs.Prelude.{◌≡◌, ◌≤◌, ◌+◌, ◌∷◌, ◌++◌, [], ℕ, List, IfOk, length};
ghost use Rattle.sap_meaning.specs.Cycle.{Tagged as Given};
ghost use Rattle.sap_net.specs.Net.{Net};
ghost use Rattle.sap_cycle.specs.Running.{ShowsNext};
ghost use Rattle.sap_stim.specs.Fits.{LineFits};
ghost use Rattle.sap_stim.specs.Rows.{AreLevelTexts, HoldsRows, row_text, shown_of};
ghost use Rattle.sap_sim.specs.Numbers.{numbers_of};
ghost use Rattle.sap_sim.specs.Stepped.{HasMore};
ghost use Rattle.sap_sim.specs.Stepping.{HasRowMore, IsAfter, IsPlanned, RowsAddUp};

use crate::feed::feed_of;
use crate::loading::planned_of;
use crate::steps::{Plan, take_numbers, take_seen};
use sap_cycle::runner::Runner;
use sap_desk::RowBuf;
use sap_lattice::Lattice;
use sap_net::laws::one_run;
use sap_net::netlist::Netlist;
use sap_stim::{
    Fields, RowHead, RowLabel, Short, labelled_row_into, labels_of, row_array, row_room,
    stimulus_fits,
};
use sap_stream::{Inputs, Tagged};
use std::alloc::{AllocError, Global};
use std::marker::Model;

/// A netlist that is stepped on the lines of a stimulus, one after another, and gives the row of each. It
/// takes all its memory when it is made.
#[derive(Drop)]
pub struct Simulation {
    runner: Runner,
    plan: Plan,
    fields: Fields,
    room: usize,
    // what stands before the registers of a row, and before their numbers
    head: RowHead,
    labels: Vec<RowLabel>,
    // the numbers of the inputs, and what the rows show
    numbers: Vec<u64>,
    values: Vec<u64>,
    tags: Vec<u64>,
    // where a row is written first
    array: Vec<u8>,
}

impl Model for Simulation {
    ghost use Rattle.std.specs.Prelude.{◌≡◌, length};
    ghost use Rattle.sap_sim.specs.declared.steps.Plan.{Plan};
    ghost use Rattle.sap_sim.specs.Stepped.{Stepped};

    ghost Value = { Stepped Plan };

    ghost view = { λ s. record { runner = s.runner; plan = s.plan; fields = s.fields; room = s.room } };

    ghost invariant = { λ s. (length s.numbers.items ≡ length s.plan.sources.items)
        × (length s.values.items ≡ length s.plan.shown.values.items) × (length s.tags.items ≡ length s.plan.shown.tags.items)
        × (s.labels.items ≡ s.plan.shown.names.items) };
}

/// As many numbers, each 0.
pub fn zeros(alloc: Global, count: usize) -> Result<Vec<u64>, AllocError>
    ensures { IfOk result (λ zeros. length zeros.items ≡ count) }
{
    let mut zeros = Vec::new(alloc);
    zeros.resize(count, 0)?;
    Ok(zeros)
}

/// The room that a row takes, its front, labels and array, the numbers of the inputs of a cycle, and what its row shows.
#[derive(Drop)]
struct Held {
    room: usize,
    head: RowHead,
    labels: Vec<RowLabel>,
    numbers: Vec<u64>,
    values: Vec<u64>,
    tags: Vec<u64>,
    array: Vec<u8>,
}

fn held_for(alloc: Global, lattice: &Lattice, plan: &Plan) -> Result<Held, AllocError>
    ensures holds { IfOk result (λ h. HoldsRows lattice.now plan.now.shown.names.items h.room) }
    ensures least { IfOk result (λ h. (other : ℕ) → HoldsRows lattice.now plan.now.shown.names.items other → h.room ≤ other) }
    ensures labels { IfOk result (λ h. h.labels.items ≡ plan.now.shown.names.items) }
    ensures numbers { IfOk result (λ h. length h.numbers.items ≡ length plan.now.sources.items) }
    ensures values { IfOk result (λ h. length h.values.items ≡ length plan.now.shown.values.items) }
    ensures tags { IfOk result (λ h. length h.tags.items ≡ length plan.now.shown.tags.items) }
{
    let Some(room) = row_room(&plan.shown.names, lattice) else {
        return Err(AllocError);
    };
    Ok(Held {
        room,
        head: RowHead::new(0),
        labels: labels_of(alloc, &plan.shown.names)?,
        numbers: zeros(alloc, plan.sources.len())?,
        values: zeros(alloc, plan.shown.values.len())?,
        tags: zeros(alloc, plan.shown.tags.len())?,
        array: row_array(alloc, room)?,
    })
}

// Appends a row to a buffer that has room for any row.
fn push_held(
    out: &mut RowBuf,
    array: &mut [u8],
    head: &mut RowHead,
    cycle: u64,
    labels: &[RowLabel],
    values: &[u64],
    tags: &[u64],
    levels: &[Short],
    lattice: &Lattice,
)
    requires values { length values.now ≡ length labels.now }
    requires tags { length tags.now ≡ length labels.now }
    requires levels { AreLevelTexts lattice.now levels.now }
    requires room { (room : ℕ) × HoldsRows lattice.now labels.now room × (length out.old.bytes + room ≤ out.old.room) }
    ensures text { out.new.bytes ≡ out.old.bytes ++ row_text cycle (shown_of lattice.now labels.now values.now tags.now) }
    ensures more { (room : ℕ) → HoldsRows lattice.now labels.now room → HasMore room out.old.bytes out.new.bytes }
    ensures memory { out.old.room ≤ out.new.room }
{
    labelled_row_into(
        out, array, head, cycle, labels, values, tags, levels, lattice,
    );
}

impl Simulation {
    /// A netlist before the first line, its levels those of a lattice.
    pub fn new(alloc: Global, lattice: &Lattice, netlist: Netlist) -> Result<Simulation, AllocError>
        ensures after { IfOk result (IsAfter lattice.now netlist []) }
        ensures least { IfOk result (λ s. (other : ℕ) → HoldsRows lattice.now s.plan.shown.names.items other → s.room ≤ other) }
    {
        let feed = feed_of(alloc, lattice, &netlist)?;
        let planned = planned_of(alloc, lattice, netlist, feed.sources)?;
        let held = held_for(alloc, lattice, &planned.plan)?;
        Ok(Simulation {
            runner: planned.runner,
            plan: planned.plan,
            fields: feed.fields,
            room: held.room,
            head: held.head,
            labels: held.labels,
            numbers: held.numbers,
            values: held.values,
            tags: held.tags,
            array: held.array,
        })
    }

    /// The fields of each line.
    pub fn fields(&self) -> &Fields
        ensures { result.now ≡ self.now.fields }
    {
        &self.fields
    }

    /// For how many bytes a buffer needs room to take any row: `new` makes it the fewest.
    pub fn room(&self) -> usize
        ensures { result ≡ self.now.room }
    {
        self.room
    }

    /// The netlist.
    pub fn netlist(&self) -> &Netlist
        ensures { result.now ≡ self.now.runner.net }
    {
        self.runner.netlist()
    }

    /// The netlist as it runs.
    pub fn runner(&self) -> &Runner
        ensures { result.now ≡ self.now.runner }
    {
        &self.runner
    }

    /// Steps on a line. It takes no memory.
    pub fn step(&mut self, lattice: &Lattice, line: &[Tagged])
        requires planned { IsPlanned lattice.now self.old }
        requires line { LineFits lattice.now self.old.fields line.now }
        ensures next { ShowsNext self.old.runner (numbers_of lattice.now self.old.runner.net line.now) self.new.runner }
        ensures netlist { self.new.runner.net ≡ self.old.runner.net }
        ensures planned { IsPlanned lattice.now self.new }
        ensures fields { self.new.fields ≡ self.old.fields }
        ensures same_room { self.new.room ≡ self.old.room }
    {
        self.runner.netlist().rules();
        lattice.lawful();
        take_numbers(lattice, &self.plan.sources, line, &mut self.numbers);
        self.runner.step(&self.numbers);
    }

    /// Steps on a line and appends the row of the cycle, for which there is room. It takes no memory.
    pub fn row_into(&mut self, out: &mut RowBuf, lattice: &Lattice, cycle: u64, line: &Inputs)
        requires planned { IsPlanned lattice.now self.old }
        requires line { LineFits lattice.now self.old.fields line.now }
        requires room { length out.old.bytes + self.old.room ≤ out.old.room }
        ensures after { (n : Net) (lines : List (List Given)) → IsAfter lattice.now n lines self.old → IsAfter lattice.now n (lines ++ line.now ∷ []) self.new }
        ensures row { (n : Net) (lines : List (List Given)) → IsAfter lattice.now n lines self.old
            → HasRowMore lattice.now n (lines ++ line.now ∷ []) cycle out.old.bytes out.new.bytes }
        ensures more { HasMore self.old.room out.old.bytes out.new.bytes }
        ensures fields { self.new.fields ≡ self.old.fields }
        ensures same_room { self.new.room ≡ self.old.room }
        ensures memory { out.old.room ≤ out.new.room }
    {
        self.runner.netlist().rules();
        lattice.lawful();
        take_numbers(
            lattice,
            &self.plan.sources,
            line.values(),
            &mut self.numbers,
        );
        self.runner.step(&self.numbers);
        take_seen(&self.runner, &self.plan.shown.values, &mut self.values);
        take_seen(&self.runner, &self.plan.shown.tags, &mut self.tags);
        push_held(
            out,
            &mut self.array,
            &mut self.head,
            cycle,
            &self.labels,
            &self.values,
            &self.tags,
            &self.plan.levels,
            lattice,
        );
    }

    /// The rows of the lines add up to what the netlist gives on the whole stimulus.
    pub fn rows_add_up(&self, lattice: &Lattice)
        ensures { RowsAddUp lattice.now self.now.runner.net }
    {
        let netlist = self.runner.netlist();
        netlist.rules();
        lattice.lawful();
        stimulus_fits();
        one_run(netlist);
    }
}
