//! A design that is stepped on a line of a stimulus at a time.

ghost use Rattle.std.specs.Prelude.{◌≡◌, ◌≤◌, ◌+◌, ◌*◌, ◌∷◌, ◌++◌, [], ℕ, List, IfOk, length};
ghost use Rattle.sap_check.specs.Checked.{levels_in, tree_in};
ghost use Rattle.sap_interface.specs.Designs.{StandsForDesign};
ghost use Rattle.sap_meaning.specs.Cycle.{Tagged as Given};
ghost use Rattle.sap_net.specs.Net.{Net};
ghost use Rattle.sap_sim.specs.Stepped.{HasMore};
ghost use Rattle.sap_stim.specs.Fits.{LineFits};
ghost use Rattle.sap_trace.specs.Rooms.{HoldsCycle};
ghost use Rattle.sap_trace.specs.Stepping.{HasLinesMore, IsAfter, IsPlanned, LinesAddUp};

use crate::known::known;
use crate::line::refused_into;
use crate::numbers::take_numbers;
use crate::room::cycle_room;
use crate::trace::planned;
use crate::wires::Wires;
use sap_check::Checked;
use sap_cycle::runner::Runner;
use sap_desk::RowBuf;
use sap_net::laws::one_run;
use sap_net::netlist::Netlist;
use sap_sim::design_fields;
use sap_stim::{Field, Fields, stimulus_fits};
use sap_stream::Inputs;
use std::alloc::{AllocError, Global};
use std::marker::Model;

/// A netlist that stands for a design, and is stepped on the lines of a stimulus, one after another. It gives the lines of the
/// check sites that each cycle refuses. It takes all its memory when it is made.
#[derive(Drop)]
pub struct Tracing {
    runner: Runner,
    wires: Wires,
    fields: Fields,
    room: usize,
    // the numbers of the inputs
    numbers: Vec<u64>,
}

impl Model for Tracing {
    ghost use Rattle.std.specs.Prelude.{◌≡◌, ◌*◌, length};
    ghost use Rattle.sap_sim.specs.Stepped.{Stepped};
    ghost use Rattle.sap_trace.specs.declared.wires.Wires.{Wires};

    ghost Value = { Stepped Wires };

    ghost view = { λ s. record { runner = s.runner; plan = s.wires; fields = s.fields; room = s.room } };

    ghost invariant = { λ s. length s.numbers.items ≡ 2 * length s.fields };
}

// Two numbers for each field.
fn zeros(alloc: Global, fields: &[Field]) -> Result<Vec<u64>, AllocError>
    ensures { IfOk result (λ zeros. length zeros.items ≡ 2 * length fields.now) }
{
    let mut zeros = Vec::new(alloc);
    for _ in fields {
        zeros.push(0)?;
        zeros.push(0)?;
    }
    Ok(zeros)
}

impl Tracing {
    /// A netlist before the first line, which stands for a design.
    pub fn new(alloc: Global, checked: &Checked, netlist: Netlist) -> Result<Tracing, AllocError>
        requires stands { StandsForDesign (levels_in checked.now) (tree_in checked.now) netlist }
        ensures after { IfOk result (IsAfter (levels_in checked.now) (tree_in checked.now) netlist []) }
        ensures least { IfOk result (λ s. (other : ℕ) → HoldsCycle (levels_in checked.now) (tree_in checked.now) other → s.room ≤ other) }
    {
        let Some(room) = cycle_room(checked) else {
            return Err(AllocError);
        };
        let fields = design_fields(alloc, checked)?;
        let numbers = zeros(alloc, fields.as_slice())?;
        let (runner, wires) = planned(alloc, checked, netlist)?;
        Ok(Tracing {
            runner,
            wires,
            fields,
            room,
            numbers,
        })
    }

    /// The fields of each line.
    pub fn fields(&self) -> &Fields
        ensures { result.now ≡ self.now.fields }
    {
        &self.fields
    }

    /// For how many bytes a buffer is enough that takes the lines of any cycle: `new` makes it that of `cycle_room`.
    pub fn room(&self) -> usize
        ensures { result ≡ self.now.room }
    {
        self.room
    }

    /// Steps on a line and appends the lines of the check sites that the cycle refuses, for which there is room. It takes no
    /// memory.
    pub fn lines_into(&mut self, out: &mut RowBuf, checked: &Checked, cycle: u64, line: &Inputs)
        requires planned { IsPlanned (levels_in checked.now) (tree_in checked.now) self.old }
        requires line { LineFits (levels_in checked.now) self.old.fields line.now }
        requires room { length out.old.bytes + self.old.room ≤ out.old.room }
        ensures after { (n : Net) (lines : List (List Given)) → IsAfter (levels_in checked.now) (tree_in checked.now) n lines self.old
            → IsAfter (levels_in checked.now) (tree_in checked.now) n (lines ++ line.now ∷ []) self.new }
        ensures lines { (n : Net) (lines : List (List Given)) → IsAfter (levels_in checked.now) (tree_in checked.now) n lines self.old
            → HasLinesMore (levels_in checked.now) (tree_in checked.now) n (lines ++ line.now ∷ []) cycle out.old.bytes out.new.bytes }
        ensures more { HasMore self.old.room out.old.bytes out.new.bytes }
        ensures fields { self.new.fields ≡ self.old.fields }
        ensures same_room { self.new.room ≡ self.old.room }
        ensures memory { out.old.room ≤ out.new.room }
    {
        take_numbers(checked.lattice(), line.values(), &mut self.numbers);
        self.runner.step(&self.numbers);
        refused_into(out, &self.runner, checked, &self.wires, cycle);
    }

    /// The lines of the cycles add up to the trace of the design on the whole stimulus.
    pub fn lines_add_up(&self, checked: &Checked)
        requires { IsPlanned (levels_in checked.now) (tree_in checked.now) self.now }
        ensures { LinesAddUp (levels_in checked.now) (tree_in checked.now) self.now.runner.net }
    {
        known(checked);
        let netlist = self.runner.netlist();
        netlist.rules();
        one_run(netlist);
        stimulus_fits();
    }
}
