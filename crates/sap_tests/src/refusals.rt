//! What the last cycle of a compiled module refuses, and the line of a check site.

ghost use Rattle.std.specs.Prelude.{◌≡◌, ◌<◌, ◌^◌, List, OnOk, length};
ghost use Rattle.sap_check.specs.Checked.{levels_in, tree_in};
ghost use Rattle.sap_interface.specs.Designs.{StandsForDesign};
ghost use Rattle.sap_meaning.specs.Cycle.{Tagged as Given};
ghost use Rattle.sap_meaning.specs.State.{InputsFit};
ghost use Rattle.sap_resolved.specs.Worlds.{world_of};
ghost use Rattle.sap_trace.specs.Shows.{IsSteppedOn, StepsShowRefused};

use crate::given::TWO;
use sap_check::Checked;
use sap_compile::compile;
use sap_cycle::runner::Runner;
use sap_desk::RowBuf;
use sap_net::netlist::Netlist;
use sap_sim::read_stimulus;
use sap_stream::inputs::Inputs;
use sap_trace::{site_into, site_room, steps_show_refused, suppressed, take_numbers};
use std::alloc::{AllocError, Global};

// Site 1 writes y, which stays at low; site 2 is the goto.
const KEEPS_LOW: &[u8] =
    b"input a : 8; reg y : 8 enforced low = 7; state S enforced low { y := a; goto S; }";

/// Whether these are the lines of what a step on a line refuses, in a design of one input.
fn refuses(
    alloc: Global,
    runner: &mut Runner,
    checked: &Checked,
    cycle: u64,
    line: &Inputs,
    wanted: &[u8],
) -> Result<bool, AllocError>
    requires shows { StepsShowRefused (levels_in checked.now) (tree_in checked.now) runner.old.net }
    requires fits { InputsFit (world_of (levels_in checked.now) (tree_in checked.now)) line.now }
    requires stepped { (lines : List (List Given)) × IsSteppedOn (levels_in checked.now) (tree_in checked.now) runner.old.net lines runner.old }
    ensures netlist { OnOk result (runner.new.net ≡ runner.old.net) }
    ensures stepped { OnOk result ((lines : List (List Given)) × IsSteppedOn (levels_in checked.now) (tree_in checked.now) runner.new.net lines runner.new) }
{
    let values = line.values();
    if values.len() != 1 {
        return Ok(false);
    }
    let mut numbers = [0; 2];
    take_numbers(checked.lattice(), values, &mut numbers);
    runner.step(&numbers);
    let text = suppressed(alloc, runner, checked, cycle)?;
    Ok(text.as_slice() == wanted)
}

// 5 at high may not be written to y, which is at low: site 1 is refused at the level of y. 5 at low may.
fn tells_refusals(
    alloc: Global,
    checked: &Checked,
    netlist: Netlist,
    stimulus: &[u8],
) -> Result<bool, AllocError>
    requires stands { StandsForDesign (levels_in checked.now) (tree_in checked.now) netlist }
    requires short { length stimulus.now < 2 ^ 32 }
{
    steps_show_refused(checked, &netlist);
    let parsed = read_stimulus(alloc, checked, stimulus)?;
    let Ok(mut runner) = Runner::load(alloc, netlist) else {
        return Ok(false);
    };
    let lines = parsed.stream.spans();
    if lines.len() != 2 || lines[0].count() != 1 || lines[1].count() != 1 {
        return Ok(false);
    }
    let first = refuses(
        alloc,
        &mut runner,
        checked,
        1,
        lines[0].inputs(),
        b"cycle 1: site 1 write y at low\n",
    )?;
    let second = refuses(alloc, &mut runner, checked, 2, lines[1].inputs(), b"")?;
    Ok(first && second)
}

fn compiles_and_tells_refusals(alloc: Global) -> bool {
    let Ok(compiled) = compile(alloc, TWO, KEEPS_LOW) else {
        return false;
    };
    let (checked, netlist) = compiled.into_parts();
    matches!(
        tells_refusals(alloc, &checked, netlist, b"5@high\n5@low\n"),
        Ok(true)
    )
}

#[test]
fn a_runner_tells_what_its_last_cycle_refused(rt: HostRuntime) {
    assert!(rt; compiles_and_tells_refusals(rt.alloc()));
}

fn tells_a_site(alloc: Global) -> Result<bool, AllocError> {
    let Ok(compiled) = compile(alloc, TWO, KEEPS_LOW) else {
        return Ok(false);
    };
    let checked = compiled.checked();
    let Some(room) = site_room(checked) else {
        return Ok(false);
    };
    let mut line = RowBuf::new(alloc, room)?;
    if checked.site_count() == 0 {
        return Ok(false);
    }
    site_into(&mut line, checked, 1, 12, checked.lattice().top());
    Ok(line.bytes() == b"cycle 12: site 1 write y at high\n".as_slice())
}

#[test]
fn a_site_has_a_line(rt: HostRuntime) {
    assert!(rt; matches!(tells_a_site(rt.alloc()), Ok(true)));
}
