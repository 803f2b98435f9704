//! The worked examples of the rules, run by a machine: in each cycle a row of all registers, and behind it a line for each
//! refused site.

ghost use Rattle.sap_check.specs.Checked.{tree_in};
ghost use Rattle.sap_hang.specs.Hang.{IsHangTable};

use crate::given::{DIAMOND, TWO};
use sap_check::Checked;
use sap_compile::compile;
use sap_hang::HangTable;
use sap_sem::machine::Machine;
use sap_sim::read_stimulus;
use sap_stream::inputs::Inputs;
use sap_text::digits::push_number;
use std::alloc::{AllocError, Global};

#[derive(Drop)]
struct Example {
    lattice: &'static [u8],
    design: &'static [u8],
    stimulus: &'static [u8],
    told: &'static [u8],
}

fn push_register(
    out: &mut Vec<u8>,
    checked: &Checked,
    machine: &Machine,
    entity: u32,
) -> Result<(), AllocError> {
    if entity < checked.entity_count() && machine.is_register(entity) {
        let (value, level) = machine.value(entity);
        out.extend_from_slice(b" ")?;
        out.extend_from_slice(checked.entity(entity).as_bytes())?;
        out.extend_from_slice(b"=")?;
        push_number(out, value)?;
        out.extend_from_slice(b"@")?;
        out.extend_from_slice(checked.lattice().name(level).as_bytes())?;
    }
    Ok(())
}

fn push_row(out: &mut Vec<u8>, checked: &Checked, machine: &Machine) -> Result<(), AllocError> {
    out.extend_from_slice(b"row")?;
    for entity in 0..checked.entity_count() {
        push_register(out, checked, machine, entity)?;
    }
    out.extend_from_slice(b"\n")
}

fn push_refusals(
    out: &mut Vec<u8>,
    checked: &Checked,
    machine: &Machine,
) -> Result<(), AllocError> {
    for k in 0..machine.site_count() {
        if let Some(level) = machine.refused(k + 1) {
            out.extend_from_slice(b"site ")?;
            push_number(out, u64::from(k + 1))?;
            out.extend_from_slice(b" at ")?;
            out.extend_from_slice(checked.lattice().name(level).as_bytes())?;
            out.extend_from_slice(b"\n")?;
        }
    }
    Ok(())
}

/// Steps as often as a line says, and tells each cycle. False where the inputs don't fit.
fn push_cycles(
    out: &mut Vec<u8>,
    checked: &Checked,
    machine: &mut Machine,
    inputs: &Inputs,
    count: u32,
) -> Result<bool, AllocError> {
    for _ in 0..count {
        if !machine.fits(inputs) {
            return Ok(false);
        }
        machine.step(inputs);
        push_row(out, checked, machine)?;
        push_refusals(out, checked, machine)?;
    }
    Ok(true)
}

fn runs_as_told(
    alloc: Global,
    checked: &Checked,
    hang: &HangTable,
    stimulus: &[u8],
    told: &[u8],
) -> Result<bool, AllocError>
    requires { IsHangTable (tree_in checked.now) hang.now }
{
    let mut machine = Machine::new(alloc, checked, hang)?;
    if stimulus.len() > 1000 {
        return Ok(false);
    }
    let parsed = read_stimulus(alloc, checked, stimulus)?;
    let mut out = Vec::new(alloc);
    for span in parsed.stream.spans() {
        if !push_cycles(&mut out, checked, &mut machine, span.inputs(), span.count())? {
            return Ok(false);
        }
    }
    Ok(out.as_slice() == told && parsed.fault.is_none())
}

fn is_as_told(alloc: Global, example: &Example) -> bool {
    match compile(alloc, example.lattice, example.design) {
        Ok(compiled) => {
            matches!(
                runs_as_told(
                    alloc,
                    compiled.checked(),
                    compiled.hang(),
                    example.stimulus,
                    example.told
                ),
                Ok(true)
            )
        }
        Err(_) => false,
    }
}

static EXAMPLES: [Example; 17] = [
    // values and writes
    Example {
        lattice: TWO,
        design: b"input a : 8; reg x : 8 dynamic; state S enforced low { x := a + 1; goto S; }",
        stimulus: b"5@low\n255@high\n",
        told: b"row x=6@low\nrow x=0@high\n",
    },
    Example {
        lattice: TWO,
        design: b"input a : 8; reg y : 8 enforced low = 7; state S enforced low { y := a; goto S; }",
        stimulus: b"5@high\n5@low\n",
        told: b"row y=7@low\nsite 1 at low\nrow y=5@low\n",
    },
    Example {
        lattice: TWO,
        design: b"reg x : 64 dynamic = 18446744073709551615; state S enforced low { x := x + 1; goto S; }",
        stimulus: b"\n",
        told: b"row x=0@low\n",
    },
    Example {
        lattice: TWO,
        design: b"input a : 8; reg x : 8 dynamic; state S enforced low { x := a >> 9; goto S; }",
        stimulus: b"255@low\n",
        told: b"row x=0@low\n",
    },

    // handlers and branches
    Example {
        lattice: TWO,
        design: b"input a : 8; reg y : 8 enforced low = 7; state S enforced low { y := a otherwise { y := 9; } goto S; }",
        stimulus: b"5@high\n",
        told: b"row y=9@low\nsite 1 at low\n",
    },
    Example {
        lattice: TWO,
        design: b"input a : 8; reg x : 8 dynamic; state S enforced low { if (a == 1) { x := 1; } goto S; }",
        stimulus: b"0@high\n",
        told: b"row x=0@high\n",
    },
    Example {
        lattice: TWO,
        design: b"sapper 2; input a : 8; reg y : 8 enforced low; reg x : 8 dynamic; state S enforced low { y := a then { x := 1; goto T; } otherwise { x := 2; goto S; } } state T enforced low { x := 3; goto S; }",
        stimulus: b"5@high\n5@low\n5@low\n",
        told: b"row y=0@low x=2@low\nsite 1 at low\nrow y=5@low x=1@low\nrow y=5@low x=3@low\n",
    },
    Example {
        lattice: TWO,
        design: b"sapper 2; input a : 2; reg x : 8 dynamic; state S enforced low { case (a) { 0, 2: { x := 7; } else { x := 9; } } goto S; }",
        stimulus: b"2@high\n1@low\n",
        told: b"row x=7@high\nrow x=9@low\n",
    },

    // retagging
    Example {
        lattice: TWO,
        design: b"input a : 8; reg z : 8 enforced high = 3; state S enforced low { z := a; setTag(z, low); goto S; }",
        stimulus: b"5@high\n6@high\n",
        told: b"row z=0@low\nrow z=0@low\nsite 1 at low\n",
    },
    Example {
        lattice: TWO,
        design: b"input a : 8; reg z : 8 enforced low = 3; state S enforced low { setTag(z, level(a)); goto S; }",
        stimulus: b"7@low\n0@low\n1@high\n",
        told: b"row z=3@high\nrow z=0@low\nrow z=0@low\nsite 1 at low\n",
    },
    Example {
        lattice: DIAMOND,
        design: b"reg q : 8 enforced high under a = 4; state S enforced low { setTag(q, b); goto S; }",
        stimulus: b"\n",
        told: b"row q=4@high\nsite 1 at a\n",
    },

    // transfers
    Example {
        lattice: TWO,
        design: b"input a : 8; reg x : 8 dynamic; state S enforced low { x := 1; if (a == 1) { goto T; } else { goto S; } } state T enforced high { x := 2; goto T; }",
        stimulus: b"1@high\n0@low\n",
        told: b"row x=1@low\nsite 1 at high\nrow x=1@low\n",
    },
    Example {
        lattice: TWO,
        design: b"input a : 8; reg x : 8 dynamic; state S dynamic { x := 0; if (a == 1) { goto T; } else { goto S; } } state T dynamic { x := 1; goto T; }",
        stimulus: b"1@high\n0@low\n",
        told: b"row x=0@low\nrow x=1@high\n",
    },
    Example {
        lattice: TWO,
        design: b"input a : 8; reg x : 8 dynamic; state P enforced low { if (a == 1) { fall; } else { fall; } state C enforced low { x := 1; goto C; } }",
        stimulus: b"1@high\n1@low\n",
        told: b"row x=0@high\nsite 1 at high\nrow x=1@low\n",
    },
    Example {
        lattice: TWO,
        design: b"input a : 8; reg x : 8 dynamic; state P enforced low { if (a == 1) { goto Q; } else { fall; } state C1 enforced low { x := 1; goto C2; } state C2 enforced low { x := 2; goto C2; } } state Q enforced low { x := 9; goto P; }",
        stimulus: b"0@low *2\n1@low\n0@low *2\n",
        told: b"row x=1@low\nrow x=2@low\nrow x=2@low\nrow x=9@low\nrow x=1@low\n",
    },

    // memories
    Example {
        lattice: TWO,
        design: b"input a : 2; input b : 2; mem m : 8[4] dynamic; reg x : 8 dynamic; state S enforced low { m[a] := 5; x := m[b]; goto S; }",
        stimulus: b"1@high 1@low\n1@high 1@low\n",
        told: b"row x=0@low\nrow x=5@high\n",
    },
    Example {
        lattice: TWO,
        design: b"input a : 2; mem k : 8[4] enforced low; reg y : 8 enforced low; state S enforced low { k[a] := 1 otherwise { y := 9; } goto S; }",
        stimulus: b"3@high\n",
        told: b"row y=0@low\nsite 1 at high\nsite 2 at high\n",
    },
];

#[test]
fn a_machine_runs_the_worked_examples_as_told(rt: HostRuntime) {
    let alloc = rt.alloc();
    for (place, example) in EXAMPLES.iter().enumerate() {
        assert!(rt; is_as_told(alloc, example), "example {place}");
    }
}
