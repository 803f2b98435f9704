//! A counter that is written part by part.

ghost use Rattle.std.specs.Prelude.{◌≡◌, ◌∷◌, [], true};
ghost use Rattle.sap_net.specs.Runs.{InputsFit};

use sap_build::counter::counter;
use sap_cycle::runner::Runner;
use sap_net::parts::Input;
use std::alloc::Global;

/// Whether the inputs are one that has room for this number.
fn is_input_for(inputs: &[Input], number: u64) -> bool
    ensures { result ≡ true → InputsFit inputs.now (number ∷ []) }
{
    match inputs {
        [input] => input.width == 8 && number < 256,
        _ => false,
    }
}

/// What is added in a cycle, the sum that comes of it modulo 256, and the cells after it.
#[derive(Drop)]
struct Cycle {
    step: u64,
    sum: u64,
    cells: [u64; 4],
}

fn holds(runner: &Runner, cells: &[u64; 4]) -> bool {
    runner.cell("counts", 0) == Some(cells[0])
        && runner.cell("counts", 1) == Some(cells[1])
        && runner.cell("counts", 2) == Some(cells[2])
        && runner.cell("counts", 3) == Some(cells[3])
}

fn counts_as_told(alloc: Global, cycles: &[Cycle]) -> bool {
    let Ok(netlist) = counter(alloc) else {
        return false;
    };
    let Ok(mut runner) = Runner::load(alloc, netlist) else {
        return false;
    };
    for cycle in cycles {
        if !is_input_for(runner.netlist().inputs(), cycle.step) {
            return false;
        }
        runner.step(&[cycle.step]);
        if runner.value("out") != Some(cycle.sum)
            || runner.value("count") != Some(cycle.sum)
            || !holds(&runner, &cycle.cells)
        {
            return false;
        }
    }
    true
}

// The cell of a sum is that of its remainder by four: 5 is in cell 1, 255 in 3, 261 - 256 = 5 in 1 and 8 in 0.
#[test]
fn a_counter_keeps_its_last_sum_of_each_remainder(rt: HostRuntime) {
    let cycles = [
        Cycle {
            step: 5,
            sum: 5,
            cells: [0, 5, 0, 0],
        },
        Cycle {
            step: 250,
            sum: 255,
            cells: [0, 5, 0, 255],
        },
        Cycle {
            step: 6,
            sum: 5,
            cells: [0, 5, 0, 255],
        },
        Cycle {
            step: 3,
            sum: 8,
            cells: [8, 5, 0, 255],
        },
    ];
    assert!(rt; counts_as_told(rt.alloc(), &cycles));
}
