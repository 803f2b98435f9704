//! Systems of two parts p and q, linked by the texts of their files. A wire leads from the register of p, which takes its
//! input and 1, to the input of q, whose register takes it.

ghost use Rattle.std.specs.Prelude.{◌≡◌, ◌∷◌, [], true, IfSome};
ghost use Rattle.sap_check.specs.Checked.{levels_in, tree_in};
ghost use Rattle.sap_linked.specs.Designs.{IsNetOfDesign};
ghost use Rattle.sap_net.specs.Runs.{InputsFit};

use crate::given::two;
use sap_check::Checked;
use sap_check::check::check;
use sap_compile::design_netlist;
use sap_cycle::runner::Runner;
use sap_lattice::lattice::Lattice;
use sap_linker::Linker;
use sap_net::netlist::Netlist;
use sap_net::parts::Input;
use sap_parse::parse;
use sap_system::{LinkCode, LinkFault, SystemFile, read_system};
use std::alloc::Global;

/// The design of p: its register takes its input and 1.
const ADDS: &[u8] = b"input a : 8; reg x : 8 dynamic; state S enforced low { x := a + 1; goto S; }";

/// A design and its netlist.
#[derive(Drop)]
struct Part {
    checked: Checked,
    netlist: Netlist,
}

fn part_of(alloc: Global, lattice: &Lattice, text: &[u8]) -> Option<Part>
    ensures levels { IfSome result (λ p. levels_in p.checked ≡ lattice.now) }
    ensures net { IfSome result (λ p. IsNetOfDesign (levels_in p.checked) (tree_in p.checked) p.netlist) }
{
    let Ok(design) = parse(alloc, text) else {
        return None;
    };
    let Ok(checked) = check(alloc, design, lattice) else {
        return None;
    };
    let Ok(netlist) = design_netlist(alloc, &checked) else {
        return None;
    };
    netlist.rules();
    Some(Part { checked, netlist })
}

/// What a system of two parts comes to.
fn linked(
    alloc: Global,
    lattice: &Lattice,
    system: SystemFile,
    p: &Part,
    q: &Part,
) -> Option<Result<Netlist, LinkFault>>
    requires p { levels_in p.now.checked ≡ lattice.now }
    requires q { levels_in q.now.checked ≡ lattice.now }
    requires p_net { IsNetOfDesign (levels_in p.now.checked) (tree_in p.now.checked) p.now.netlist }
    requires q_net { IsNetOfDesign (levels_in q.now.checked) (tree_in q.now.checked) q.now.netlist }
{
    if system.parts().len() != 2 {
        return None;
    }
    let Ok(mut linker) = Linker::new(alloc, system, lattice) else {
        return None;
    };
    let Ok(()) = linker.add(&p.checked, &p.netlist) else {
        return None;
    };
    let Ok(()) = linker.add(&q.checked, &q.netlist) else {
        return None;
    };
    match linker.finish(alloc) {
        Ok(netlist) => Some(Ok(netlist)),
        Err((_, fault)) => Some(Err(fault)),
    }
}

/// What a file comes to that lists p and q, where q has this design.
fn linked_by(alloc: Global, file: &str, q: &[u8]) -> Option<Result<Netlist, LinkFault>> {
    let system = read_system(alloc, file.as_bytes()).ok()?;
    let lattice = two(alloc)?;
    let first = part_of(alloc, &lattice, ADDS)?;
    let second = part_of(alloc, &lattice, q)?;
    linked(alloc, &lattice, system, &first, &second)
}

/// The input and the register of q are narrower than those of p.
const NARROW: &[u8] = b"input b : 4; reg y : 4 dynamic; state S enforced low { y := b; goto S; }";

fn is_refused(alloc: Global, file: &str, code: LinkCode, wire: usize) -> bool {
    match linked_by(alloc, file, NARROW) {
        Some(Err(LinkFault::Rule(told, at))) => told == code && at == wire,
        _ => false,
    }
}

const REFUSED: [(&str, LinkCode, usize); 6] = [
    (
        "parts = [['p', 'p.sap'], ['q', 'q.sap']]\nwires = [['p.a', 'q.b', 'middle']]",
        LinkCode::K5,
        1,
    ),
    (
        "parts = [['p', 'p.sap'], ['q', 'q.sap']]\nwires = [['q.y', 'q.b'], ['q.y', 'p.x']]",
        LinkCode::K6,
        2,
    ),
    (
        "parts = [['p', 'p.sap'], ['q', 'q.sap']]\nwires = [['q.y', 'q.b'], ['p.x', 'q.b']]",
        LinkCode::K7,
        2,
    ),
    (
        "parts = [['p', 'p.sap'], ['q', 'q.sap']]\nwires = [['p.x', 'q.b', 'middle']]",
        LinkCode::K8,
        1,
    ),
    (
        "parts = [['p', 'p.sap'], ['q', 'q.sap']]\nwires = [['p.x', 'p.a', 'middle']]",
        LinkCode::K9,
        1,
    ),
    (
        "parts = [['p', 'p.sap'], ['q', 'q.sap']]\nwires = [['q.y', 'q.b', 'middle'], ['p.a', 'p.a']]",
        LinkCode::K9,
        1,
    ),
];

#[test]
fn the_first_broken_rule_is_told(rt: HostRuntime) {
    for (file, code, wire) in REFUSED {
        assert!(rt; is_refused(rt.alloc(), file, code, wire), "{file}");
    }
}

const COPIES: &[u8] = b"input b : 8; reg y : 8 dynamic; state S enforced low { y := b; goto S; }";

/// Whether the inputs are a value and a tag that have room for these.
fn are_inputs_for(inputs: &[Input], value: u64, tag: u64) -> bool
    ensures { result ≡ true → InputsFit inputs.now (value ∷ tag ∷ []) }
{
    match inputs {
        [first, second] => first.width == 8 && second.width == 1 && value < 256 && tag < 2,
        _ => false,
    }
}

/// The number and the tag that p's input gets, and what the registers of p and q show then, with their tags.
#[derive(Drop)]
struct Row {
    given: (u64, u64),
    p: (u64, u64),
    q: (u64, u64),
}

fn shows(runner: &Runner, value: &str, tag: &str, wanted: (u64, u64)) -> bool {
    runner.value(value) == Some(wanted.0) && runner.value(tag) == Some(wanted.1)
}

fn runs_as_told(alloc: Global, netlist: Netlist, rows: &[Row]) -> bool {
    let Ok(mut runner) = Runner::load(alloc, netlist) else {
        return false;
    };
    for row in rows {
        let (value, tag) = row.given;
        if !are_inputs_for(runner.netlist().inputs(), value, tag) {
            return false;
        }
        runner.step(&[value, tag]);
        if !shows(&runner, "v_p_x", "t_p_x", row.p) || !shows(&runner, "v_q_y", "t_q_y", row.q) {
            return false;
        }
    }
    true
}

/// A file, and the rows of what it links. p gets 5 at high, 1 at low and 0 at low, and q what p's register had before the
/// edge.
#[derive(Drop)]
struct Run {
    file: &'static str,
    rows: [Row; 3],
}

static RUNS: [Run; 3] = [
    // a wire carries the number and its level
    Run {
        file: "parts = [['p', 'p.sap'], ['q', 'q.sap']]\nwires = [['p.x', 'q.b']]",
        rows: [
            Row {
                given: (5, 1),
                p: (6, 1),
                q: (0, 0),
            },
            Row {
                given: (1, 0),
                p: (2, 0),
                q: (6, 1),
            },
            Row {
                given: (0, 0),
                p: (1, 0),
                q: (2, 0),
            },
        ],
    },

    // through low, 6 at high is 0 at low
    Run {
        file: "parts = [['p', 'p.sap'], ['q', 'q.sap']]\nwires = [['p.x', 'q.b', 'low']]",
        rows: [
            Row {
                given: (5, 1),
                p: (6, 1),
                q: (0, 0),
            },
            Row {
                given: (1, 0),
                p: (2, 0),
                q: (0, 0),
            },
            Row {
                given: (0, 0),
                p: (1, 0),
                q: (2, 0),
            },
        ],
    },

    // through high, each number comes, at high
    Run {
        file: "parts = [['p', 'p.sap'], ['q', 'q.sap']]\nwires = [['p.x', 'q.b', 'high']]",
        rows: [
            Row {
                given: (5, 1),
                p: (6, 1),
                q: (0, 1),
            },
            Row {
                given: (1, 0),
                p: (2, 0),
                q: (6, 1),
            },
            Row {
                given: (0, 0),
                p: (1, 0),
                q: (2, 1),
            },
        ],
    },
];

fn is_run_as_told(alloc: Global, run: &Run) -> bool {
    match linked_by(alloc, run.file, COPIES) {
        Some(Ok(netlist)) => runs_as_told(alloc, netlist, &run.rows),
        _ => false,
    }
}

#[test]
fn a_wire_carries_what_stood_before_the_edge_up_to_its_level(rt: HostRuntime) {
    let alloc = rt.alloc();
    for (place, run) in RUNS.iter().enumerate() {
        assert!(rt; is_run_as_told(alloc, run), "run {place}");
    }
}
