//! Two machines of one design, side by side.

ghost use Rattle.std.specs.Prelude.{◌≡◌};
ghost use Rattle.sap_check.specs.Checked.{tree_in};
ghost use Rattle.sap_hang.specs.Hang.{IsHangTable};
ghost use Rattle.sap_sem.specs.Machine.{program_of};

use crate::given::TWO;
use sap_check::Checked;
use sap_compile::compile;
use sap_hang::HangTable;
use sap_sem::machine::Machine;
use sap_sem::pair::step_pair;
use sap_sim::read_stimulus;
use sap_stream::inputs::Inputs;
use std::alloc::{AllocError, Global};

const BRANCHES: &[u8] =
    b"input a : 8; reg x : 8 dynamic; state S dynamic { x := 0; if (a == 1) { goto T; } else { goto S; } } state T dynamic { x := 1; goto T; }";

/// What a machine is to show: of x its number and whether it is at high, whether S and T are, and which state is current.
#[derive(Drop)]
struct Wanted {
    number: u64,
    is_high: bool,
    is_high_in_s: bool,
    is_high_in_t: bool,
    current: u32,
}

fn shows(machine: &Machine, checked: &Checked, wanted: &Wanted) -> bool {
    let names = checked.names();
    let (Some(x), Some(s), Some(t)) = (names.find("x"), names.find("S"), names.find("T")) else {
        return false;
    };
    if !machine.is_register(x) || !machine.is_state(s) || !machine.is_state(t) {
        return false;
    }
    let high = checked.lattice().top();
    let (number, level) = machine.value(x);
    number == wanted.number
        && (level == high) == wanted.is_high
        && (machine.state_tag(s) == high) == wanted.is_high_in_s
        && (machine.state_tag(t) == high) == wanted.is_high_in_t
        && machine.child(None) == wanted.current
}

/// Steps both machines, where the inputs fit them.
fn step_both(first: &mut Machine, second: &mut Machine, one: &Inputs, other: &Inputs) -> bool
    requires { program_of first.old ≡ program_of second.old }
    ensures { program_of first.new ≡ program_of second.new }
{
    let fit = first.fits(one) && second.fits(other);
    if fit {
        step_pair(first, second, one, other);
    }
    fit
}

// Cycle 1 reads high in the test: S, whose gotos hang on it, rises to high, and the state that is entered gets high; x was
// set before. In cycle 2 the current state is at high: falling into it raises S, T and x, and its body runs at high.
fn both_step_as_told(alloc: Global, checked: &Checked, hang: &HangTable) -> Result<bool, AllocError>
    requires { IsHangTable (tree_in checked.now) hang.now }
{
    let mut first = Machine::new(alloc, checked, hang)?;
    let mut second = Machine::new(alloc, checked, hang)?;
    let ones = read_stimulus(alloc, checked, b"1@high\n0@low\n")?;
    let others = read_stimulus(alloc, checked, b"0@high\n0@low\n")?;
    let ones = ones.stream.spans();
    let others = others.stream.spans();
    if ones.len() != 2 || others.len() != 2 {
        return Ok(false);
    }
    let in_t = Wanted {
        number: 0,
        is_high: false,
        is_high_in_s: true,
        is_high_in_t: true,
        current: 1,
    };
    let in_s = Wanted {
        number: 0,
        is_high: false,
        is_high_in_s: true,
        is_high_in_t: false,
        current: 0,
    };
    let entered = step_both(
        &mut first,
        &mut second,
        ones[0].inputs(),
        others[0].inputs(),
    ) && shows(&first, checked, &in_t)
        && shows(&second, checked, &in_s);
    let still_in_t = Wanted {
        number: 1,
        is_high: true,
        is_high_in_s: true,
        is_high_in_t: true,
        current: 1,
    };
    let still_in_s = Wanted {
        number: 0,
        is_high: true,
        is_high_in_s: true,
        is_high_in_t: true,
        current: 0,
    };
    let stayed = step_both(
        &mut first,
        &mut second,
        ones[1].inputs(),
        others[1].inputs(),
    ) && shows(&first, checked, &still_in_t)
        && shows(&second, checked, &still_in_s);
    Ok(entered && stayed)
}

fn compiles_and_steps(alloc: Global) -> bool {
    match compile(alloc, TWO, BRANCHES) {
        Ok(compiled) => {
            matches!(
                both_step_as_told(alloc, compiled.checked(), compiled.hang()),
                Ok(true)
            )
        }
        Err(_) => false,
    }
}

#[test]
fn two_machines_step_as_told(rt: HostRuntime) {
    assert!(rt; compiles_and_steps(rt.alloc()));
}
