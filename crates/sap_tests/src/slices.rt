//! The time-sliced machine: its design, and what two users do by the instruction table.

use crate::given::DIAMOND;
use sap_check::check::check;
use sap_cpu::assemble::assemble;
use sap_cpu::cpu::Cpu;
use sap_cpu::machine::machine;
use sap_cpu::words::Words;
use sap_latfile::read_lattice;
use sap_machine::user::User;
use sap_parse::parse;
use sap_show::show;
use std::alloc::{AllocError, Global};

/// The design as the rules write it, which isn't its canonical text.
const AS_WRITTEN: &[u8] = b"input wa : 12; input wb : 12;
reg pc : 4 enforced low = 1; reg acc : 8 enforced low; reg ir : 12 enforced low;
reg cnt : 3 enforced low; reg who : 1 enforced low = 1; reg n : 4 enforced low;
reg apc : 4 enforced a; reg aacc : 8 enforced a; reg bpc : 4 enforced b; reg bacc : 8 enforced b;
mem pa : 12[16] enforced a; mem pb : 12[16] enforced b;
mem da : 8[16] enforced a; mem db : 8[16] enforced b;
state Boot enforced low {
  pa[n] := wa; pb[n] := wb; n := n + 1;
  if (n == 0) { goto Kernel; } else { goto Boot; }
}
state Kernel enforced low {
  if (who == 0) { apc := pc - 1; aacc := acc; } else { bpc := pc - 1; bacc := acc; }
  setTag(pc, low); setTag(acc, low); setTag(ir, low); who := ~who;
  if (who == 0) { setTag(pc, a); setTag(acc, a); setTag(ir, a); setTag(User, a); pc := apc; acc := aacc; }
  else { setTag(pc, b); setTag(acc, b); setTag(ir, b); setTag(User, b); pc := bpc; acc := bacc; }
  cnt := 4; goto Run;
}
state Run enforced low {
  if (cnt == 0) { goto Kernel; } else { cnt := cnt - 1; fall; }
  state User enforced low {
    if (ir[11:8] == 1) { acc := ir[7:0]; }
    if (ir[11:8] == 2) { if (who == 0) { acc := da[ir[3:0]]; } else { acc := db[ir[3:0]]; } }
    if (ir[11:8] == 3) { if (who == 0) { da[ir[3:0]] := acc; } else { db[ir[3:0]] := acc; } }
    if (ir[11:8] == 4) { if (who == 0) { acc := acc + da[ir[3:0]]; } else { acc := acc + db[ir[3:0]]; } }
    if (ir[11:8] == 5) { if (who == 0) { acc := acc - da[ir[3:0]]; } else { acc := acc - db[ir[3:0]]; } }
    if (ir[11:8] == 6) { pc := ir[3:0]; }
    if (ir[11:8] == 7) { if (acc == 0) { pc := ir[3:0]; } }
    if (ir[11:8] == 8) { pc := pc - 1; }
    if (who == 0) { ir := pa[pc]; } else { ir := pb[pc]; }
    pc := pc + 1; goto User;
  }
}
";

fn is_as_written(alloc: Global) -> Result<bool, AllocError> {
    let Ok(written) = parse(alloc, AS_WRITTEN) else {
        return Ok(false);
    };
    let design = machine(alloc)?;
    Ok(show(alloc, &design)?.as_slice() == show(alloc, &written)?.as_slice())
}

#[test]
fn the_machine_is_the_design_of_the_rules(rt: HostRuntime) {
    assert!(rt; matches!(is_as_written(rt.alloc()), Ok(true)));
}

// There are 2 inputs, 10 registers, 4 memories and 4 states. All but the inputs is enforced, so each write, `setTag`, `goto`
// and `fall` is a site: 5 in Boot, 22 in Kernel, 3 in Run and 16 in User. The points are 18 times `if` and the `fall`.
fn has_its_counts(alloc: Global) -> Result<bool, AllocError> {
    let design = machine(alloc)?;
    let Ok(lattice) = read_lattice(alloc, DIAMOND) else {
        return Ok(false);
    };
    let Ok(checked) = check(alloc, design, &lattice) else {
        return Ok(false);
    };
    Ok(checked.entity_count() == 20 && checked.site_count() == 46 && checked.point_count() == 19)
}

#[test]
fn the_machine_has_its_entities_sites_and_points(rt: HostRuntime) {
    assert!(rt; matches!(has_its_counts(rt.alloc()), Ok(true)));
}

fn shows(cpu: &Cpu, user: User, pc: u64, acc: u64) -> bool {
    cpu.pc(user) == pc && cpu.acc(user) == acc
}

// A word is 256 times the instruction and its number: `ldi` is 1, `st` 3, `add` 4 and `halt` 8.
const WORDS_OF_A: [u16; 16] = [261, 769, 1025, 2048, 0, 0, 0, 0, 0, 0, 0, 0, 0, 0, 0, 0];

// A slice is three instructions. In the first a does `ldi 5`, `st 1` and `add 1`; in the second b does `ldi 7`, and stays at
// its `halt`; in the third a stays at its own.
fn slices_as_told(a: &Words, b: &Words) -> bool {
    let mut cpu = Cpu::new(a, b);
    let begins = shows(&cpu, User::A, 0, 0) && shows(&cpu, User::B, 0, 0);
    cpu.slice();
    let first = shows(&cpu, User::A, 3, 10) && shows(&cpu, User::B, 0, 0);
    cpu.slice();
    let second = shows(&cpu, User::A, 3, 10) && shows(&cpu, User::B, 1, 7);
    cpu.slice();
    let third = shows(&cpu, User::A, 3, 10) && shows(&cpu, User::B, 1, 7);
    let cells = cpu.cell(User::A, 1) == 5 && cpu.cell(User::A, 0) == 0 && cpu.cell(User::B, 1) == 0;
    begins && first && second && third && cells
}

#[test]
fn two_users_do_three_instructions_a_slice(rt: HostRuntime) {
    let (Ok(a), Ok(b)) = (
        assemble(b"ldi 5\nst 1\nadd 1\nhalt\n"),
        assemble(b"ldi 7\nhalt\n"),
    ) else {
        assert!(rt; false);
        return;
    };
    assert!(rt; a.as_array().as_slice() == WORDS_OF_A.as_slice());
    assert!(rt; slices_as_told(&a, &b));
}
