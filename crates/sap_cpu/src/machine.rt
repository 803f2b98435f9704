//! The design of the machine.

ghost use Rattle.std.specs.Prelude.{◌≡◌, IfOk};
ghost use Rattle.sap_lattice.specs.Diamond.{diamond};
ghost use Rattle.sap_tree.specs.Bare.{bare};
ghost use Rattle.sap_tree.specs.Designs.{design_of};
ghost use Rattle.sap_shape.specs.WellFormed.{WellFormed};
ghost use Rattle.sap_resolved.specs.Fill.{program_of};
ghost use Rattle.sap_machine.specs.Design.{machine_design};
ghost use Rattle.sap_machine.specs.Laws.{OthersDontCount, OthersWordsDontCount, RefusesTheWords, RunsTheTable, WordsDecide};
ghost use Rattle.sap_machine.specs.Machine.{machine};

use sap_lex::fault::ReadFault;
use sap_machine::{design_is_sound, machine_runs_the_table, users_are_apart};
use sap_parse::law::one_reading;
use sap_parse::parse;
use sap_tree::design::Design;
use std::alloc::{AllocError, Global};

/// The canonical text of the design.
pub const MACHINE_TEXT: &[u8] = b"input wa : 12;
input wb : 12;
reg pc : 4 enforced low = 1;
reg acc : 8 enforced low;
reg ir : 12 enforced low;
reg cnt : 3 enforced low;
reg who : 1 enforced low = 1;
reg n : 4 enforced low;
reg apc : 4 enforced a;
reg aacc : 8 enforced a;
reg bpc : 4 enforced b;
reg bacc : 8 enforced b;
mem pa : 12[16] enforced a;
mem pb : 12[16] enforced b;
mem da : 8[16] enforced a;
mem db : 8[16] enforced b;
state Boot enforced low {
  pa[n] := wa;
  pb[n] := wb;
  n := n + 1;
  if (n == 0) {
    goto Kernel;
  } else {
    goto Boot;
  }
}
state Kernel enforced low {
  if (who == 0) {
    apc := pc - 1;
    aacc := acc;
  } else {
    bpc := pc - 1;
    bacc := acc;
  }
  setTag(pc, low);
  setTag(acc, low);
  setTag(ir, low);
  who := ~who;
  if (who == 0) {
    setTag(pc, a);
    setTag(acc, a);
    setTag(ir, a);
    setTag(User, a);
    pc := apc;
    acc := aacc;
  } else {
    setTag(pc, b);
    setTag(acc, b);
    setTag(ir, b);
    setTag(User, b);
    pc := bpc;
    acc := bacc;
  }
  cnt := 4;
  goto Run;
}
state Run enforced low {
  if (cnt == 0) {
    goto Kernel;
  } else {
    cnt := cnt - 1;
    fall;
  }
  state User enforced low {
    if (ir[11:8] == 1) {
      acc := ir[7:0];
    }
    if (ir[11:8] == 2) {
      if (who == 0) {
        acc := da[ir[3:0]];
      } else {
        acc := db[ir[3:0]];
      }
    }
    if (ir[11:8] == 3) {
      if (who == 0) {
        da[ir[3:0]] := acc;
      } else {
        db[ir[3:0]] := acc;
      }
    }
    if (ir[11:8] == 4) {
      if (who == 0) {
        acc := acc + da[ir[3:0]];
      } else {
        acc := acc + db[ir[3:0]];
      }
    }
    if (ir[11:8] == 5) {
      if (who == 0) {
        acc := acc - da[ir[3:0]];
      } else {
        acc := acc - db[ir[3:0]];
      }
    }
    if (ir[11:8] == 6) {
      pc := ir[3:0];
    }
    if (ir[11:8] == 7) {
      if (acc == 0) {
        pc := ir[3:0];
      }
    }
    if (ir[11:8] == 8) {
      pc := pc - 1;
    }
    if (who == 0) {
      ir := pa[pc];
    } else {
      ir := pb[pc];
    }
    pc := pc + 1;
    goto User;
  }
}
";

/// The design of the machine, read from its text. In every run of it the kernel keeps of both users what the instruction table says
/// after each slice, the words that aren't at or below their user's level are refused, and neither user counts for the other.
pub fn machine(alloc: Global) -> Result<Design, AllocError>
    ensures design { IfOk result (λ design. bare (design_of design) ≡ bare machine_design) }
    ensures well_formed { IfOk result (λ design. WellFormed diamond (design_of design)) }
    ensures program { IfOk result (λ design. program_of diamond (design_of design) ≡ machine) }
    ensures runs { IfOk result (λ design. RunsTheTable (program_of diamond (design_of design))) }
    ensures refuses { IfOk result (λ design. RefusesTheWords (program_of diamond (design_of design))) }
    ensures words { IfOk result (λ design. WordsDecide (program_of diamond (design_of design))) }
    ensures agreeing { IfOk result (λ design. OthersDontCount (program_of diamond (design_of design))) }
    ensures differing { IfOk result (λ design. OthersWordsDontCount (program_of diamond (design_of design))) }
{
    design_is_sound();
    machine_runs_the_table();
    users_are_apart();
    one_reading();
    match parse(alloc, MACHINE_TEXT) {
        Ok(design) => Ok(design),
        Err(fault) => match fault {
            ReadFault::Memory => Err(AllocError),
            _ => unreachable!(),
        },
    }
}
