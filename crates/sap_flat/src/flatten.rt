//! Whole programs.

ghost use Rattle.std.specs.Prelude.{◌≡◌, ◌<◌, ◌≤◌, ◌^◌, IfOk, OnOk};
ghost use Rattle.sap_ir.specs.Calcs.{commands_of};
ghost use Rattle.sap_ir.specs.Parts.{parts_source};
ghost use Rattle.sap_ir.specs.Program.{source_of};
ghost use Rattle.sap_ir.specs.Writes.{WritesOnce};
ghost use Rattle.sap_ir.specs.Plain.Program.{nested_of};
ghost use Rattle.sap_ir.specs.Plain.Writes.{PlainWritesOnce};
ghost use Rattle.sap_size.specs.Flat.{source_weight};
ghost use Rattle.sap_size.specs.Nested.{nested_weight};
ghost use Rattle.sap_flat.specs.Flat.{flat_states, flattened};
ghost use Rattle.sap_flat.specs.Once.{BodiesOnce};
ghost use Rattle.sap_flat.specs.Same.{Declares, RunsAlike};

use crate::copies;
use crate::gates::Gates;
use crate::groups::{mark, states};
use sap_ir::guarded::{Calc, GuardedCmd, GuardedParts};
use sap_ir::plain::program::Plain;
use sap_ir::plain::seats;
use sap_ir::program::Guarded;
use sap_text::name::copy_names;
use std::alloc::{AllocError, Global};

/// The commands of all states of a program, whose gates are the first.
fn all_commands(
    alloc: Global,
    program: &Plain,
    gates: &mut Gates,
) -> Result<Vec<GuardedCmd>, AllocError>
    requires { gates.old ≡ 0 }
    ensures commands { IfOk result (λ v. commands_of v.items ≡ (flat_states (nested_of program.now).states).commands) }
    ensures gates { OnOk result (gates.new ≡ (flat_states (nested_of program.now).states).next) }
{
    let group = program.states();
    let mut out = Vec::new(alloc);
    gates.add_all(group.len())?;
    let seat = seats::of_root(alloc)?;
    let always = Calc::Constant { width: 1, value: 1 };
    mark(alloc, &mut out, &always, &seat, group, 0)?;
    states(alloc, &mut out, gates, &seat, group, 0)?;
    Ok(out)
}

/// The parts of the flat program.
fn parts(alloc: Global, program: &Plain) -> Result<GuardedParts, AllocError>
    ensures source { IfOk result (λ q. parts_source q ≡ flattened (nested_of program.now)) }
    ensures count { OnOk result ((flat_states (nested_of program.now).states).next < 2 ^ 64) }
{
    let mut gates = Gates::new(alloc);
    let cmds = all_commands(alloc, program, &mut gates)?;
    let inputs = copies::variables(alloc, program.inputs())?;
    let own = copies::variables(alloc, program.wires())?;
    let wires = copies::joined(own, gates.into_wires())?;
    let registers = copies::variables(alloc, program.registers())?;
    let memories = copies::stores(alloc, program.memories())?;
    let ports = copy_names(alloc, program.ports())?;
    Ok(GuardedParts {
        inputs,
        wires,
        registers,
        memories,
        ports,
        cmds,
    })
}

/// The flat program of nested states, in which each body stands once.
pub fn flatten(alloc: Global, program: &Plain) -> Result<Guarded, AllocError>
    ensures declares { IfOk result (λ g. Declares (nested_of program.now) (source_of g)) }
    ensures same { IfOk result (λ g. RunsAlike (nested_of program.now) (source_of g)) }
    ensures once { IfOk result (λ g. PlainWritesOnce (nested_of program.now) → WritesOnce (source_of g)) }
    ensures bodies { IfOk result (λ g. BodiesOnce (nested_of program.now) (source_of g)) }
    ensures small { IfOk result (λ g. source_weight (source_of g) ≤ nested_weight (nested_of program.now)) }
{
    program.rules();
    let parts = parts(alloc, program)?;
    Ok(Guarded::new(parts))
}
