//! Whole designs.

ghost use Rattle.std.specs.Prelude.{◌≡◌, ◌<◌, ◌≤◌, ◌^◌, ◌++◌, IfOk, OnOk};
ghost use Rattle.sap_ir.specs.IsGuarded.{variable_names};
ghost use Rattle.sap_check.specs.Checked.{levels_in, tree_in};
ghost use Rattle.sap_ir.specs.Plain.Parts.{parts_nested};
ghost use Rattle.sap_ir.specs.Plain.Program.{nested_of};
ghost use Rattle.sap_ir.specs.Plain.Writes.{PlainWritesOnce};
ghost use Rattle.sap_program.specs.Design.{IsProgramOf};
ghost use Rattle.sap_program.specs.Views.{group_of};
ghost use Rattle.sap_size.specs.Items.{most_items};
ghost use Rattle.sap_size.specs.Nested.{nested_weight};
ghost use Rattle.sap_resolved.specs.Sized.Ranges.{RangedProgram};
ghost use Rattle.sap_tagged.specs.Law.{IsSound, PlainStandsForDesign};
ghost use Rattle.sap_tagged.specs.Plain.{first_wires, group_wires, inner_wires, plain_of, seat_registers, shown_registers, site_wires, tag_registers};
ghost use Rattle.sap_tagged.specs.States.{wires_group};
ghost use Rattle.sap_tags.specs.Starts.{PlainStartsAsDesign};
ghost use Rattle.sap_tags_terms.specs.Parts.{StatesFew};
ghost use Rattle.sap_tags_terms.specs.Code.{entities_in, named_in, tag_width};

use crate::states::top_states;
use sap_check::Checked;
use sap_ir::guarded::Var;
use sap_ir::plain::nested::PlainParts;
use sap_ir::plain::program::Plain;
use sap_net::parts::Name;
use sap_program::program::Program;
use sap_resolved::sized::widths_in_range;
use sap_tagged::plain_stands;
use sap_tagged::small::plain_small;
use sap_tags_terms::setting::Setting;
use sap_tags_variables::memories::add_memories;
use sap_tags_variables::registers::{
    add_inputs, add_seat_registers, add_shown_registers, add_tag_registers,
};
use sap_tags_variables::wires::{
    add_first_wires, add_inner_wires, add_site_wires, add_state_wires,
};
use sap_tree::whole::design_is_whole;
use std::alloc::{AllocError, Global};

/// The names of variables.
fn add_names(alloc: Global, names: &mut Vec<Name>, variables: &[Var]) -> Result<(), AllocError>
    ensures { OnOk result (names.new.items ≡ names.old.items ++ variable_names variables.now) }
{
    for variable in variables {
        names.push(variable.name.copy(alloc)?)?;
    }
    Ok(())
}

/// Adds the registers and the wires that are ports, whose names it gives.
fn add_shown(
    alloc: Global,
    setting: &Setting<'_>,
    registers: &mut Vec<Var>,
    wires: &mut Vec<Var>,
) -> Result<Vec<Name>, AllocError>
    requires { RangedProgram (named_in setting.now).program }
    ensures registers { OnOk result (registers.new.items ≡ registers.old.items ++ shown_registers (named_in setting.now) (tag_width setting.now)) }
    ensures wires { OnOk result (wires.new.items ≡ wires.old.items ++ site_wires (named_in setting.now) (tag_width setting.now) 1 setting.now.program.now.sites) }
    ensures ports { IfOk result (λ ports. ports.items ≡ variable_names registers.new.items ++ variable_names wires.new.items) }
{
    add_shown_registers(alloc, setting, registers)?;
    add_site_wires(setting, wires)?;
    let mut ports = Vec::new(alloc);
    add_names(alloc, &mut ports, registers.as_slice())?;
    add_names(alloc, &mut ports, wires.as_slice())?;
    Ok(ports)
}

/// Adds the other registers.
fn add_own_registers(
    alloc: Global,
    setting: &Setting<'_>,
    registers: &mut Vec<Var>,
) -> Result<(), AllocError>
    ensures { OnOk result (registers.new.items ≡ registers.old.items ++ (tag_registers (named_in setting.now) (tag_width setting.now) ++ seat_registers (named_in setting.now))) }
{
    add_tag_registers(alloc, setting, registers)?;
    add_seat_registers(alloc, setting, registers)
}

/// Adds the other wires.
fn add_own_wires(
    alloc: Global,
    setting: &Setting<'_>,
    wires: &mut Vec<Var>,
) -> Result<(), AllocError>
    requires ranged { RangedProgram (named_in setting.now).program }
    requires few { wires_group (group_of (entities_in setting.now) setting.now.program.now.states.items) < 2 ^ 32 }
    requires arms { StatesFew setting.now.program.now.states.items }
    ensures { let d = named_in setting.now in
        let tag = tag_width setting.now in
        OnOk result (wires.new.items ≡ wires.old.items ++ (first_wires d tag ++ (inner_wires d tag ++ group_wires d tag 0 (group_of (entities_in setting.now) setting.now.program.now.states.items)))) }
{
    add_first_wires(setting, wires)?;
    add_inner_wires(setting, wires)?;
    add_state_wires(alloc, setting, wires)
}

/// The parts of the plain program.
fn parts(alloc: Global, setting: &Setting<'_>) -> Result<PlainParts, AllocError>
    requires ranged { RangedProgram (named_in setting.now).program }
    requires few { wires_group (group_of (entities_in setting.now) setting.now.program.now.states.items) < 2 ^ 32 }
    requires arms { StatesFew setting.now.program.now.states.items }
    ensures { IfOk result (λ p. parts_nested p ≡ plain_of (named_in setting.now) (tag_width setting.now) setting.now.program.now.sites) }
{
    let states = top_states(alloc, setting)?;
    let mut registers = Vec::new(alloc);
    let mut wires = Vec::new(alloc);
    let ports = add_shown(alloc, setting, &mut registers, &mut wires)?;
    add_own_registers(alloc, setting, &mut registers)?;
    add_own_wires(alloc, setting, &mut wires)?;
    let mut inputs = Vec::new(alloc);
    add_inputs(alloc, setting, &mut inputs)?;
    let mut memories = Vec::new(alloc);
    add_memories(alloc, setting, &mut memories)?;
    Ok(PlainParts {
        inputs,
        wires,
        registers,
        memories,
        ports,
        states,
    })
}

/// What the law asks of a design.
fn is_sound(checked: &Checked)
    ensures { IsSound (levels_in checked.now) (tree_in checked.now) }
{
    checked.lawful();
    let lattice = checked.lattice();
    lattice.lawful();
    let design = checked.design();
    design_is_whole(design);
}

/// Nested states with ordinary variables for tags, which start as the design does, stand for it and weigh no more than its
/// module may have items. The program is that design's.
pub fn insert(alloc: Global, checked: &Checked, program: &Program) -> Result<Plain, AllocError>
    requires { IsProgramOf (levels_in checked.now) (tree_in checked.now) program.now }
    ensures stands { IfOk result (λ p. PlainStandsForDesign (levels_in checked.now) (tree_in checked.now) (nested_of p)) }
    ensures starts { IfOk result (λ p. PlainStartsAsDesign (levels_in checked.now) (tree_in checked.now) (nested_of p)) }
    ensures once { IfOk result (λ p. PlainWritesOnce (nested_of p)) }
    ensures small { IfOk result (λ p. nested_weight (nested_of p) ≤ most_items (levels_in checked.now) (tree_in checked.now)) }
{
    is_sound(checked);
    widths_in_range();
    plain_stands();
    plain_small();
    let setting = Setting {
        lattice: checked.lattice(),
        program,
    };
    let parts = parts(alloc, &setting)?;
    Ok(Plain::new(parts))
}
