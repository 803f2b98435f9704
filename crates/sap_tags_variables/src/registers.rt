//! Inputs and registers.

ghost use Rattle.std.specs.Prelude.{◌≡◌, ◌++◌, ◌∷◌, [], OnOk};
ghost use Rattle.sap_meaning.specs.Program as program;
ghost use Rattle.sap_resolved.specs.Sized.Ranges.{IsWidth, RangedProgram};
ghost use Rattle.sap_tagged.specs.Plain.{inputs_of, seat_registers, seat_var, shown_registers, tag_registers, tag_var, value_var};
ghost use Rattle.sap_tags_terms.specs.Code.{named_in, tag_width, world_in};

use sap_ir::guarded::Var;
use sap_ir::plain::seats;
use sap_tags_terms::entities::{first_code, has_tag};
use sap_tags_terms::names::{seat_name, tag_name, value_name};
use sap_tags_terms::setting::Setting;
use std::alloc::{AllocError, Global};

/// An entity's number, which starts at `start`.
fn add_value(
    alloc: Global,
    setting: &Setting<'_>,
    variables: &mut Vec<Var>,
    x: usize,
    start: u64,
) -> Result<(), AllocError>
    requires { IsWidth (program.width (world_in setting.now) x) }
    ensures { OnOk result (variables.new.items ≡ variables.old.items ++ value_var (named_in setting.now) x start ∷ []) }
{
    let name = value_name(alloc, setting, x)?;
    let width = setting.program.width(x) as u32;
    variables.push(Var { name, width, start })?;
    Ok(())
}

/// An entity's tag, which starts at `start`.
fn add_tag(
    alloc: Global,
    setting: &Setting<'_>,
    variables: &mut Vec<Var>,
    x: usize,
    start: u64,
) -> Result<(), AllocError>
    ensures { OnOk result (variables.new.items ≡ variables.old.items ++ tag_var (named_in setting.now) (tag_width setting.now) x start ∷ []) }
{
    let name = tag_name(alloc, setting, x)?;
    let width = setting.lattice.width();
    variables.push(Var { name, width, start })?;
    Ok(())
}

/// The current child of a state, or of the root.
fn add_seat(
    alloc: Global,
    setting: &Setting<'_>,
    variables: &mut Vec<Var>,
    p: usize,
) -> Result<(), AllocError>
    ensures { OnOk result (variables.new.items ≡ variables.old.items ++ seat_var (named_in setting.now) p ∷ []) }
{
    let name = seat_name(alloc, setting, p)?;
    let width = seats::width(setting.program.child_count(p));
    variables.push(Var {
        name,
        width,
        start: 0,
    })?;
    Ok(())
}

/// The number of each input, and its tag.
pub fn add_inputs(
    alloc: Global,
    setting: &Setting<'_>,
    inputs: &mut Vec<Var>,
) -> Result<(), AllocError>
    requires { RangedProgram (named_in setting.now).program }
    ensures { OnOk result (inputs.new.items ≡ inputs.old.items ++ inputs_of (named_in setting.now) (tag_width setting.now)) }
{
    for x in 0..setting.program.entities.len() {
        if setting.program.is_input(x) {
            add_value(alloc, setting, inputs, x, 0)?;
            add_tag(alloc, setting, inputs, x, 0)?;
        }
    }
    Ok(())
}

/// The number of each register, and its tag: these are ports.
pub fn add_shown_registers(
    alloc: Global,
    setting: &Setting<'_>,
    registers: &mut Vec<Var>,
) -> Result<(), AllocError>
    requires { RangedProgram (named_in setting.now).program }
    ensures { OnOk result (registers.new.items ≡ registers.old.items ++ shown_registers (named_in setting.now) (tag_width setting.now)) }
{
    for x in 0..setting.program.entities.len() {
        if setting.program.is_register(x) {
            add_value(
                alloc,
                setting,
                registers,
                x,
                setting.program.first_number(x),
            )?;
            add_tag(alloc, setting, registers, x, first_code(setting, x))?;
        }
    }
    Ok(())
}

/// The tags of states and of dynamic memories.
pub fn add_tag_registers(
    alloc: Global,
    setting: &Setting<'_>,
    registers: &mut Vec<Var>,
) -> Result<(), AllocError>
    ensures { OnOk result (registers.new.items ≡ registers.old.items ++ tag_registers (named_in setting.now) (tag_width setting.now)) }
{
    for x in 0..setting.program.entities.len() {
        if has_tag(setting, x) {
            add_tag(alloc, setting, registers, x, first_code(setting, x))?;
        }
    }
    Ok(())
}

/// The current children of all states that have children, and that of the root.
pub fn add_seat_registers(
    alloc: Global,
    setting: &Setting<'_>,
    registers: &mut Vec<Var>,
) -> Result<(), AllocError>
    ensures { OnOk result (registers.new.items ≡ registers.old.items ++ seat_registers (named_in setting.now)) }
{
    let root = setting.program.entities.len();
    for p in 0..root {
        if setting.program.child_count(p) > 0 {
            add_seat(alloc, setting, registers, p)?;
        }
    }
    add_seat(alloc, setting, registers, root)?;
    Ok(())
}
