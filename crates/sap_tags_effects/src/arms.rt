//! Which block of a `case` runs.

ghost use Rattle.std.specs.Prelude.{◌≡◌, ◌<◌, OnOk, map};
ghost use Rattle.sap_meaning.specs.Program as program;
ghost use Rattle.sap_ir.specs.Plain.Nested.{stop};
ghost use Rattle.sap_ir.specs.Plain.Views.{body_of, follow};
ghost use Rattle.sap_program.specs.Views as views;
ghost use Rattle.sap_tagged.specs.Commands as spec;
ghost use Rattle.sap_tags_terms.specs.Code.{entities_in, setting_in};

use crate::pushes::{set_wire, wire_variable};
use sap_ir::guarded::Calc;
use sap_ir::plain::nested::PlainCmd;
use sap_program::program::Arm;
use sap_tags_terms::calcs::is_number;
use sap_tags_terms::setting::Setting;
use std::alloc::{AllocError, Global};

/// A wire with its width.
#[derive(Drop)]
pub struct Sized {
    pub wire: u32,
    pub width: u32,
}

/// The wire of the block's number becomes `block` where that of the number has one of the constants.
fn pick_arm(
    alloc: Global,
    setting: &Setting<'_>,
    out: &mut Vec<PlainCmd>,
    number: &Sized,
    pick: &Sized,
    block: u64,
    constants: &[u64],
) -> Result<(), AllocError>
    ensures { OnOk result (body_of out.new.items ≡ follow (body_of out.old.items) (spec.picks_arm (setting_in setting.now) number.now.width number.now.wire pick.now.width pick.now.wire block constants.now stop)) }
{
    for constant in constants {
        let seen = wire_variable(setting, number.wire);
        let test = is_number(alloc, &seen, number.width, *constant)?;
        let this = Calc::Constant {
            width: pick.width,
            value: block,
        };
        let before = wire_variable(setting, pick.wire);
        let value = Calc::choose(alloc, test, this, before)?;
        set_wire(setting, out, pick.wire, value)?;
    }
    Ok(())
}

/// The wire of the block's number becomes that of the first arm that has the number, else that of the last block: later arms first.
pub fn pick(
    alloc: Global,
    setting: &Setting<'_>,
    out: &mut Vec<PlainCmd>,
    number: &Sized,
    pick: &Sized,
    arms: &[Arm],
) -> Result<(), AllocError>
    ensures { OnOk result (body_of out.new.items ≡ follow (body_of out.old.items)
        (spec.picks (setting_in setting.now) number.now.width number.now.wire pick.now.width pick.now.wire 0 (views.arms_before (entities_in setting.now) arms.now (program.last_arm program.end_block)) stop)) }
{
    let last = Calc::Constant {
        width: pick.width,
        value: arms.len() as u64,
    };
    set_wire(setting, out, pick.wire, last)?;
    for block in (0..arms.len()).rev() {
        let constants = arms[block].constants.as_slice();
        pick_arm(alloc, setting, out, number, pick, block as u64, constants)?;
    }
    Ok(())
}

/// The block whose number is in a wire, told by the lowest bits of that number, so many of them.
#[tactic(auto, using(crate::proofs::Pushed::behind, sap_ir::proofs::plain::Views::commands))]
pub fn decide_block(
    alloc: Global,
    setting: &Setting<'_>,
    out: &mut Vec<PlainCmd>,
    wire: u32,
    bits: u32,
    mut blocks: Vec<Vec<PlainCmd>>,
) -> Result<(), AllocError>
    requires { bits < 64 }
    ensures { OnOk result (body_of out.new.items ≡ follow (body_of out.old.items) (spec.decides (setting_in setting.now) wire bits (map (λ b. body_of b.items) blocks.items))) }
{
    if bits == 0 {
        if let Some(mut block) = blocks.into_iter().next() {
            out.append(&mut block)?;
        }
        return Ok(());
    }
    let half = 1 << (bits - 1);
    if blocks.len() <= half {
        return decide_block(alloc, setting, out, wire, bits - 1, blocks);
    }
    let upper = blocks.split_off(half)?;
    let mut yes = Vec::new(alloc);
    decide_block(alloc, setting, &mut yes, wire, bits - 1, upper)?;
    let mut no = Vec::new(alloc);
    decide_block(alloc, setting, &mut no, wire, bits - 1, blocks)?;
    let number = wire_variable(setting, wire);
    let test = Calc::slice(alloc, number, bits - 1, bits - 1)?;
    out.push(PlainCmd::If { test, yes, no })?;
    Ok(())
}
