//! Assignments at the end of a body, and what they read.

ghost use Rattle.std.specs.Prelude.{◌≡◌, IfOk, OnOk};
ghost use Rattle.sap_ir.specs.Calcs.{action_of, term_of};
ghost use Rattle.sap_ir.specs.Plain.Nested.{act, stop};
ghost use Rattle.sap_ir.specs.Plain.Views.{body_of, follow};
ghost use Rattle.sap_tagged.specs.Commands.{gives, stores};
ghost use Rattle.sap_tagged.specs.Keys.{inner_key, tag_key, value_key, wire_key};
ghost use Rattle.sap_tagged.specs.Levels.{var};
ghost use Rattle.sap_tags_terms.specs.Code.{setting_in};

use sap_ir::guarded::{Act, Calc};
use sap_ir::plain::nested::PlainCmd;
use sap_tags_terms::names::{inner_name, tag_name, value_name, wire_name};
use sap_tags_terms::setting::Setting;
use std::alloc::{AllocError, Global};

/// One assignment or write more.
#[tactic(auto, using(sap_ir::proofs::plain::Views::commands))]
pub fn push(out: &mut Vec<PlainCmd>, action: Act) -> Result<(), AllocError>
    ensures { OnOk result (body_of out.new.items ≡ follow (body_of out.old.items) (act (action_of action) stop)) }
{
    out.push(PlainCmd::Do(action))?;
    Ok(())
}

/// Sets a wire.
pub fn set_wire(
    setting: &Setting<'_>,
    out: &mut Vec<PlainCmd>,
    wire: u32,
    value: Calc,
) -> Result<(), AllocError>
    ensures { OnOk result (body_of out.new.items ≡ follow (body_of out.old.items) (gives (setting_in setting.now) (wire_key wire) (term_of value) stop)) }
{
    let name = wire_name(setting, wire);
    push(out, Act::Set(name, value))
}

/// Leaves a context to the children of a state.
pub(crate) fn set_inner(
    setting: &Setting<'_>,
    out: &mut Vec<PlainCmd>,
    state: usize,
    context: Calc,
) -> Result<(), AllocError>
    ensures { OnOk result (body_of out.new.items ≡ follow (body_of out.old.items) (gives (setting_in setting.now) (inner_key state) (term_of context) stop)) }
{
    let name = inner_name(setting, state);
    push(out, Act::Set(name, context))
}

/// Sets the number of a register.
pub(crate) fn set_value(
    alloc: Global,
    setting: &Setting<'_>,
    out: &mut Vec<PlainCmd>,
    x: usize,
    value: Calc,
) -> Result<(), AllocError>
    ensures { OnOk result (body_of out.new.items ≡ follow (body_of out.old.items) (gives (setting_in setting.now) (value_key x) (term_of value) stop)) }
{
    let name = value_name(alloc, setting, x)?;
    push(out, Act::Set(name, value))
}

/// Sets the tag of an entity.
pub(crate) fn set_tag(
    alloc: Global,
    setting: &Setting<'_>,
    out: &mut Vec<PlainCmd>,
    x: usize,
    value: Calc,
) -> Result<(), AllocError>
    ensures { OnOk result (body_of out.new.items ≡ follow (body_of out.old.items) (gives (setting_in setting.now) (tag_key x) (term_of value) stop)) }
{
    let name = tag_name(alloc, setting, x)?;
    push(out, Act::Set(name, value))
}

/// Writes a cell of a memory.
pub(crate) fn put_value(
    alloc: Global,
    setting: &Setting<'_>,
    out: &mut Vec<PlainCmd>,
    x: usize,
    index: Calc,
    value: Calc,
) -> Result<(), AllocError>
    ensures { OnOk result (body_of out.new.items ≡ follow (body_of out.old.items) (stores (setting_in setting.now) (value_key x) (term_of index) (term_of value) stop)) }
{
    let memory = value_name(alloc, setting, x)?;
    push(
        out,
        Act::Put {
            memory,
            index,
            value,
        },
    )
}

/// Writes the tag of a cell of an enforced memory.
pub(crate) fn put_tag(
    alloc: Global,
    setting: &Setting<'_>,
    out: &mut Vec<PlainCmd>,
    x: usize,
    index: Calc,
    value: Calc,
) -> Result<(), AllocError>
    ensures { OnOk result (body_of out.new.items ≡ follow (body_of out.old.items) (stores (setting_in setting.now) (tag_key x) (term_of index) (term_of value) stop)) }
{
    let memory = tag_name(alloc, setting, x)?;
    push(
        out,
        Act::Put {
            memory,
            index,
            value,
        },
    )
}

/// The number in a wire.
pub fn wire_variable(setting: &Setting<'_>, wire: u32) -> Calc
    ensures { term_of result ≡ var (setting_in setting.now) (wire_key wire) }
{
    Calc::Read(wire_name(setting, wire))
}

/// The context of the children of a state.
pub fn inner_variable(setting: &Setting<'_>, state: usize) -> Calc
    ensures { term_of result ≡ var (setting_in setting.now) (inner_key state) }
{
    Calc::Read(inner_name(setting, state))
}

/// The number of a register.
pub(crate) fn value_variable(
    alloc: Global,
    setting: &Setting<'_>,
    x: usize,
) -> Result<Calc, AllocError>
    ensures { IfOk result (λ c. term_of c ≡ var (setting_in setting.now) (value_key x)) }
{
    Ok(Calc::Read(value_name(alloc, setting, x)?))
}
