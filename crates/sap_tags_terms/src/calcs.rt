//! The terms of numbers and of levels.

ghost use Rattle.std.specs.Prelude.{◌≡◌, ◌+◌, ◌<◌, IfOk};
ghost use Rattle.sap_ir.specs.Calcs as calcs;
ghost use Rattle.sap_maps.specs.Term as term;
ghost use Rattle.sap_meaning.specs.Program as program;
ghost use Rattle.sap_meaning.specs.Expressions as expressions;
ghost use Rattle.sap_program.specs.Views as views;
ghost use Rattle.sap_resolved.specs.Sized.Ranges.{RangedLevel, RangedTerm};
ghost use Rattle.sap_tagged.specs.Keys.{tag_key};
ghost use Rattle.sap_tagged.specs.Levels as spec;
ghost use Rattle.sap_tags_terms.specs.Code.{setting_in, world_in};

use crate::names::{first_name, tag_name, value_name};
use crate::setting::Setting;
use sap_bits::Op2;
use sap_ir::guarded::Calc;
use sap_lattice::level::Level;
use sap_program::program::{Number, TagOf};
use sap_program::widths::{one_width, two_width};
use std::alloc::{AllocError, Global};

/// The code of a level.
pub fn bits(setting: &Setting<'_>, level: Level) -> Calc
    ensures { calcs.term_of result ≡ spec.bits (setting_in setting.now) level }
{
    Calc::Constant {
        width: setting.lattice.width(),
        value: setting.lattice.code(level),
    }
}

/// Always 1.
pub fn yes() -> Calc
    ensures { calcs.term_of result ≡ spec.yes }
{
    Calc::Constant { width: 1, value: 1 }
}

/// The join of two levels.
pub fn lub(alloc: Global, a: Calc, b: Calc) -> Result<Calc, AllocError>
    ensures { IfOk result (λ c. calcs.term_of c ≡ spec.lub (calcs.term_of a) (calcs.term_of b)) }
{
    Calc::two(alloc, Op2::Or, a, b)
}

/// The first level is at or below the second.
pub fn below_or_at(alloc: Global, a: Calc, b: Calc) -> Result<Calc, AllocError>
    ensures { IfOk result (λ c. calcs.term_of c ≡ spec.below_or_at (calcs.term_of a) (calcs.term_of b)) }
{
    let again = b.copy(alloc)?;
    let both = lub(alloc, a, b)?;
    Calc::two(alloc, Op2::Eq, both, again)
}

/// The tag of an entity.
pub fn tag_variable(alloc: Global, setting: &Setting<'_>, x: usize) -> Result<Calc, AllocError>
    ensures { IfOk result (λ c. calcs.term_of c ≡ spec.var (setting_in setting.now) (tag_key x)) }
{
    Ok(Calc::Read(tag_name(alloc, setting, x)?))
}

/// A state may be entered in a context.
pub fn enters(
    alloc: Global,
    setting: &Setting<'_>,
    context: Calc,
    state: usize,
) -> Result<Calc, AllocError>
    ensures { IfOk result (λ c. calcs.term_of c ≡ spec.enters (setting_in setting.now) (calcs.term_of context) state) }
{
    if setting.program.is_dynamic(state) {
        Ok(yes())
    } else {
        let own = tag_variable(alloc, setting, state)?;
        below_or_at(alloc, context, own)
    }
}

/// An operator on two numbers, of which the first is in its place.
fn two(alloc: Global, op: Op2, a: Box<Calc>, b: Calc) -> Result<Calc, AllocError>
    ensures { IfOk result (λ c. calcs.term_of c ≡ term.two op (calcs.term_of a.value) (calcs.term_of b)) }
{
    Ok(Calc::Two(op, a, Box::new(alloc, b)?))
}

/// The second number where the first isn't 0, else the third; the first two are in their places.
fn choose(alloc: Global, test: Box<Calc>, yes: Box<Calc>, no: Calc) -> Result<Calc, AllocError>
    ensures { IfOk result (λ c. calcs.term_of c ≡ term.choose (calcs.term_of test.value) (calcs.term_of yes.value) (calcs.term_of no)) }
{
    Ok(Calc::Choose(test, yes, Box::new(alloc, no)?))
}

/// The join of a level and that of two others; the first two are in their places.
fn lub_of_three(alloc: Global, a: Box<Calc>, b: Box<Calc>, c: Calc) -> Result<Calc, AllocError>
    ensures { IfOk result (λ l. calcs.term_of l ≡ spec.lub (calcs.term_of a.value) (spec.lub (calcs.term_of b.value) (calcs.term_of c))) }
{
    let both = two(alloc, Op2::Or, b, c)?;
    two(alloc, Op2::Or, a, both)
}

/// The first in front of the second.
fn join(alloc: Global, a: Calc, b: Calc) -> Result<Calc, AllocError>
    ensures { IfOk result (λ c. calcs.term_of c ≡ term.join (calcs.term_of a) (calcs.term_of b)) }
{
    let parts = vec![in alloc; a, b]?;
    Ok(Calc::concat(parts))
}

/// The width of an expression.
pub fn width_of(setting: &Setting<'_>, e: &Number) -> u32
    requires { RangedTerm (world_in setting.now) (views.term_of e.now) }
    ensures { result ≡ expressions.width_of (world_in setting.now) (views.term_of e.now) }
{
    match e {
        Number::Constant { width, .. } => *width as u32,
        Number::Read(x) => setting.program.width(*x) as u32,
        Number::Cell { memory, .. } => setting.program.width(*memory) as u32,
        Number::One(op, a) => one_width(*op, width_of(setting, a)),
        Number::Two(op, a, _) => two_width(*op, width_of(setting, a)),
        Number::Choose(_, a, _) => width_of(setting, a),
        Number::Join(a, b) => {
            let front = width_of(setting, a);
            let back = width_of(setting, b);
            front + back
        }
        Number::Part { hi, lo, .. } => (*hi - *lo + 1) as u32,
    }
}

/// The number of an expression.
pub fn expr(alloc: Global, setting: &Setting<'_>, e: &Number) -> Result<Calc, AllocError>
    requires { RangedTerm (world_in setting.now) (views.term_of e.now) }
    ensures { IfOk result (λ c. calcs.term_of c ≡ spec.expr (setting_in setting.now) (views.term_of e.now)) }
{
    match e {
        Number::Constant { width, value } => Ok(Calc::Constant {
            width: *width as u32,
            value: *value,
        }),
        Number::Read(x) => Ok(Calc::Read(value_name(alloc, setting, *x)?)),
        Number::Cell { memory, index } => {
            let memory = value_name(alloc, setting, *memory)?;
            let index = expr(alloc, setting, index)?;
            Calc::cell(alloc, memory, index)
        }
        Number::One(op, a) => {
            let a = expr(alloc, setting, a)?;
            Calc::one(alloc, *op, a)
        }
        Number::Two(op, a, b) => {
            let a = Box::new(alloc, expr(alloc, setting, a)?)?;
            let b = expr(alloc, setting, b)?;
            two(alloc, *op, a, b)
        }
        Number::Choose(c, a, b) => {
            let c = Box::new(alloc, expr(alloc, setting, c)?)?;
            let a = Box::new(alloc, expr(alloc, setting, a)?)?;
            let b = expr(alloc, setting, b)?;
            choose(alloc, c, a, b)
        }
        Number::Join(a, b) => {
            let a = expr(alloc, setting, a)?;
            let b = expr(alloc, setting, b)?;
            join(alloc, a, b)
        }
        Number::Part { of, hi, lo } => {
            let of = expr(alloc, setting, of)?;
            Calc::slice(alloc, of, *hi as u32, *lo as u32)
        }
    }
}

/// The tag of the cell of an enforced memory that an index picks.
pub fn cell_variable(
    alloc: Global,
    setting: &Setting<'_>,
    memory: usize,
    index: &Number,
) -> Result<Calc, AllocError>
    requires { RangedTerm (world_in setting.now) (views.term_of index.now) }
    ensures { let s = setting_in setting.now in
        IfOk result (λ c. calcs.term_of c ≡ term.cell (s.name (tag_key memory)) (spec.expr s (views.term_of index.now))) }
{
    let tags = tag_name(alloc, setting, memory)?;
    let index = expr(alloc, setting, index)?;
    Calc::cell(alloc, tags, index)
}

/// The tag of the cell that an index picks.
fn cell_tag(
    alloc: Global,
    setting: &Setting<'_>,
    memory: usize,
    index: &Number,
) -> Result<Calc, AllocError>
    requires { RangedTerm (world_in setting.now) (views.term_of index.now) }
    ensures { IfOk result (λ c. calcs.term_of c ≡ spec.cell_tag (setting_in setting.now) memory (views.term_of index.now)) }
{
    if setting.program.is_dynamic(memory) {
        Ok(Calc::Read(first_name(setting, memory)))
    } else {
        cell_variable(alloc, setting, memory, index)
    }
}

/// The level of an expression.
pub fn tag_of(alloc: Global, setting: &Setting<'_>, e: &Number) -> Result<Calc, AllocError>
    requires { RangedTerm (world_in setting.now) (views.term_of e.now) }
    ensures { IfOk result (λ c. calcs.term_of c ≡ spec.tag_of (setting_in setting.now) (views.term_of e.now)) }
{
    match e {
        Number::Constant { .. } => Ok(bits(setting, setting.lattice.bottom())),
        Number::Read(x) => tag_variable(alloc, setting, *x),
        Number::Cell { memory, index } => {
            let own = Box::new(alloc, tag_of(alloc, setting, index)?)?;
            let cell = cell_tag(alloc, setting, *memory, index)?;
            two(alloc, Op2::Or, own, cell)
        }
        Number::One(_, of) | Number::Part { of, .. } => tag_of(alloc, setting, of),
        Number::Two(_, a, b) | Number::Join(a, b) => {
            let a = Box::new(alloc, tag_of(alloc, setting, a)?)?;
            let b = tag_of(alloc, setting, b)?;
            two(alloc, Op2::Or, a, b)
        }
        Number::Choose(c, a, b) => {
            let c = Box::new(alloc, tag_of(alloc, setting, c)?)?;
            let a = Box::new(alloc, tag_of(alloc, setting, a)?)?;
            let b = tag_of(alloc, setting, b)?;
            lub_of_three(alloc, c, a, b)
        }
    }
}

/// The level of what a tag expression tells.
pub fn told_tag(alloc: Global, setting: &Setting<'_>, n: &TagOf) -> Result<Calc, AllocError>
    requires { RangedLevel (world_in setting.now) (views.level_of n.now) }
    ensures { IfOk result (λ c. calcs.term_of c ≡ spec.told_tag (setting_in setting.now) (views.level_of n.now)) }
{
    match n {
        TagOf::Fixed(_) => Ok(bits(setting, setting.lattice.bottom())),
        TagOf::Of(e) | TagOf::AtPlace(e) => tag_of(alloc, setting, e),
        TagOf::Both(a, b) => {
            let a = Box::new(alloc, told_tag(alloc, setting, a)?)?;
            let b = told_tag(alloc, setting, b)?;
            two(alloc, Op2::Or, a, b)
        }
    }
}

/// With 6 bits at least.
fn widened(alloc: Global, width: u32, e: Calc) -> Result<Calc, AllocError>
    ensures { IfOk result (λ c. calcs.term_of c ≡ spec.widened width (calcs.term_of e)) }
{
    if width < 6 {
        let zeros = Calc::Constant {
            width: 6 - width,
            value: 0,
        };
        join(alloc, zeros, e)
    } else {
        Ok(e)
    }
}

/// The level at a place, of so many levels from the i-th on; else the top.
#[tactic(auto, using(crate::proofs::Words::places))]
fn placed(
    alloc: Global,
    setting: &Setting<'_>,
    width: u32,
    e: &Calc,
    i: u32,
    more: u32,
) -> Result<Calc, AllocError>
    requires { i + more < 256 }
    ensures { IfOk result (λ c. calcs.term_of c ≡ spec.placed (setting_in setting.now) width (calcs.term_of e.now) i more) }
{
    if more == 0 {
        return Ok(bits(setting, setting.lattice.top()));
    }
    let rest = placed(alloc, setting, width, e, i + 1, more - 1)?;
    let test = is_number(alloc, e, width, u64::from(i))?;
    let level = bits(setting, Level::new(i as u8));
    Calc::choose(alloc, test, level, rest)
}

/// An expression of a width is this number.
pub fn is_number(alloc: Global, e: &Calc, width: u32, value: u64) -> Result<Calc, AllocError>
    ensures { IfOk result (λ c. calcs.term_of c ≡ term.two Op2.Eq (calcs.term_of e.now) (term.constant width value)) }
{
    let e = e.copy(alloc)?;
    Calc::two(alloc, Op2::Eq, e, Calc::Constant { width, value })
}

/// The level at the place that an expression gives.
fn level_at(alloc: Global, setting: &Setting<'_>, e: &Number) -> Result<Calc, AllocError>
    requires { RangedTerm (world_in setting.now) (views.term_of e.now) }
    ensures { IfOk result (λ c. calcs.term_of c ≡ spec.new_tag (setting_in setting.now) (program.at_place (views.term_of e.now))) }
{
    let width = width_of(setting, e);
    let number = expr(alloc, setting, e)?;
    let place = widened(alloc, width, number)?;
    setting.lattice.lawful();
    placed(
        alloc,
        setting,
        width.max(6),
        &place,
        0,
        setting.lattice.count(),
    )
}

/// The level that a tag expression gives.
pub fn new_tag(alloc: Global, setting: &Setting<'_>, n: &TagOf) -> Result<Calc, AllocError>
    requires { RangedLevel (world_in setting.now) (views.level_of n.now) }
    ensures { IfOk result (λ c. calcs.term_of c ≡ spec.new_tag (setting_in setting.now) (views.level_of n.now)) }
{
    match n {
        TagOf::Fixed(level) => Ok(bits(setting, *level)),
        TagOf::Of(e) => tag_of(alloc, setting, e),
        TagOf::AtPlace(e) => level_at(alloc, setting, e),
        TagOf::Both(a, b) => {
            let a = Box::new(alloc, new_tag(alloc, setting, a)?)?;
            let b = new_tag(alloc, setting, b)?;
            two(alloc, Op2::Or, a, b)
        }
    }
}
