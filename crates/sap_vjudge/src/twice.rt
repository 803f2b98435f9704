//! V3: what is declared or set a second time, and the `integer` of a `for`.

ghost use Rattle.std.specs.Prelude.{◌≡◌, ◌&&◌, is_some, option_map};
ghost use Rattle.sap_vtext.specs.Faults.{is_settable};
ghost use Rattle.sap_vjudge.specs.Best.{best_of, fault_if};
ghost use Rattle.sap_vjudge.specs.Listed.{declared_faults};
ghost use Rattle.sap_vjudge.specs.Shapes.{setting_of, shape_of};
ghost use Rattle.sap_vjudge.specs.Tables.{known_of};
ghost use Rattle.sap_vjudge.specs.declared.code.Code.TheVariants.{V3};
ghost use Rattle.sap_vparse.specs.Views.{item_of};

use crate::code::Code;
use crate::fault::{Fault, note};
use crate::shape::{Setting, Shape};
use crate::table::Table;
use sap_vparse::items::{Item, Mention};

/// V3 at a name that is declared before.
pub fn note_declared(table: &Table, x: &Mention, best: &mut Option<Fault>)
    ensures { best.new ≡ best_of best.old (fault_if (is_some ((known_of table.now).shape x.now.name)) V3 x.now.place) }
{
    note(best, table.shape(&x.name).is_some(), Code::V3, x.place);
}

// A wire, a register or a memory.
fn is_settable(shape: Option<Shape>) -> bool
    ensures { result ≡ is_settable (option_map shape_of shape) }
{
    match shape {
        Some(Shape::Wire(_)) => true,
        Some(Shape::Register(_)) => true,
        Some(Shape::Memory(_, _)) => true,
        Some(Shape::Input(_)) => false,
        None => false,
    }
}

fn note_set(table: &Table, setting: Setting, x: &Mention, best: &mut Option<Fault>)
    ensures { best.new ≡ best_of best.old (fault_if (is_settable ((known_of table.now).shape x.now.name) && (known_of table.now).set (setting_of setting) x.now.name) V3 x.now.place) }
{
    let twice = is_settable(table.shape(&x.name)) && table.is_set(setting, &x.name);
    note(best, twice, Code::V3, x.place);
}

/// V3, and V4 at the first `i` of a `for`.
#[tactic(auto, using(crate::proofs::Noting::noting, crate::proofs::Noting::declared))]
pub fn note_twice(table: &Table, item: &Item, best: &mut Option<Fault>)
    ensures { best.new ≡ best_of best.old (declared_faults (known_of table.now) (item_of item.now)) }
{
    match item {
        Item::Wire(_, x) => note_declared(table, x, best),
        Item::Register(_, x) => note_declared(table, x, best),
        Item::Memory(_, x, _) => note_declared(table, x, best),
        Item::Integer(place) => note(best, table.has_integer(), Code::V3, *place),
        Item::Assign(x, _) => note_set(table, Setting::Assign, x, best),
        Item::Initial(x, _) => note_set(table, Setting::Initial, x, best),
        Item::InitialCells(place, _, x, _) => {
            note_set(table, Setting::Initial, x, best);
            note(best, !table.has_integer(), Code::V4, *place);
        }
        Item::Always(x, _) => note_set(table, Setting::Always, x, best),
        Item::AlwaysCell(_, x, _, _) => note_set(table, Setting::Always, x, best),
    }
}
