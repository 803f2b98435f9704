//! V6: declarations that lack an item that sets them.

ghost use Rattle.std.specs.Prelude.{◌≡◌, ◌&&◌, not};
ghost use Rattle.sap_vtext.specs.Faults as faults;
ghost use Rattle.sap_vtext.specs.Names.{item_declarations, port_declaration};
ghost use Rattle.sap_vjudge.specs.Best.{best_of};
ghost use Rattle.sap_vjudge.specs.Listed as spec;
ghost use Rattle.sap_vjudge.specs.Listed.{declaration_of, items_unset, ports_unset, unsets_faults};
ghost use Rattle.sap_vjudge.specs.Shapes.{setting_of, shape_of};
ghost use Rattle.sap_vjudge.specs.Tables.{known_of};
ghost use Rattle.sap_vparse.specs.Views.{item_of, items_of, mention_of, port_of, ports_of};

use crate::code::Code;
use crate::fault::{Fault, note};
use crate::shape::{Setting, Shape};
use crate::table::{Table, port_shape};
use sap_vparse::items::{Item, Mention, Port};

fn needs(shape: Shape, setting: Setting) -> bool
    ensures { result ≡ faults.needs (shape_of shape) (setting_of setting) }
{
    match (shape, setting) {
        (Shape::Wire(_), Setting::Assign) => true,
        (Shape::Register(_), Setting::Initial) => true,
        (Shape::Register(_), Setting::Always) => true,
        (Shape::Memory(_, _), Setting::Initial) => true,
        (Shape::Memory(_, _), Setting::Always) => true,
        _ => false,
    }
}

fn lacks(table: &Table, shape: Shape, x: &Mention, setting: Setting) -> bool
    ensures { result ≡ (faults.needs (shape_of shape) (setting_of setting) && not ((known_of table.now).set (setting_of setting) x.now.name)) }
{
    needs(shape, setting) && !table.is_set(setting, &x.name)
}

#[tactic(auto, using(crate::proofs::Noting::noting, crate::proofs::Noting::unset))]
fn note_unset(table: &Table, shape: Shape, x: &Mention, best: &mut Option<Fault>)
    ensures { best.new ≡ best_of best.old (spec.unset_faults (known_of table.now) (declaration_of (mention_of x.now) (shape_of shape))) }
{
    let unset = lacks(table, shape, x, Setting::Assign)
        || lacks(table, shape, x, Setting::Initial)
        || lacks(table, shape, x, Setting::Always);
    note(best, unset, Code::V6, x.place);
}

#[tactic(auto, using(crate::proofs::Noting::noting, crate::proofs::Noting::unset))]
fn note_unset_port(table: &Table, port: &Port, best: &mut Option<Fault>)
    ensures { best.new ≡ best_of best.old (spec.unset_faults (known_of table.now) (port_declaration (port_of port.now))) }
{
    note_unset(table, port_shape(port), &port.name, best);
}

#[tactic(auto, using(crate::proofs::Noting::noting, crate::proofs::Noting::unset))]
fn note_unset_item(table: &Table, item: &Item, best: &mut Option<Fault>)
    ensures { best.new ≡ best_of best.old (unsets_faults (known_of table.now) (item_declarations (item_of item.now))) }
{
    match item {
        Item::Wire(range, x) => note_unset(table, Shape::Wire(range.value), x, best),
        Item::Register(range, x) => note_unset(table, Shape::Register(range.value), x, best),
        Item::Memory(range, x, last) => {
            note_unset(table, Shape::Memory(range.value, last.value), x, best)
        }
        Item::Integer(_) => (),
        Item::Assign(_, _) => (),
        Item::Initial(_, _) => (),
        Item::InitialCells(_, _, _, _) => (),
        Item::Always(_, _) => (),
        Item::AlwaysCell(_, _, _, _) => (),
    }
}

/// V6 at the ports.
#[tactic(auto, using(crate::proofs::Noting::noting, crate::proofs::Noting::unset))]
pub fn note_unset_ports(table: &Table, ports: &[Port], best: &mut Option<Fault>)
    ensures { best.new ≡ best_of best.old (ports_unset (known_of table.now) (ports_of ports.now)) }
{
    for port in ports {
        note_unset_port(table, port, best);
    }
}

/// V6 at the items that declare a name.
#[tactic(auto, using(crate::proofs::Noting::noting, crate::proofs::Noting::unset))]
pub fn note_unset_items(table: &Table, items: &[Item], best: &mut Option<Fault>)
    ensures { best.new ≡ best_of best.old (items_unset (known_of table.now) (items_of items.now)) }
{
    for item in items {
        note_unset_item(table, item, best);
    }
}
