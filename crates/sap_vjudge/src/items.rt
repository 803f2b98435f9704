//! The faults of ports and items, by what stands above each.

ghost use Rattle.std.specs.Prelude.{◌≡◌, OnOk};
ghost use Rattle.sap_vjudge.specs.Best.{best_of};
ghost use Rattle.sap_vjudge.specs.Known.{after_items, after_ports};
ghost use Rattle.sap_vjudge.specs.Listed as spec;
ghost use Rattle.sap_vjudge.specs.Tables.{known_of};
ghost use Rattle.sap_vparse.specs.Views.{item_of, items_of, port_of, ports_of};

use crate::constants::{note_numbers, note_range};
use crate::fault::Fault;
use crate::memories::note_memories;
use crate::table::Table;
use crate::twice::{note_declared, note_twice};
use crate::usage::note_uses;
use crate::widths::note_widths;
use sap_vparse::items::{Item, Port};
use std::alloc::{AllocError, Global};

#[tactic(auto, using(crate::proofs::Noting::noting, crate::proofs::Lists::items))]
fn note_item(table: &Table, item: &Item, best: &mut Option<Fault>)
    ensures { best.new ≡ best_of best.old (spec.item_faults (known_of table.now) (item_of item.now)) }
{
    note_twice(table, item, best);
    note_uses(table, item, best);
    note_numbers(item, best);
    note_widths(table, item, best);
    note_memories(table, item, best);
}

#[tactic(auto, using(crate::proofs::Noting::noting, crate::proofs::Lists::items))]
fn note_port(table: &Table, port: &Port, best: &mut Option<Fault>)
    ensures { best.new ≡ best_of best.old (spec.port_faults (known_of table.now) (port_of port.now)) }
{
    note_declared(table, &port.name, best);
    note_range(&port.range, best);
}

/// Notes the faults of the ports, and adds them to the table.
pub fn read_ports(
    alloc: Global,
    ports: &[Port],
    table: &mut Table,
    best: &mut Option<Fault>,
) -> Result<(), AllocError>
    ensures best { OnOk result (best.new ≡ best_of best.old (spec.ports_faults (known_of table.old) (ports_of ports.now))) }
    ensures known { OnOk result (known_of table.new ≡ after_ports (known_of table.old) (ports_of ports.now)) }
{
    for port in ports {
        note_port(table, port, best);
        table.add_port(alloc, port)?;
    }
    Ok(())
}

/// Notes the faults of the items by what stands above each, and adds them to the table.
pub fn read_items(
    alloc: Global,
    items: &[Item],
    table: &mut Table,
    best: &mut Option<Fault>,
) -> Result<(), AllocError>
    ensures best { OnOk result (best.new ≡ best_of best.old (spec.items_faults (known_of table.old) (items_of items.now))) }
    ensures known { OnOk result (known_of table.new ≡ after_items (known_of table.old) (items_of items.now)) }
{
    for item in items {
        note_item(table, item, best);
        table.add_item(alloc, item)?;
    }
    Ok(())
}
