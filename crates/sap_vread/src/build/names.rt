//! The declared names.

ghost use Rattle.std.specs.Prelude.{◌≡◌, ◌++◌, OnOk, flat_map, map};
ghost use Rattle.sap_vtext.specs.Names.{item_declarations};
ghost use Rattle.sap_vparse.specs.Views.{item_of};

use sap_net::parts::Name;
use sap_vparse::items::{Item, Port};
use std::alloc::{AllocError, Global};

pub fn push_port_names(
    alloc: Global,
    names: &mut Vec<Name>,
    ports: &[Port],
) -> Result<(), AllocError>
    ensures { OnOk result (names.new.items ≡ names.old.items ++ map (λ p. p.name.name) ports.now) }
{
    for port in ports {
        names.push(port.name.name.copy(alloc)?)?;
    }
    Ok(())
}

fn push_name(alloc: Global, names: &mut Vec<Name>, item: &Item) -> Result<(), AllocError>
    ensures { OnOk result (names.new.items ≡ names.old.items ++ map (λ d. d.name.name) (item_declarations (item_of item.now))) }
{
    match item {
        Item::Wire(_, x) => names.push(x.name.copy(alloc)?)?,
        Item::Register(_, x) => names.push(x.name.copy(alloc)?)?,
        Item::Memory(_, x, _) => names.push(x.name.copy(alloc)?)?,
        _ => (),
    }
    Ok(())
}

pub fn push_item_names(
    alloc: Global,
    names: &mut Vec<Name>,
    items: &[Item],
) -> Result<(), AllocError>
    ensures { OnOk result (names.new.items ≡ names.old.items ++ flat_map (λ x. map (λ d. d.name.name) (item_declarations (item_of x))) items.now) }
{
    for item in items {
        push_name(alloc, names, item)?;
    }
    Ok(())
}
