//! What is known of the names of a module, as its ports and items are read.

ghost use Rattle.std.specs.Prelude.{◌≡◌, ◌+◌, ℕ, List, Some, option_map, OnOk, if◌then◌else◌};
ghost use Rattle.std.specs.Str.{bytes_eq};
ghost use Rattle.sap_vtext.specs.Names as names;
ghost use Rattle.sap_vjudge.specs.Known.{nothing_known, with_shape, with_setting, with_integer, after_port, after_item};
ghost use Rattle.sap_vjudge.specs.Shapes.{shape_of, setting_of};
ghost use Rattle.sap_vjudge.specs.Tables.{entry_of, known_of};
ghost use Rattle.sap_vparse.specs.Views.{port_of, item_of};

use crate::entry::{Entry, declared, is_set_in, set, shape_in};
use crate::shape::{Setting, Shape};
use indexmap::IndexMap;
use sap_net::parts::Name;
use sap_vparse::items::{Direction, Item, Port};
use std::alloc::{AllocError, Global};

/// The names that are declared or set so far, and whether `integer i` is there.
#[derive(Drop)]
pub struct Table {
    entries: IndexMap<Vec<u8>, Entry>,
    integer: bool,
}

/// What a port is declared as.
pub fn port_shape(port: &Port) -> Shape
    ensures { shape_of result ≡ names.port_shape (port_of port.now).direction ((port_of port.now).range.value + 1) }
{
    match port.direction {
        Direction::Input => Shape::Input(port.range.value),
        Direction::OutputRegister => Shape::Register(port.range.value),
        Direction::OutputWire => Shape::Wire(port.range.value),
    }
}

impl Table {
    pub fn new(alloc: Global) -> Table
        ensures { known_of result ≡ nothing_known }
    {
        Table {
            entries: IndexMap::new(alloc),
            integer: false,
        }
    }

    fn entry(&self, name: &Name) -> Option<Entry>
        ensures { result ≡ entry_of self.now name.now }
    {
        match self.entries.get(name.as_bytes()) {
            Some(entry) => Some(*entry),
            None => None,
        }
    }

    /// What the name is first declared as.
    #[tactic(auto, using(crate::proofs::Tabled::table))]
    pub fn shape(&self, name: &Name) -> Option<Shape>
        ensures { option_map shape_of result ≡ (known_of self.now).shape name.now }
    {
        shape_in(self.entry(name))
    }

    #[tactic(auto, using(crate::proofs::Tabled::table))]
    pub fn is_set(&self, setting: Setting, name: &Name) -> bool
        ensures { result ≡ (known_of self.now).set (setting_of setting) name.now }
    {
        is_set_in(self.entry(name), setting)
    }

    #[tactic(auto, using(crate::proofs::Tabled::table))]
    pub fn has_integer(&self) -> bool
        ensures { result ≡ (known_of self.now).integer }
    {
        self.integer
    }

    fn put(&mut self, alloc: Global, name: &Name, entry: Entry) -> Result<(), AllocError>
        ensures entries { OnOk result ((n : List ℕ) → entry_of self.new n ≡ (if bytes_eq name.now n then Some entry else entry_of self.old n)) }
        ensures integer { self.new.integer ≡ self.old.integer }
    {
        let key = name.as_bytes().to_vec(alloc)?;
        self.entries.insert(key, entry)?;
        Ok(())
    }

    fn declare(&mut self, alloc: Global, name: &Name, shape: Shape) -> Result<(), AllocError>
        ensures { OnOk result (known_of self.new ≡ with_shape (known_of self.old) name.now (shape_of shape)) }
    {
        let entry = declared(self.entry(name), shape);
        self.put(alloc, name, entry)
    }

    fn set(&mut self, alloc: Global, name: &Name, setting: Setting) -> Result<(), AllocError>
        ensures { OnOk result (known_of self.new ≡ with_setting (known_of self.old) (setting_of setting) name.now) }
    {
        let entry = set(self.entry(name), setting);
        self.put(alloc, name, entry)
    }

    fn set_integer(&mut self)
        ensures { known_of self.new ≡ with_integer (known_of self.old) }
    {
        self.integer = true;
    }

    pub fn add_port(&mut self, alloc: Global, port: &Port) -> Result<(), AllocError>
        ensures { OnOk result (known_of self.new ≡ after_port (known_of self.old) (port_of port.now)) }
    {
        self.declare(alloc, &port.name.name, port_shape(port))
    }

    pub fn add_item(&mut self, alloc: Global, item: &Item) -> Result<(), AllocError>
        ensures { OnOk result (known_of self.new ≡ after_item (known_of self.old) (item_of item.now)) }
    {
        match item {
            Item::Wire(range, x) => self.declare(alloc, &x.name, Shape::Wire(range.value)),
            Item::Register(range, x) => self.declare(alloc, &x.name, Shape::Register(range.value)),
            Item::Memory(range, x, last) => {
                self.declare(alloc, &x.name, Shape::Memory(range.value, last.value))
            }
            Item::Integer(_) => {
                self.set_integer();
                Ok(())
            }
            Item::Assign(x, _) => self.set(alloc, &x.name, Setting::Assign),
            Item::Initial(x, _) => self.set(alloc, &x.name, Setting::Initial),
            Item::InitialCells(_, _, x, _) => self.set(alloc, &x.name, Setting::Initial),
            Item::Always(x, _) => self.set(alloc, &x.name, Setting::Always),
            Item::AlwaysCell(_, x, _, _) => self.set(alloc, &x.name, Setting::Always),
        }
    }
}
