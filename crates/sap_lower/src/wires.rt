//! Helping wires, one for each right side and width.

ghost use Rattle.std.specs.Prelude.{◌≡◌, [], ◌∷◌, ◌++◌, None, IfOk, OnOk, length, take};
ghost use Rattle.std.specs.Option.{option_map};
ghost use Rattle.sap_maps.specs.Scope.{find};
ghost use Rattle.sap_share.specs.Keys as spec;
ghost use Rattle.sap_share.specs.Names.{helper};
ghost use Rattle.sap_share.specs.Rights.{rights};
ghost use Rattle.sap_lower.specs.Facts.{right_of};
ghost use Rattle.sap_lower.specs.Lowering.{plus, shared};

use crate::parts::Part;
use sap_net::parts::{Name, Operand, Right, Wire};
use sap_share::keys::{RightKey, key};
use sap_share::names::helper_name;
use sap_share::rights::known;
use sap_text::scan::number;
use std::alloc::{AllocError, Global};
use std::collections::HashMap;
use std::marker::Model;

/// The helping wires so far, in order, and by the bytes of its right side the number in the name of each.
#[derive(Drop)]
pub struct Wires {
    list: Vec<Wire>,
    numbers: HashMap<RightKey, u64>,
}

// The bytes of a right side, and the name of its wire, if there is one.
#[derive(Drop)]
struct Lookup {
    key: RightKey,
    name: Option<Name>,
}

impl Model for Wires {
    ghost use Rattle.std.specs.Prelude.{List};
    ghost use Rattle.sap_net.specs.declared.parts.Wire.{Wire};
    ghost use Rattle.sap_share.specs.Rights.{NamesRights};

    ghost Value = { List Wire };

    ghost view = { λ w. w.list.items };

    ghost invariant = { λ w. NamesRights w.numbers w.list.items };
}

impl Wires {
    /// None yet, with room for so many.
    pub fn with_room(alloc: Global, room: usize) -> Result<Wires, AllocError>
        ensures { IfOk result (λ w. w ≡ []) }
    {
        let list = Vec::with_capacity(alloc, room)?;
        let numbers = HashMap::with_capacity(alloc, room)?;
        Ok(Wires { list, numbers })
    }

    /// The right side of the wire of this name, if it is one of the first `before`.
    pub fn right_of(&self, before: usize, name: &Name) -> Option<&Right>
        ensures { option_map (λ r. r.now) result ≡ right_of (take before self.now) name.now }
    {
        let bytes = name.as_bytes();
        let digits = if bytes.is_empty() { bytes } else { &bytes[1..] };
        let number = number(10, digits)?;
        if number >= before as u64 || number >= self.list.len() as u64 {
            return None;
        }
        let wire = &self.list[number as usize];
        if wire.name.same(name) {
            Some(&wire.right)
        } else {
            None
        }
    }

    pub fn len(&self) -> usize
        ensures { result ≡ length self.now }
    {
        self.list.len()
    }

    pub fn into_vec(self) -> Vec<Wire>
        ensures { result.items ≡ self }
    {
        self.list
    }

    fn look_up(&self, alloc: Global, width: u32, right: &Right) -> Result<Lookup, AllocError>
        ensures key { IfOk result (λ l. l.key ≡ spec.key width right.now) }
        ensures name { IfOk result (λ l. l.name ≡ find (rights self.now) (spec.key width right.now)) }
    {
        let key = key(alloc, width, right)?;
        let name = known(&self.numbers, &key);
        Ok(Lookup { key, name })
    }

    /// The wire of this width and right side: the one that is there, or one more.
    pub fn add(&mut self, alloc: Global, width: u32, right: Right) -> Result<Part, AllocError>
        ensures wires { OnOk result (self.new ≡ (plus self.old width right).wires) }
        ensures part { IfOk result (λ p. p ≡ (plus self.old width right).part) }
    {
        let found = self.look_up(alloc, width, &right)?;
        let Lookup { key, name } = found;
        match name {
            Some(name) => Ok(Part {
                operand: Operand::Named(name),
                width,
            }),
            None => self.push(alloc, key, width, right),
        }
    }

    /// One more wire, whose right side is new.
    fn push(
        &mut self,
        alloc: Global,
        key: RightKey,
        width: u32,
        right: Right,
    ) -> Result<Part, AllocError>
        requires bytes { key ≡ spec.key width right }
        requires new { find (rights self.old) key ≡ None }
        ensures wires { OnOk result (self.new ≡ (shared None self.old width right).wires) }
        ensures part { IfOk result (λ p. p ≡ (shared None self.old width right).part) }
    {
        let number = self.list.len() as u64;
        let name = helper_name(number);
        let shown = name.copy(alloc)?;
        self.put(key, number, Wire { name, width, right })?;
        Ok(Part {
            operand: Operand::Named(shown),
            width,
        })
    }

    // The wire of the next number.
    fn put(&mut self, key: RightKey, number: u64, wire: Wire) -> Result<(), AllocError>
        requires bytes { key ≡ spec.key wire.width wire.right }
        requires new { find (rights self.old) key ≡ None }
        requires number { number ≡ length self.old }
        requires named { wire.name ≡ helper number }
        ensures { OnOk result (self.new ≡ self.old ++ wire ∷ []) }
    {
        self.list.push(wire)?;
        if self.numbers.insert(key, number).is_err() {
            self.list.pop();
            return Err(AllocError);
        }
        Ok(())
    }
}
