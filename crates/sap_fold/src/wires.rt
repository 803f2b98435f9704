//! Helping wires, one for each right side and width, that fold no further.

ghost use Rattle.std.specs.Prelude.{◌≡◌, ◌≤◌, ◌<◌, ◌^◌, [], ℕ, None, Some, IfOk, IfSome, OnOk, false, length};
ghost use Rattle.sap_maps.specs.Scope.{find};
ghost use Rattle.sap_share.specs.Keys as spec;
ghost use Rattle.sap_share.specs.Names.{helper};
ghost use Rattle.sap_share.specs.Rights.{NamesRights, rights};
ghost use Rattle.sap_fold.specs.Folding.{folded, settled};
ghost use Rattle.sap_share.specs.Sets.{holds};
ghost use Rattle.sap_fold.specs.Settled.{Orderly, is_copy};
ghost use Rattle.sap_fold.specs.Wires.{Adds, AddsNew, HasWire, IsFree, Provides};

use crate::fold::settle;
use sap_net::parts::{Name, Operand, Right, Wire};
use sap_share::keys::{RightKey, key};
use sap_share::name_set::NameSet;
use sap_share::names::helper_name;
use sap_share::rights::known;
use std::alloc::{AllocError, Global};
use std::collections::HashMap;

/// The helping wires so far, in order, and by the bytes of its right side the number in the name of each. The next one has number `next` or the first
/// behind it that is not taken, so that the numbers rise.
#[derive(Drop)]
pub struct Wires {
    pub list: Vec<Wire>,
    pub numbers: HashMap<RightKey, u64>,
    pub next: u64,
}

/// A number, and the name of its helping wire.
#[derive(Drop)]
struct Free {
    number: u64,
    name: Name,
}

/// The first number from `from` on whose name is not taken. A netlist never has so many names that there is none.
fn free_name(taken: &NameSet, from: u64) -> Result<Free, AllocError>
    ensures { IfOk result (λ f. IsFree (holds taken.now) from f.number f.name) }
{
    for number in from..u64::MAX {
        let name = helper_name(number);
        if !taken.has(&name) {
            return Ok(Free { number, name });
        }
    }
    Err(AllocError)
}

/// The number in the name of a helping wire.
fn number_in(name: &Name) -> usize
    ensures { (k : ℕ) → k < 2 ^ 64 → name.now ≡ helper k → result ≡ k }
{
    let mut number: usize = 0;
    for byte in name.as_bytes() {
        if byte.is_ascii_digit() {
            number = number
                .wrapping_mul(10)
                .wrapping_add(usize::from(*byte - b'0'));
        }
    }
    number
}

impl Wires {
    pub fn new(alloc: Global) -> Wires
        ensures list { result.list.items ≡ [] }
        ensures names { NamesRights result.numbers [] }
        ensures next { result.next ≡ 0 }
    {
        Wires {
            list: Vec::new(alloc),
            numbers: HashMap::new(alloc),
            next: 0,
        }
    }

    /// Where a wire of a name has to be, if there is one: as many places below its number as were left out before it, and these are at most all.
    fn place(&self, name: &Name) -> usize
        ensures { result ≤ length self.now.list.items }
    {
        let number = number_in(name);
        let wires = self.list.as_slice();
        let skipped = (self.next as usize).saturating_sub(wires.len());
        let low = number.saturating_sub(skipped).min(wires.len());
        let high = number.min(wires.len());
        if high < low {
            return low;
        }
        low + wires[low..high].partition_point(|wire| number_in(&wire.name) < number)
    }

    /// The wire of a name, if it is one of these.
    pub(crate) fn wire(&self, name: &Name) -> Option<&Wire>
        ensures { IfSome result (λ w. HasWire self.now.list.items name.now w.now) }
    {
        let place = self.place(name);
        if place >= self.list.len() {
            return None;
        }
        let wire = &self.list[place];
        if !wire.name.same(name) {
            return None;
        }
        Some(wire)
    }

    /// The operand that has the value of a right side, after one more wire where it needs one.
    pub fn provide(
        &mut self,
        alloc: Global,
        taken: &NameSet,
        width: u32,
        right: Right,
    ) -> Result<Operand, AllocError>
        requires { Orderly self.old.numbers self.old.list.items }
        ensures orderly { OnOk result (Orderly self.new.numbers self.new.list.items) }
        ensures provides { IfOk result (λ o. Provides (holds taken.now) self.old.list.items self.old.next width (settled width right) o self.new.list.items self.new.next) }
    {
        let settled = settle(width, right);
        self.provide_settled(alloc, taken, width, settled)
    }

    /// The operand that has the value of a right side that folds no further.
    fn provide_settled(
        &mut self,
        alloc: Global,
        taken: &NameSet,
        width: u32,
        right: Right,
    ) -> Result<Operand, AllocError>
        requires orderly { Orderly self.old.numbers self.old.list.items }
        requires settled { folded width right ≡ right }
        ensures orderly { OnOk result (Orderly self.new.numbers self.new.list.items) }
        ensures provides { IfOk result (λ o. Provides (holds taken.now) self.old.list.items self.old.next width right o self.new.list.items self.new.next) }
    {
        match right {
            Right::Copy(operand) => Ok(operand),
            right => {
                let name = self.add(alloc, taken, width, right)?;
                Ok(Operand::Named(name))
            }
        }
    }

    /// The name of the wire of this width and right side: the one that is there, or one more.
    fn add(
        &mut self,
        alloc: Global,
        taken: &NameSet,
        width: u32,
        right: Right,
    ) -> Result<Name, AllocError>
        requires orderly { Orderly self.old.numbers self.old.list.items }
        requires settled { folded width right ≡ right }
        requires calculated { is_copy right ≡ false }
        ensures orderly { OnOk result (Orderly self.new.numbers self.new.list.items) }
        ensures adds { IfOk result (λ n. Adds (holds taken.now) self.old.list.items self.old.next width right n self.new.list.items self.new.next) }
    {
        let key = key(alloc, width, &right)?;
        match known(&self.numbers, &key) {
            Some(name) => Ok(name),
            None => self.push(alloc, taken, key, width, right),
        }
    }

    /// One more wire, whose right side is new.
    fn push(
        &mut self,
        alloc: Global,
        taken: &NameSet,
        key: RightKey,
        width: u32,
        right: Right,
    ) -> Result<Name, AllocError>
        requires orderly { Orderly self.old.numbers self.old.list.items }
        requires bytes { key ≡ spec.key width right }
        requires new { find (rights self.old.list.items) (spec.key width right) ≡ None }
        requires settled { folded width right ≡ right }
        requires calculated { is_copy right ≡ false }
        ensures orderly { OnOk result (Orderly self.new.numbers self.new.list.items) }
        ensures adds { IfOk result (λ n. AddsNew (holds taken.now) self.old.list.items self.old.next width right n self.new.list.items self.new.next) }
    {
        let free = free_name(taken, self.next)?;
        let shown = free.name.copy(alloc)?;
        self.list.push(Wire {
            name: free.name,
            width,
            right,
        })?;
        self.numbers.insert(key, free.number)?;
        self.next = free.number + 1;
        Ok(shown)
    }
}
