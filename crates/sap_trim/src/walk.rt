//! The wires of a netlist one after another, and what each of its names stands for over the new ones.

ghost use Rattle.std.specs.Prelude.{◌≡◌, ◌<◌, ◌⊎◌, List, [], ◌∷◌, ◌++◌, length, map, IfOk, OnOk};
ghost use Rattle.sap_maps.specs.Maps as spec;
ghost use Rattle.sap_maps.specs.Scope.{find};
ghost use Rattle.sap_fold.specs.Folding.{settled};
ghost use Rattle.sap_share.specs.Sets.{holds};
ghost use Rattle.sap_fold.specs.Settled.{Orderly};
ghost use Rattle.sap_trim.specs.Needed.{is_marked, marked};
ghost use Rattle.sap_trim.specs.Stays.{AllStay};
ghost use Rattle.sap_trim.specs.Walked.{Begins, Folds, Settles, StandForThemselves, Starts, StartsAt, Steps, Walked, itself, state_of, themselves};

use crate::replace::replace;
use crate::stays::{Stay, keeps_start};
use sap_fold::folding::fold_into;
use sap_fold::wires::Wires;
use sap_net::netlist::Netlist;
use sap_net::parts::{Input, Name, Operand, Register, Right, Wire};
use sap_share::name_set::NameSet;
use sap_share::table::Table;
use std::alloc::{AllocError, Global};

/// The wires so far, and what each name of the netlist stands for over them.
#[derive(Drop)]
pub struct Walk {
    pub wires: Wires,
    pub stands: Table<Operand>,
}

fn entry(alloc: Global, name: &Name) -> Result<(Name, Operand), AllocError>
    ensures { IfOk result (λ e. e ≡ itself name.now) }
{
    let stands = name.copy(alloc)?;
    let name = name.copy(alloc)?;
    Ok((name, Operand::Named(stands)))
}

fn add_inputs(
    alloc: Global,
    entries: &mut Vec<(Name, Operand)>,
    inputs: &[Input],
) -> Result<(), AllocError>
    ensures { OnOk result (entries.new.items ≡ entries.old.items ++ map itself (map (λ i. i.name) inputs.now)) }
{
    for input in inputs {
        entries.push(entry(alloc, &input.name)?)?;
    }
    Ok(())
}

fn add_registers(
    alloc: Global,
    entries: &mut Vec<(Name, Operand)>,
    registers: &[Register],
) -> Result<(), AllocError>
    ensures { OnOk result (entries.new.items ≡ entries.old.items ++ map itself (map (λ r. r.name) registers.now)) }
{
    for register in registers {
        entries.push(entry(alloc, &register.name)?)?;
    }
    Ok(())
}

/// Inputs and registers stand for themselves, and there is room for the wires.
fn themselves(alloc: Global, netlist: &Netlist) -> Result<Table<Operand>, AllocError>
    ensures { IfOk result (λ t. t ≡ themselves netlist.now) }
{
    let edge = netlist
        .inputs()
        .len()
        .saturating_add(netlist.registers().len());
    let mut entries = Vec::with_capacity(alloc, edge.saturating_add(netlist.wires().len()))?;
    add_inputs(alloc, &mut entries, netlist.inputs())?;
    add_registers(alloc, &mut entries, netlist.registers())?;
    Table::new(alloc, entries)
}

/// Lets a register that keeps its start stand for that.
fn bind_start(
    alloc: Global,
    stands: &mut Table<Operand>,
    stays: &Table<Stay>,
    register: &Register,
) -> Result<(), AllocError>
    ensures { OnOk result ((ws : List Wire) → AllStay ws (find stays.now) → (x : spec.Name) → (find stands.new x ≡ find stands.old x) ⊎ StartsAt ws x (find stands.new x) register.now) }
{
    if !keeps_start(alloc, stays, register)? {
        return Ok(());
    }
    let start = Operand::Constant {
        width: register.width,
        value: register.start,
    };
    stands.put(alloc, &register.name, start)
}

fn bind_starts(
    alloc: Global,
    stands: &mut Table<Operand>,
    stays: &Table<Stay>,
    registers: &[Register],
) -> Result<(), AllocError>
    ensures { OnOk result ((ws : List Wire) → AllStay ws (find stays.now) → (x : spec.Name) → Starts ws registers.now x (find stands.old x) (find stands.new x)) }
{
    for register in registers {
        bind_start(alloc, stands, stays, register)?;
    }
    Ok(())
}

impl Walk {
    /// No wires yet, and inputs and registers stand for themselves.
    pub fn new(alloc: Global, netlist: &Netlist) -> Result<Walk, AllocError>
        ensures begins { IfOk result (λ w. Begins netlist.now (state_of w)) }
        ensures themselves { IfOk result (λ w. StandForThemselves netlist.now (state_of w)) }
        ensures orderly { IfOk result (λ w. Orderly w.wires.numbers w.wires.list.items) }
    {
        let stands = themselves(alloc, netlist)?;
        let wires = Wires::new(alloc);
        Ok(Walk { wires, stands })
    }

    /// No wires yet, and a register that keeps its start stands for that.
    pub fn with_starts(
        alloc: Global,
        netlist: &Netlist,
        stays: Table<Stay>,
    ) -> Result<Walk, AllocError>
        requires { AllStay netlist.now.wires (find stays) }
        ensures begins { IfOk result (λ w. Begins netlist.now (state_of w)) }
        ensures orderly { IfOk result (λ w. Orderly w.wires.numbers w.wires.list.items) }
    {
        let mut stands = themselves(alloc, netlist)?;
        bind_starts(alloc, &mut stands, &stays, netlist.registers())?;
        let wires = Wires::new(alloc);
        Ok(Walk { wires, stands })
    }

    /// Lets a name stand for what has the value of a right side.
    fn step(
        &mut self,
        alloc: Global,
        taken: &NameSet,
        name: &Name,
        width: u32,
        right: Right,
    ) -> Result<(), AllocError>
        requires { Orderly self.old.wires.numbers self.old.wires.list.items }
        ensures orderly { OnOk result (Orderly self.new.wires.numbers self.new.wires.list.items) }
        ensures steps { OnOk result (Steps (holds taken.now) (state_of self.old) name.now width (settled width right) (state_of self.new)) }
    {
        let operand = self.wires.provide(alloc, taken, width, right)?;
        self.stands.put(alloc, name, operand)
    }

    fn fold_wire(&mut self, alloc: Global, taken: &NameSet, wire: &Wire) -> Result<(), AllocError>
        requires { Orderly self.old.wires.numbers self.old.wires.list.items }
        ensures orderly { OnOk result (Orderly self.new.wires.numbers self.new.wires.list.items) }
        ensures folds { OnOk result (Folds (holds taken.now) (state_of self.old) wire.now (state_of self.new)) }
    {
        let replaced = replace(alloc, &self.stands, &wire.right)?;
        let operand = fold_into(alloc, &mut self.wires, taken, wire.width, replaced)?;
        self.stands.put(alloc, &wire.name, operand)
    }

    /// A wire with its right side folded.
    fn settle_wire(&mut self, alloc: Global, taken: &NameSet, wire: &Wire) -> Result<(), AllocError>
        requires { Orderly self.old.wires.numbers self.old.wires.list.items }
        ensures orderly { OnOk result (Orderly self.new.wires.numbers self.new.wires.list.items) }
        ensures settles { OnOk result (Settles (holds taken.now) (state_of self.old) wire.now (state_of self.new)) }
    {
        let right = replace(alloc, &self.stands, &wire.right)?;
        self.step(alloc, taken, &wire.name, wire.width, right)
    }

    /// All wires, each right side folded by itself.
    pub fn settle_all(
        &mut self,
        alloc: Global,
        taken: &NameSet,
        wires: &[Wire],
    ) -> Result<(), AllocError>
        requires { Orderly self.old.wires.numbers self.old.wires.list.items }
        ensures orderly { OnOk result (Orderly self.new.wires.numbers self.new.wires.list.items) }
        ensures walked { OnOk result (Walked (Settles (holds taken.now)) (state_of self.old) wires.now (state_of self.new)) }
    {
        for wire in wires {
            self.settle_wire(alloc, taken, wire)?;
        }
        Ok(())
    }

    /// A wire with its right side folded, if it is kept.
    fn settle_if_kept(
        &mut self,
        alloc: Global,
        taken: &NameSet,
        kept: &[bool],
        place: usize,
        wire: &Wire,
    ) -> Result<(), AllocError>
        requires orderly { Orderly self.old.wires.numbers self.old.wires.list.items }
        requires place { place < length kept.now }
        ensures orderly { OnOk result (Orderly self.new.wires.numbers self.new.wires.list.items) }
        ensures walked { OnOk result (Walked (Settles (holds taken.now)) (state_of self.old) (marked (is_marked kept.now place ∷ []) (wire.now ∷ [])) (state_of self.new)) }
    {
        if !kept[place] {
            return Ok(());
        }
        self.settle_wire(alloc, taken, wire)
    }

    /// All wires, folded by what they and the wires that they read say.
    pub fn fold_all(
        &mut self,
        alloc: Global,
        taken: &NameSet,
        wires: &[Wire],
    ) -> Result<(), AllocError>
        requires { Orderly self.old.wires.numbers self.old.wires.list.items }
        ensures orderly { OnOk result (Orderly self.new.wires.numbers self.new.wires.list.items) }
        ensures walked { OnOk result (Walked (Folds (holds taken.now)) (state_of self.old) wires.now (state_of self.new)) }
    {
        for wire in wires {
            self.fold_wire(alloc, taken, wire)?;
        }
        Ok(())
    }

    /// The wires that are kept, each right side folded by itself.
    pub fn settle_kept(
        &mut self,
        alloc: Global,
        taken: &NameSet,
        kept: &[bool],
        wires: &[Wire],
    ) -> Result<(), AllocError>
        requires orderly { Orderly self.old.wires.numbers self.old.wires.list.items }
        requires long { length kept.now ≡ length wires.now }
        ensures orderly { OnOk result (Orderly self.new.wires.numbers self.new.wires.list.items) }
        ensures walked { OnOk result (Walked (Settles (holds taken.now)) (state_of self.old) (marked kept.now wires.now) (state_of self.new)) }
    {
        for (k, wire) in wires.iter().enumerate() {
            self.settle_if_kept(alloc, taken, kept, k, wire)?;
        }
        Ok(())
    }
}
