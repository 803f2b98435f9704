//! What a program is lowered to, one command after another.

ghost use Rattle.std.specs.Prelude.{◌≡◌, ℕ, false, List, None, Some, take, IfOk, OnOk};
ghost use Rattle.std.specs.Map.{keys_of};
ghost use Rattle.sap_net.specs.NameMaps.{place_in};
ghost use Rattle.sap_ir.specs.Calcs.{action_of, commands_of, term_of};
ghost use Rattle.sap_ir.specs.Program.{source_of};
ghost use Rattle.sap_fold.specs.Folding.{same_operand};
ghost use Rattle.sap_lower.specs.Commands.{assigned, chosen, chosen_unless, low_action, low_commands, merged_port, port_of, written};
ghost use Rattle.sap_lower.specs.Lowered.{first_lowering};
ghost use Rattle.sap_lower.specs.Lowering.{present};
ghost use Rattle.sap_lower.specs.Reads.{entries_seen};

use crate::calc::{lower_calc, nothing_yet, seen_part};
use crate::facts::{Fact, facts_of};
use crate::first;
use crate::parts::{Part, WritePort};
use crate::wires::Wires;
use crate::write_ports::{merge, present_port};
use crate::writes::write_calc;
use sap_fold::rules::same;
use sap_ir::guarded::{Act, GuardedCmd};
use sap_ir::program::Guarded;
use sap_net::parts::{Name, Operand, Right};
use sap_share::table::Table;
use std::alloc::{AllocError, Global};

/// The helping wires so far, what each name stands for, and the write ports of the memories.
#[derive(Drop)]
pub struct Lowering {
    pub wires: Wires,
    pub entries: Table<Part>,
    pub ports: Table<WritePort>,
}

impl Lowering {
    /// Before the first command.
    pub fn new(alloc: Global, source: &Guarded) -> Result<Lowering, AllocError>
        ensures { IfOk result (λ l. l ≡ first_lowering (source_of source.now)) }
    {
        let entries = first::entries(alloc, source)?;
        let ports = first::ports(alloc, source.memories())?;
        let wires = Wires::with_room(alloc, source.cmds().len())?;
        Ok(Lowering {
            wires,
            entries,
            ports,
        })
    }

    /// Whether a name stands for this where the facts hold.
    fn has(
        &self,
        alloc: Global,
        facts: &[Fact],
        before: usize,
        name: &Name,
        value: &Operand,
    ) -> Result<bool, AllocError>
        ensures { IfOk result (λ kept. kept ≡ same_operand value.now (present (entries_seen (take before self.now.wires) facts.now self.now.entries) name.now).operand) }
    {
        let part = seen_part(alloc, &self.wires, &self.entries, facts, before, name)?;
        Ok(same(value, &part.operand))
    }

    /// An assignment under a condition where these facts hold.
    fn set(
        &mut self,
        alloc: Global,
        facts: &[Fact],
        before: usize,
        name: &Name,
        when: Operand,
        value: Operand,
    ) -> Result<(), AllocError>
        ensures { OnOk result (self.new ≡ assigned self.old name.now (chosen (entries_seen (take before self.old.wires) facts.now self.old.entries) self.old.entries name.now when value self.old.wires)) }
    {
        let kept = self.has(alloc, facts, before, name, &value)?;
        self.set_unless(alloc, kept, name, when, value)
    }

    /// An assignment under a condition, if it isn't known to change nothing.
    #[tactic(auto, using(crate::proofs::Unchanged::kept_itself))]
    fn set_unless(
        &mut self,
        alloc: Global,
        kept: bool,
        name: &Name,
        when: Operand,
        value: Operand,
    ) -> Result<(), AllocError>
        ensures { OnOk result (self.new ≡ assigned self.old name.now (chosen_unless kept self.old.entries name.now when value self.old.wires)) }
    {
        if kept {
            return Ok(());
        }
        self.choose(alloc, name, when, value)
    }

    /// A choice between what is assigned and what was there.
    fn choose(
        &mut self,
        alloc: Global,
        name: &Name,
        when: Operand,
        value: Operand,
    ) -> Result<(), AllocError>
        ensures { OnOk result (self.new ≡ assigned self.old name.now (chosen_unless false self.old.entries name.now when value self.old.wires)) }
    {
        match self.entries.place(name) {
            Some(place) => self.set_at(alloc, place, when, value),
            None => self.set_none(alloc, when, value),
        }
    }

    /// An assignment to the name that has this place.
    fn set_at(
        &mut self,
        alloc: Global,
        place: usize,
        when: Operand,
        value: Operand,
    ) -> Result<(), AllocError>
        requires { (n : List ℕ) × (place_in (keys_of self.old.entries) n ≡ Some place) }
        ensures { OnOk result ((n : List ℕ) → place_in (keys_of self.old.entries) n ≡ Some place → self.new ≡ assigned self.old n (chosen_unless false self.old.entries n when value self.old.wires)) }
    {
        let old = self.entries.at(place).copy(alloc)?;
        let right = Right::Choose(when, value, old.operand);
        let part = self.wires.add(alloc, old.width, right)?;
        self.entries.replace_at(place, part);
        Ok(())
    }

    /// An assignment to a name that stands for nothing.
    fn set_none(&mut self, alloc: Global, when: Operand, value: Operand) -> Result<(), AllocError>
        ensures { OnOk result ((n : List ℕ) → place_in (keys_of self.old.entries) n ≡ None → self.new ≡ assigned self.old n (chosen_unless false self.old.entries n when value self.old.wires)) }
    {
        let old = nothing_yet();
        let right = Right::Choose(when, value, old.operand);
        self.wires.add(alloc, old.width, right)?;
        Ok(())
    }

    /// A write under a condition.
    fn put(
        &mut self,
        alloc: Global,
        memory: &Name,
        when: Operand,
        index: Operand,
        value: Operand,
    ) -> Result<(), AllocError>
        ensures { OnOk result (self.new ≡ written self.old memory.now (merged_port (port_of self.old.ports memory.now) when index value self.old.wires)) }
    {
        let mut port = present_port(alloc, &self.ports, memory)?;
        merge(alloc, &mut self.wires, &mut port, when, index, value)?;
        self.ports.replace(memory, port);
        Ok(())
    }

    fn command(
        &mut self,
        alloc: Global,
        memories: &Table<(u32, u32)>,
        cmd: &GuardedCmd,
    ) -> Result<(), AllocError>
        ensures { OnOk result (self.new ≡ low_action memories.now self.old (term_of cmd.now.when) (action_of cmd.now.act)) }
    {
        let nothing: &[Fact] = &[];
        let when = lower_calc(
            alloc,
            &mut self.wires,
            &self.entries,
            nothing,
            0,
            memories,
            &cmd.when,
        )?;
        let before = self.wires.len();
        let facts = facts_of(alloc, &self.wires, &when.operand)?;
        let facts = facts.as_slice();
        match &cmd.act {
            Act::Set(name, value) => {
                let value = lower_calc(
                    alloc,
                    &mut self.wires,
                    &self.entries,
                    facts,
                    before,
                    memories,
                    value,
                )?;
                self.set(alloc, facts, before, name, when.operand, value.operand)
            }
            Act::Put {
                memory,
                index,
                value,
            } => {
                let index = lower_calc(
                    alloc,
                    &mut self.wires,
                    &self.entries,
                    facts,
                    before,
                    memories,
                    index,
                )?;
                let write = write_calc(
                    alloc,
                    &mut self.wires,
                    &self.entries,
                    facts,
                    before,
                    memories,
                    memory,
                    when.operand,
                    &index.operand,
                    value,
                )?;
                self.put(alloc, memory, write.when, index.operand, write.value)
            }
        }
    }

    /// All assignments and writes, in order. Memories have their widths and depths.
    pub fn commands(
        &mut self,
        alloc: Global,
        memories: &Table<(u32, u32)>,
        cmds: &[GuardedCmd],
    ) -> Result<(), AllocError>
        ensures { OnOk result (self.new ≡ low_commands memories.now self.old (commands_of cmds.now)) }
    {
        for cmd in cmds {
            self.command(alloc, memories, cmd)?;
        }
        Ok(())
    }
}
