//! The designs of a system's parts, added one after another, and then the module of all.

ghost use Rattle.std.specs.Prelude.{◌≡◌, ◌≢◌, ◌⊎◌, ◌<◌, ◌≤◌, [], length, IfErr, IfOk, IsErrOf, IsOkUnless, OnErr, OnOk};
ghost use Rattle.sap_check.specs.Checked.{levels_in, tree_in};
ghost use Rattle.sap_system.specs.Wires.{FirstLinkFault, KeepsWires};
ghost use Rattle.sap_system.specs.declared.link_fault.LinkFault.{LinkFault as AnyFault};
ghost use Rattle.sap_linked.specs.Designs.{IsNetOfDesign};
ghost use Rattle.sap_linker.specs.Linking.{IsLinked};
ghost use Rattle.sap_linker.specs.Adding.{AddsPart, added_designs, added_nets, surroundings_of};
ghost use Rattle.sap_linker.specs.Sizes.{HasFewItems};

use crate::module::link;
use crate::named::under_names;
use crate::parts::AddedPart;
use sap_check::Checked;
use sap_lattice::lattice::Lattice;
use sap_net::netlist::Netlist;
use sap_system::{LinkFault, SystemFile};
use std::alloc::{AllocError, Global};
use std::marker::Model;

/// A system to which the designs of its parts are added in order.
#[derive(Drop)]
pub struct Linker<'a> {
    system: SystemFile,
    lattice: &'a Lattice,
    parts: Vec<AddedPart<'a>>,
}

impl<'a> Model for Linker<'a> {
    ghost use Rattle.std.specs.Prelude.{◌≤◌, length};
    ghost use Rattle.std.specs.Coded.{codes};
    ghost use Rattle.sap_check.specs.contracts.checked.Checked as checked;
    ghost use Rattle.sap_linker.specs.Adding.{Adding, AreAddedOver};

    ghost Value = { Adding };

    ghost coded = { Prim.hlevel (codes, checked.the_row.coded) };

    ghost view = { λ l. record { system = l.system; levels = l.lattice.now; parts = l.parts.items } };

    ghost invariant = { λ l. AreAddedOver l.lattice.now l.parts.items × (length l.parts.items ≤ length l.system.parts) };
}

impl<'a> Linker<'a> {
    /// A system without its parts, over the levels of a lattice. Where there is no memory, hands it back.
    pub fn new(
        alloc: Global,
        system: SystemFile,
        lattice: &'a Lattice,
    ) -> Result<Linker<'a>, (SystemFile, AllocError)>
        ensures begun { IfOk result (λ l. l ≡ record { system = system; levels = lattice.now; parts = [] }) }
        ensures handed_back { IfErr result (λ e. e.0 ≡ system) }
    {
        match Vec::with_capacity(alloc, system.parts().len()) {
            Ok(parts) => Ok(Linker {
                system,
                lattice,
                parts,
            }),
            Err(error) => Err((system, error)),
        }
    }

    /// Adds the next part: its design, which is one over the levels of the system, and a netlist that stands for it and starts as it does.
    pub fn add(&mut self, checked: &'a Checked, netlist: &'a Netlist) -> Result<(), AllocError>
        requires next { length self.old.parts < length self.old.system.parts }
        requires levels { levels_in checked.now ≡ self.old.levels }
        requires net { IsNetOfDesign self.old.levels (tree_in checked.now) netlist.now }
        ensures added { OnOk result (AddsPart self.old self.new checked.now netlist.now) }
        ensures refused { OnErr result (self.new ≡ self.old) }
    {
        checked.lawful();
        self.parts.push(AddedPart { checked, netlist })?;
        Ok(())
    }

    fn linked(&self, alloc: Global) -> Result<Netlist, LinkFault>
        requires { length self.now.parts ≡ length self.now.system.parts }
        ensures linked { IfOk result (λ n. IsLinked self.now.levels (added_designs self.now) self.now.system.wires n) }
        ensures small { IfOk result (λ n. HasFewItems (added_nets self.now) (length self.now.system.wires) n) }
        ensures kept { OnOk result (KeepsWires (surroundings_of self.now) self.now.system.wires) }
        ensures refused { IfErr result (λ fault. fault ≢ LinkFault.Memory → FirstLinkFault (surroundings_of self.now) self.now.system.wires fault) }
        ensures valid { KeepsWires (surroundings_of self.now) self.now.system.wires → IsOkUnless result LinkFault.Memory }
        ensures exact { (fault : AnyFault) → FirstLinkFault (surroundings_of self.now) self.now.system.wires fault
            → IsErrOf result fault ⊎ IsErrOf result LinkFault.Memory }
    {
        let parts = under_names(alloc, self.system.parts(), self.parts.as_slice())?;
        link(alloc, self.lattice, &self.system, parts.as_slice())
    }

    /// The module of all parts and of the wires between them, or the first rule that a wire breaks; then hands the linker back.
    pub fn finish(self, alloc: Global) -> Result<Netlist, (Linker<'a>, LinkFault)>
        requires { length self.parts ≡ length self.system.parts }
        ensures linked { IfOk result (λ n. IsLinked self.entry.levels (added_designs self.entry) self.entry.system.wires n) }
        ensures small { IfOk result (λ n. HasFewItems (added_nets self.entry) (length self.entry.system.wires) n) }
        ensures kept { OnOk result (KeepsWires (surroundings_of self.entry) self.entry.system.wires) }
        ensures refused { IfErr result (λ e. e.1 ≢ LinkFault.Memory → FirstLinkFault (surroundings_of self.entry) self.entry.system.wires e.1) }
        ensures handed_back { IfErr result (λ e. e.0 ≡ self.entry) }
        ensures valid { KeepsWires (surroundings_of self.entry) self.entry.system.wires → IsOkUnless result (self.entry, LinkFault.Memory) }
        ensures exact { (fault : AnyFault) → FirstLinkFault (surroundings_of self.entry) self.entry.system.wires fault
            → IsErrOf result (self.entry, fault) ⊎ IsErrOf result (self.entry, LinkFault.Memory) }
    {
        match self.linked(alloc) {
            Ok(netlist) => Ok(netlist),
            Err(fault) => Err((self, fault)),
        }
    }
}
