// The module of a system of parts.

ghost use Rattle.std.specs.Prelude.{◌≡◌, ◌≢◌, ◌≤◌, ◌+◌, ◌⊎◌, length, IfErr, IfOk, OnOk, IsErrOf, IsOkUnless};
ghost use Rattle.sap_net.specs.IsNetlist.{IsNetlist};
ghost use Rattle.sap_system.specs.Rules.{part_names};
ghost use Rattle.sap_system.specs.Wires.{FirstLinkFault, KeepsWires};
ghost use Rattle.sap_system.specs.declared.link_fault.LinkFault.{LinkFault as AnyFault};
ghost use Rattle.sap_link.specs.Designs.{WellLinked};
ghost use Rattle.sap_linked.specs.Netlist.{linked_net};
ghost use Rattle.sap_linked.specs.Parts.{NamesFit};
ghost use Rattle.sap_linked.specs.Designs.{named_system, trees};
ghost use Rattle.sap_linker.specs.Given.{AreOver, WiresMeet, design_names, designs_of, net_at, nets_of, surroundings};
ghost use Rattle.sap_linker.specs.Modules.{IsModuleOfSystem};
ghost use Rattle.sap_linker.specs.Linking.{IsLinked, inputs_within, with_ports};
ghost use Rattle.sap_linker.specs.Sizes.{HasFewItems};

use crate::given::{feeds, named_nets};
use crate::parts::LinkedPart;
use crate::wires::wires_between;
use sap_joined::join;
use sap_lattice::lattice::Lattice;
use sap_net::netlist::Netlist;
use sap_system::{LinkFault, SystemFile};
use sap_trim::trim::trim;
use sap_wiring::Wire;
use std::alloc::{AllocError, Global};

/// The netlists of all parts in one, where wires feed inputs.
fn joined_net(
    alloc: Global,
    lattice: &Lattice,
    parts: &[LinkedPart<'_>],
    wires: &[Wire],
) -> Result<Netlist, AllocError>
    requires parts { AreOver lattice.now parts.now }
    requires names { NamesFit (named_system lattice.now (designs_of parts.now) wires.now) }
    requires linked { WellLinked lattice.now (trees (designs_of parts.now)) wires.now }
    requires wires { WiresMeet (designs_of parts.now) wires.now }
    ensures { IfOk result (λ n. n ≡ linked_net (named_system lattice.now (designs_of parts.now) wires.now) (net_at parts.now)) }
{
    lattice.lawful();
    sap_joined::laws::joined_is_linked();
    sap_linked::laws::linked_net_is_netlist();
    let nets = named_nets(alloc, parts)?;
    let feeds = feeds(alloc, lattice, parts, wires)?;
    let whole = join(alloc, lattice.width(), nets.as_slice(), feeds.as_slice())?;
    Ok(Netlist::new(whole))
}

/// How many ports stand in front of what feeds inputs, of which there are as many as inputs of parts are none of the whole.
fn count_shown(whole: &Netlist, parts: &[LinkedPart<'_>]) -> usize
    requires { inputs_within parts.now ≤ length whole.now.ports }
    ensures { result + inputs_within parts.now ≡ length whole.now.ports + length whole.now.inputs }
{
    let mut others = whole.ports().len();
    for part in parts {
        others -= part.netlist.inputs().len();
    }
    others + whole.inputs().len()
}

/// The netlist with so many of its ports.
fn keep_ports(netlist: Netlist, count: usize) -> Netlist
    requires { IsNetlist (with_ports count netlist) }
    ensures { result ≡ with_ports count netlist }
{
    let mut parts = netlist.into_parts();
    parts.ports.truncate(count);
    Netlist::new(parts)
}

/// The module of parts and wires.
fn module(
    alloc: Global,
    lattice: &Lattice,
    parts: &[LinkedPart<'_>],
    wires: &[Wire],
) -> Result<Netlist, AllocError>
    requires parts { AreOver lattice.now parts.now }
    requires names { NamesFit (named_system lattice.now (designs_of parts.now) wires.now) }
    requires linked { WellLinked lattice.now (trees (designs_of parts.now)) wires.now }
    requires wires { WiresMeet (designs_of parts.now) wires.now }
    ensures is_module { IfOk result (λ n. IsModuleOfSystem lattice.now (designs_of parts.now) wires.now n) }
    ensures small { IfOk result (λ n. HasFewItems (nets_of parts.now) (length wires.now) n) }
{
    lattice.lawful();
    sap_linked::laws::inputs_in_order();
    crate::laws::small_nets_are_modules();
    let whole = joined_net(alloc, lattice, parts, wires)?;
    whole.rules();
    let shown = count_shown(&whole, parts);
    let small = trim(alloc, whole)?;
    small.rules();
    Ok(keep_ports(small, shown))
}

/// The module of parts and the wires that the texts of a system stand for, or the first rule that a text breaks.
fn linked(
    alloc: Global,
    lattice: &Lattice,
    system: &SystemFile,
    parts: &[LinkedPart<'_>],
) -> Result<Netlist, LinkFault>
    requires named { design_names (designs_of parts.now) ≡ part_names system.now.parts }
    requires parts { AreOver lattice.now parts.now }
    ensures linked { IfOk result (λ n. IsLinked lattice.now (designs_of parts.now) system.now.wires n) }
    ensures small { IfOk result (λ n. HasFewItems (nets_of parts.now) (length system.now.wires) n) }
    ensures kept { OnOk result (KeepsWires (surroundings lattice.now (designs_of parts.now)) system.now.wires) }
    ensures refused { IfErr result (λ fault. fault ≢ LinkFault.Memory → FirstLinkFault (surroundings lattice.now (designs_of parts.now)) system.now.wires fault) }
{
    sap_wiring::laws::file_names_serve();
    sap_wiring::laws::wires_of_texts_fit();
    crate::laws::file_names_fit();
    system.kept();
    let wires = wires_between(alloc, lattice, parts, system.wires())?;
    Ok(module(alloc, lattice, parts, wires.as_slice())?)
}

/// The module of a system that has these parts, linked by the wires of its file, or the first rule that a wire breaks.
pub fn link(
    alloc: Global,
    lattice: &Lattice,
    system: &SystemFile,
    parts: &[LinkedPart<'_>],
) -> Result<Netlist, LinkFault>
    requires named { design_names (designs_of parts.now) ≡ part_names system.now.parts }
    requires parts { AreOver lattice.now parts.now }
    ensures linked { IfOk result (λ n. IsLinked lattice.now (designs_of parts.now) system.now.wires n) }
    ensures small { IfOk result (λ n. HasFewItems (nets_of parts.now) (length system.now.wires) n) }
    ensures kept { OnOk result (KeepsWires (surroundings lattice.now (designs_of parts.now)) system.now.wires) }
    ensures refused { IfErr result (λ fault. fault ≢ LinkFault.Memory → FirstLinkFault (surroundings lattice.now (designs_of parts.now)) system.now.wires fault) }
    ensures valid { KeepsWires (surroundings lattice.now (designs_of parts.now)) system.now.wires → IsOkUnless result LinkFault.Memory }
    ensures exact { (fault : AnyFault) → FirstLinkFault (surroundings lattice.now (designs_of parts.now)) system.now.wires fault
        → IsErrOf result fault ⊎ IsErrOf result LinkFault.Memory }
{
    linked(alloc, lattice, system, parts)
}
