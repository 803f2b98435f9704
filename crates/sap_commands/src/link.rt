//! The command `link`.

ghost use Rattle.std.specs.Prelude.{◌≡◌, ◌<◌, IfErr, IfOk, Some, length, map, slice_get};
ghost use Rattle.std.specs.List.{AllByRecursion};
ghost use Rattle.sap_check.specs.Checked.{levels_in, tree_in};
ghost use Rattle.sap_size.specs.Items.{IsSmall};
ghost use Rattle.sap_share.specs.Copying.{CopiesPorts};
ghost use Rattle.sap_system.specs.Rules.{part_names};
ghost use Rattle.sap_system.specs.declared.file.Part.{Part as AnyPart};
ghost use Rattle.sap_linked.specs.Designs.{IsNetOfDesign};
ghost use Rattle.sap_linker.specs.Given.{design_names, design_with_net, designs_of};
ghost use Rattle.sap_explain.specs.Explained.{IsExplained};
ghost use Rattle.sap_explain.specs.Explanation.{system_explanation};
ghost use Rattle.sap_commands.specs.Link.{EndsAtPart, GetsPart, HasNet, Links, ReadsParts, asks_link, loaded_designs, loaded_net, stop_of, wires_failure};
ghost use Rattle.sap_files.specs.Steps.{Ends, ending, ending_of, seen};

use sap_check::Checked;
use sap_compile::design_netlist;
use sap_desk::{Bytes, Desk};
use sap_explain::explained_system;
use sap_files::failure::{DesignFailure, Failure};
use sap_files::refusal::Refusal;
use sap_files::{design_of_file, lattice_of_file, system_of_file, write};
use sap_lattice::lattice::Lattice;
use sap_linker::{LinkedPart, link as link_parts};
use sap_net::netlist::Netlist;
use sap_system::{LinkFault, Part, SystemFile};
use sap_text::name::Name;
use sap_vprint::print;
use std::alloc::{AllocError, Global};

/// A part's name, its design and the netlist of the design.
#[derive(Drop)]
pub(crate) struct LoadedPart {
    pub name: Name,
    pub checked: Checked,
    pub netlist: Netlist,
}

/// The place of a part that isn't loaded, from 0, and why.
#[derive(Drop)]
pub(crate) struct StoppedAt {
    pub place: usize,
    pub why: DesignFailure,
}

/// Writes the module of a system of designs to a file: of the parts whose files its file lists, with its wires between them.
pub fn link<'a, D: Desk>(
    alloc: Global,
    desk: &mut D,
    lattice: &'a str,
    system: &'a str,
    out: &'a str,
) -> Result<(), Failure<'a>>
    ensures { Ends (asks_link lattice.now system.now out.now) (ending_of result) (seen D.told D.faults D.lost D.sure desk.old) (seen D.told D.faults D.lost D.sure desk.new) }
{
    let levels = lattice_of_file(alloc, desk, lattice)?;
    let listed = system_of_file(alloc, desk, system)?;
    match load_parts(alloc, desk, &levels, listed.parts()) {
        Ok(loaded) => {
            let text = linked_text(alloc, &levels, &listed, &loaded)?;
            write(desk, out, &text)
        }
        Err(stopped) => Err(failure_at(listed, stopped)),
    }
}

// Reads the files of parts in order.
fn load_parts<D: Desk>(
    alloc: Global,
    desk: &mut D,
    lattice: &Lattice,
    parts: &[Part],
) -> Result<Vec<LoadedPart>, StoppedAt>
    ensures read { IfOk result (λ made. ReadsParts lattice.now parts.now (loaded_designs made.items) (seen D.told D.faults D.lost D.sure desk.old) (seen D.told D.faults D.lost D.sure desk.new)) }
    ensures nets { IfOk result (λ made. AllByRecursion (HasNet lattice.now) made.items) }
    ensures stopped { IfErr result (λ stopped. EndsAtPart lattice.now parts.now stopped.place stopped.why (seen D.told D.faults D.lost D.sure desk.old) (seen D.told D.faults D.lost D.sure desk.new)) }
{
    let mut made = Vec::new(alloc);
    for (place, part) in parts.iter().enumerate() {
        match load_part(alloc, desk, lattice, part) {
            Ok(one) => {
                if made.push(one).is_err() {
                    return Err(StoppedAt {
                        place,
                        why: DesignFailure::Memory,
                    });
                }
            }
            Err(why) => return Err(StoppedAt { place, why }),
        }
    }
    Ok(made)
}

// Reads the file of a part, and makes the netlist of its design.
fn load_part<D: Desk>(
    alloc: Global,
    desk: &mut D,
    lattice: &Lattice,
    part: &Part,
) -> Result<LoadedPart, DesignFailure>
    ensures { GetsPart lattice.now part.now result (seen D.told D.faults D.lost D.sure desk.old) (seen D.told D.faults D.lost D.sure desk.new) }
{
    let checked = design_of_file(alloc, desk, lattice, part.file.as_str())?;
    Ok(loaded(alloc, part, checked)?)
}

// The part with this design, and the netlist of the design.
fn loaded(alloc: Global, part: &Part, checked: Checked) -> Result<LoadedPart, AllocError>
    ensures name { IfOk result (λ p. p.name ≡ part.now.name) }
    ensures design { IfOk result (λ p. tree_in p.checked ≡ tree_in checked) }
    ensures net { IfOk result (λ p. IsNetOfDesign (levels_in checked) (tree_in checked) p.netlist) }
    ensures small { IfOk result (λ p. IsSmall (levels_in checked) (tree_in checked) p.netlist) }
    ensures copies { IfOk result (λ p. CopiesPorts p.netlist) }
{
    let name = part.name.copy(alloc)?;
    let netlist = design_netlist(alloc, &checked)?;
    netlist.rules();
    Ok(LoadedPart {
        name,
        checked,
        netlist,
    })
}

// The failure of a command that ends at a part.
fn failure_at<'a>(system: SystemFile, stopped: StoppedAt) -> Failure<'a>
    requires { stopped.place < length system.parts }
    ensures { (p : AnyPart) → slice_get system.parts stopped.place ≡ Some p → ending result ≡ stop_of p stopped.why }
{
    let part = system.into_part(stopped.place);
    match stopped.why {
        DesignFailure::Refused(fault) => Failure::Refused(Refusal::Part(part.name, fault)),
        DesignFailure::Failed => Failure::PartFile(part.file),
        DesignFailure::Memory => Failure::Memory,
    }
}

// The text of a netlist as a module, after the lines that explain the parts of a system.
fn explained_text(
    alloc: Global,
    lattice: &Lattice,
    system: &SystemFile,
    parts: &[LinkedPart<'_>],
    netlist: &Netlist,
) -> Result<Bytes, AllocError>
    requires { design_names (designs_of parts.now) ≡ part_names system.now.parts }
    ensures { IfOk result (λ text. IsExplained (system_explanation lattice.now (designs_of parts.now)) text netlist.now) }
{
    let plain = print(alloc, netlist)?;
    explained_system(alloc, lattice, system, parts, &plain)
}

// The text of the module of parts, and of the wires of their system file.
fn linked_text<'a>(
    alloc: Global,
    lattice: &Lattice,
    system: &SystemFile,
    loaded: &[LoadedPart],
) -> Result<Bytes, Failure<'a>>
    requires names { design_names (loaded_designs loaded.now) ≡ part_names system.now.parts }
    requires nets { AllByRecursion (HasNet lattice.now) loaded.now }
    ensures { Links lattice.now (loaded_designs loaded.now) system.now.wires result }
{
    let handed = linked_parts(alloc, loaded)?;
    let parts = handed.as_slice();
    match link_parts(alloc, lattice, system, parts) {
        Ok(netlist) => Ok(explained_text(alloc, lattice, system, parts, &netlist)?),
        Err(fault) => Err(wires_failure(fault)),
    }
}

// The parts as they are handed on.
fn linked_parts<'p>(
    alloc: Global,
    loaded: &'p [LoadedPart],
) -> Result<Vec<LinkedPart<'p>>, AllocError>
    ensures { IfOk result (λ parts. map design_with_net parts.items ≡ map loaded_net loaded.now) }
{
    let mut parts = Vec::new(alloc);
    for part in loaded {
        parts.push(LinkedPart {
            name: &part.name,
            checked: &part.checked,
            netlist: &part.netlist,
        })?;
    }
    Ok(parts)
}

fn wires_failure<'a>(fault: LinkFault) -> Failure<'a>
    ensures { result ≡ wires_failure fault }
{
    match fault {
        LinkFault::Memory => Failure::Memory,
        fault => Failure::Refused(Refusal::Wires(fault)),
    }
}
