//! The call that adds tags to a netlist.

ghost use Rattle.std.specs.Prelude.{◌≡◌, ◌≢◌, IfOk, IfErr};
ghost use Rattle.sap_lattice.specs.Codes.{width_of};
ghost use Rattle.sap_lattice.specs.Levels.{order_of};
ghost use Rattle.sap_net.specs.Net.{net_of};
ghost use Rattle.sap_taint.specs.Carries.{CarriesTaint, TakesTags, OneTaggedRun, ShowsTaint, TagsStayCodes, RunsWithTagsAgree};
ghost use Rattle.sap_taint.specs.TaggedForm.{HasTaggedForm};
ghost use Rattle.sap_taint.specs.TagNames.{HasRoomForTags};
ghost use Rattle.sap_taint_pass.specs.FaultTexts.{IsTaintFault};
ghost use Rattle.sap_taint_pass.specs.declared.fault.TaintFault.TheVariants.{Memory};
ghost use Rattle.sap_taint_pass.specs.Helped.{begun, driven};
ghost use Rattle.sap_taint_pass.specs.Helping.{tainted};
ghost use Rattle.sap_taint_pass.specs.Small.{HasFewItems};

use crate::fault::TaintFault;
use crate::names::index_tags;
use crate::ports::{names_with_tags, tagged_inputs, tagged_ports};
use crate::registers::{in_order, tagged_registers};
use crate::wires::add_tag_wires;
use crate::writes::add_memories;
use sap_build::copies::{copy_memories, copy_wires};
use sap_build::writer::Writer;
use sap_lattice::lattice::Lattice;
use sap_net::netlist::Netlist;
use sap_net::parts::Parts;
use sap_taint::laws::carried;
use std::alloc::{AllocError, Global};

/// The tainted netlist but for helping wires, the wires of tags, and the tags of memories.
fn begin(alloc: Global, netlist: &Netlist, width: u32) -> Result<Parts, AllocError>
    ensures { IfOk result (λ p. net_of p ≡ begun width netlist.now) }
{
    Ok(Parts {
        module_name: netlist.module_name().copy(alloc)?,
        names: names_with_tags(alloc, netlist.names())?,
        ports: tagged_ports(alloc, netlist.ports())?,
        inputs: tagged_inputs(alloc, width, netlist.inputs())?,
        wires: copy_wires(alloc, netlist.wires())?,
        registers: tagged_registers(alloc, width, netlist.registers())?,
        memories: copy_memories(alloc, netlist.memories())?,
    })
}

/// The tainted netlist but for the order of registers.
fn drive(alloc: Global, netlist: &Netlist, width: u32) -> Result<Parts, AllocError>
    ensures { IfOk result (λ p. net_of p ≡ driven width netlist.now) }
{
    let parts = begin(alloc, netlist, width)?;
    let mut writer = Writer::resume(alloc, parts)?;
    add_tag_wires(alloc, &mut writer, width, netlist.wires())?;
    add_memories(alloc, &mut writer, width, netlist.memories())?;
    Ok(writer.into_parts())
}

fn tainted_parts(alloc: Global, netlist: &Netlist, width: u32) -> Result<Parts, AllocError>
    ensures { IfOk result (λ p. net_of p ≡ tainted width netlist.now) }
{
    let mut parts = drive(alloc, netlist, width)?;
    let names = names_with_tags(alloc, netlist.names())?;
    let registers = in_order(alloc, &names, &parts.registers)?;
    parts.registers = registers;
    Ok(parts)
}

/// The netlist with a tag for each name, as wide as codes of levels are, or the first name whose tag's name is taken. It has
/// the names and ports of the given one, each with its tag's behind it. Whatever the inputs' numbers and tags, it has
/// exactly one run, in which names have the numbers of the given netlist's run and tags its taint; where the inputs' tags
/// are codes, all are, and on streams that agree at a level its runs agree there in every cycle.
pub fn taint(alloc: Global, netlist: &Netlist, lattice: &Lattice) -> Result<Netlist, TaintFault>
    ensures room { IfOk result (λ m. HasRoomForTags netlist.now) }
    ensures tainted { IfOk result (λ m. m ≡ tainted (width_of (order_of lattice.now)) netlist.now) }
    ensures form { IfOk result (λ m. HasTaggedForm (width_of (order_of lattice.now)) netlist.now m) }
    ensures carries { IfOk result (λ m. CarriesTaint (width_of (order_of lattice.now)) netlist.now m) }
    ensures takes { IfOk result (λ m. TakesTags (width_of (order_of lattice.now)) netlist.now m) }
    ensures runs { IfOk result (λ m. OneTaggedRun (width_of (order_of lattice.now)) netlist.now m) }
    ensures shows { IfOk result (λ m. ShowsTaint netlist.now m) }
    ensures codes { IfOk result (λ m. TagsStayCodes (order_of lattice.now) netlist.now m) }
    ensures agree { IfOk result (λ m. RunsWithTagsAgree (order_of lattice.now) netlist.now m) }
    ensures small { IfOk result (λ m. HasFewItems netlist.now m) }
    ensures clash { IfErr result (λ fault. fault ≢ Memory → IsTaintFault netlist.now fault) }
{
    netlist.rules();
    lattice.lawful();
    index_tags(alloc, netlist)?;
    let parts = tainted_parts(alloc, netlist, lattice.width())?;
    let made = Netlist::new(parts);
    carried(netlist, &made, lattice);
    Ok(made)
}
