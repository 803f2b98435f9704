//! The names of tags, and which are taken.

ghost use Rattle.std.specs.Prelude.{◌≡◌, ◌≢◌, ◌∷◌, ◌++◌, map, IfOk, IfErr};
ghost use Rattle.sap_taint.specs.TagNames.{name_of_tag, HasRoomForTags};
ghost use Rattle.sap_taint_pass.specs.FaultTexts.{IsTaintFault};
ghost use Rattle.sap_taint_pass.specs.declared.fault.TaintFault.TheVariants.{Memory};

use crate::fault::TaintFault;
use sap_net::netlist::Netlist;
use sap_net::parts::Name;
use sap_net::port_names::behind_v;
use sap_share::places::Places;
use sap_text::name::copy_names;
use std::alloc::{AllocError, Global};

/// The name of a name's tag.
#[tactic(auto, unfolding(sap_taint::specs::TagNames::name_of_tag))]
pub(crate) fn tag_name(alloc: Global, name: &Name) -> Result<Name, AllocError>
    ensures { IfOk result (λ tag. tag ≡ name_of_tag name.now) }
{
    let text = name.as_str();
    let x = behind_v(text).unwrap_or(text);
    let tag = format!(in alloc; "t_{x}")?;
    Ok(Name::new(tag))
}

/// The names that a tag can't have before any has one.
fn declared(alloc: Global, netlist: &Netlist) -> Result<Places, AllocError>
    ensures { IfOk result (λ names. names ≡ netlist.now.module_name ∷ netlist.now.names) }
{
    let mut names = Vec::new(alloc);
    names.push(netlist.module_name().copy(alloc)?)?;
    let mut others = copy_names(alloc, netlist.names())?;
    names.append(&mut others)?;
    Places::new(alloc, names)
}

/// All names that are taken once the tags have theirs, or the first name whose tag can't have its own.
pub fn index_tags(alloc: Global, netlist: &Netlist) -> Result<Places, TaintFault>
    ensures room { IfOk result (λ taken. HasRoomForTags netlist.now) }
    ensures taken { IfOk result (λ taken. taken ≡ netlist.now.module_name ∷ netlist.now.names ++ map name_of_tag netlist.now.names) }
    ensures clash { IfErr result (λ fault. fault ≢ Memory → IsTaintFault netlist.now fault) }
{
    netlist.rules();
    let mut taken = declared(alloc, netlist)?;
    let names = netlist.names();
    for name in names {
        let tag = tag_name(alloc, name)?;
        if taken.holds(&tag) {
            return Err(TaintFault::Clash(name.copy(alloc)?));
        }
        taken.add(alloc, tag)?;
    }
    Ok(taken)
}
