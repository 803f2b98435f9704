// The wires of all texts.

ghost use Rattle.std.specs.Prelude.{◌≡◌, ◌≢◌, ◌⊎◌, ◌||◌, ℕ, List, [], ◌∷◌, ◌++◌, IfErr, IfOk, OnOk, IsErrOf, IsOkUnless};
ghost use Rattle.sap_system.specs.Wires.{FirstLinkFault, KeepsWires};
ghost use Rattle.sap_system.specs.declared.link_fault.LinkFault.{LinkFault as AnyFault};
ghost use Rattle.std.specs.Str.{bytes_eq};
ghost use Rattle.sap_wiring.specs.Wiring.{AreWiresOf, PartsNamed, is_fed, seen};

use crate::judge::judge;
use crate::surroundings::Surroundings;
use crate::wire::Wire;
use indexmap::IndexSet;
use sap_system::{LinkFault, WireText};
use sap_text::name::Name;
use std::alloc::{AllocError, Global};

/// Adds an input to those that are fed, by the text that names it.
fn feed(alloc: Global, fed: &mut IndexSet<Vec<u8>>, to: &Name) -> Result<(), AllocError>
    ensures { OnOk result ((name : List ℕ) → is_fed fed.new.keys name ≡ (is_fed fed.old.keys name || bytes_eq to.now name)) }
{
    let key = to.as_bytes().to_vec(alloc)?;
    fed.insert(key)?;
    Ok(())
}

/// Adds a wire, and its input to those that are fed.
fn add(
    alloc: Global,
    wires: &mut Vec<Wire>,
    fed: &mut IndexSet<Vec<u8>>,
    wire: Wire,
    to: &Name,
) -> Result<(), AllocError>
    ensures wires { OnOk result (wires.new.items ≡ wires.old.items ++ wire ∷ []) }
    ensures fed { OnOk result ((name : List ℕ) → is_fed fed.new.keys name ≡ (is_fed fed.old.keys name || bytes_eq to.now name)) }
{
    feed(alloc, fed, to)?;
    wires.push(wire)?;
    Ok(())
}

/// Tests the texts in their order, and gives the wires of texts that keep all rules.
fn wires_of(
    alloc: Global,
    around: &Surroundings<'_>,
    texts: &[WireText],
) -> Result<Vec<Wire>, LinkFault>
    requires { PartsNamed (seen around.now) }
    ensures wires { IfOk result (λ wires. AreWiresOf (seen around.now) texts.now wires.items) }
    ensures kept { OnOk result (KeepsWires (seen around.now) texts.now) }
    ensures refused { IfErr result (λ fault. fault ≢ LinkFault.Memory → FirstLinkFault (seen around.now) texts.now fault) }
{
    let mut wires = Vec::new(alloc);
    // the second texts of the wires so far
    let mut fed: IndexSet<Vec<u8>> = IndexSet::new(alloc);
    for k in 0..texts.len() {
        let to = &texts[k].to;
        let is_fed = fed.contains(to.as_bytes());
        match judge(around, texts, k, is_fed) {
            Ok(wire) => add(alloc, &mut wires, &mut fed, wire, to)?,
            Err(code) => return Err(LinkFault::Rule(code, k + 1)),
        }
    }
    Ok(wires)
}

/// The wires that texts stand for among these parts, or the first rule that they break.
pub fn wire_up(
    alloc: Global,
    around: &Surroundings<'_>,
    texts: &[WireText],
) -> Result<Vec<Wire>, LinkFault>
    requires { PartsNamed (seen around.now) }
    ensures wires { IfOk result (λ wires. AreWiresOf (seen around.now) texts.now wires.items) }
    ensures kept { OnOk result (KeepsWires (seen around.now) texts.now) }
    ensures refused { IfErr result (λ fault. fault ≢ LinkFault.Memory → FirstLinkFault (seen around.now) texts.now fault) }
    ensures valid { KeepsWires (seen around.now) texts.now → IsOkUnless result LinkFault.Memory }
    ensures exact { (fault : AnyFault) → FirstLinkFault (seen around.now) texts.now fault
        → IsErrOf result fault ⊎ IsErrOf result LinkFault.Memory }
{
    wires_of(alloc, around, texts)
}
