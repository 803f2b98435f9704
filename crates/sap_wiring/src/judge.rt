// The rules on one wire, in their order.

ghost use Rattle.std.specs.Prelude.{◌≡◌, ◌<◌, IfErr, IfOk, OnOk, Some, length, slice_get, take};
ghost use Rattle.std.specs.List.{list_any};
ghost use Rattle.std.specs.Str.{bytes_eq};
ghost use Rattle.sap_system.specs.Wires.{Stands, number_of_code};
ghost use Rattle.sap_system.specs.declared.link_fault.LinkCode.{LinkCode as AnyCode};
ghost use Rattle.sap_system.specs.declared.file.WireText.{WireText as AnyText};
ghost use Rattle.sap_wiring.specs.Wiring.{IsWireOf, PartsNamed, seen};

use crate::endpoints::{level_of, source, target};
use crate::surroundings::Surroundings;
use crate::wire::Wire;
use sap_system::{LinkCode, WireText};

/// The wire of a text among others, which is fed where an earlier text has the same input; or the first rule that it breaks.
pub fn judge(
    around: &Surroundings<'_>,
    texts: &[WireText],
    k: usize,
    is_fed: bool,
) -> Result<Wire, LinkCode>
    requires named { PartsNamed (seen around.now) }
    requires within { k < length texts.now }
    requires fed { (text : AnyText) → slice_get texts.now k ≡ Some text → is_fed ≡ list_any (λ w. bytes_eq w.to text.to) (take k texts.now) }
    ensures wire { IfOk result (λ w. (text : AnyText) → slice_get texts.now k ≡ Some text → IsWireOf (seen around.now) text w) }
    ensures kept { OnOk result ((code : AnyCode) → ¬ Stands (seen around.now) texts.now code k) }
    ensures broken { IfErr result (λ code. Stands (seen around.now) texts.now code k) }
    ensures first { IfErr result (λ code. (other : AnyCode) → number_of_code other < number_of_code code → ¬ Stands (seen around.now) texts.now other k) }
{
    let text = &texts[k];
    let Some(register) = source(around, text) else {
        return Err(LinkCode::K5);
    };
    let Some(input) = target(around, text) else {
        return Err(LinkCode::K6);
    };
    if is_fed {
        return Err(LinkCode::K7);
    }
    if register.width != input.width {
        return Err(LinkCode::K8);
    }
    let Some(level) = level_of(around, text) else {
        return Err(LinkCode::K9);
    };
    Ok(Wire::new(register.endpoint, input.endpoint, level))
}
