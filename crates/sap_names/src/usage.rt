//! What names are used as.

ghost use Rattle.std.specs.Prelude.{◌≡◌};
ghost use Rattle.sap_names.specs.Best.{best_of};
ghost use Rattle.sap_names.specs.NameFaults.{fits_use, use_faults};

use crate::fault::{Fault, note};
use crate::kind::{Code, Declared, Use};
use sap_tree::place::Place;

// Whether what a name stands for can be used so.
fn fits(how: Use, what: Declared) -> bool
    ensures { result ≡ fits_use how what }
{
    match (how, what) {
        (Use::Assigned, Declared::Register(_)) => true,
        (Use::Indexed, Declared::Memory(_, _)) => true,
        (Use::Read, Declared::Input(_)) => true,
        (Use::Read, Declared::Register(_)) => true,
        (Use::Entered, Declared::State) => true,
        (Use::Retagged, Declared::Register(_)) => true,
        (Use::Retagged, Declared::State) => true,
        _ => false,
    }
}

/// Notes E4 where a used name is declared nowhere, and E5 where it is of the wrong kind.
#[tactic(auto, using(crate::proofs::Faults::noting))]
pub fn note_use(best: &mut Option<Fault>, how: Use, what: Option<Declared>, place: Place)
    ensures { best.new ≡ best_of best.old (use_faults how what place) }
{
    match what {
        Some(declared) => note(best, !fits(how, declared), Code::E5, place),
        None => note(best, true, Code::E4, place),
    }
}
