//! Faults of levels' names and of kinds.

ghost use Rattle.std.specs.Prelude.{◌≡◌};
ghost use Rattle.sap_names.specs.NameFaults as faults;
ghost use Rattle.sap_names.specs.Best.{best_of};
ghost use Rattle.sap_lattice.specs.Levels.{order_of, level_named};

use crate::fault::{Fault, note};
use crate::kind::Code;
use sap_lattice::lattice::Lattice;
use sap_lattice::level::Level;
use sap_tree::name::{Mention, Name};
use sap_tree::syntax::{Kind, Under};

fn level_named(lattice: &Lattice, name: &Name) -> Option<Level>
    ensures { result ≡ level_named lattice.now.names name.now }
{
    lattice.level_named(name.as_bytes())
}

/// Notes E6 at the name of a level that is none of the lattice's.
#[tactic(auto, using(crate::proofs::Faults::noting))]
pub fn note_level(best: &mut Option<Fault>, lattice: &Lattice, level: &Mention)
    ensures { best.new ≡ best_of best.old (faults.level_faults lattice.now.names level.now) }
{
    let known = level_named(lattice, &level.name);
    note(best, known.is_none(), Code::E6, level.place);
}

fn not_below(lattice: &Lattice, lower: Option<Level>, upper: Option<Level>) -> bool
    ensures { result ≡ faults.not_below (order_of lattice.now).le lower upper }
{
    match lower {
        Some(a) => match upper {
            Some(b) => !lattice.le(a, b),
            None => false,
        },
        None => false,
    }
}

#[tactic(auto, using(crate::proofs::Faults::noting))]
fn note_under(best: &mut Option<Fault>, lattice: &Lattice, level: &Mention, under: &Option<Under>)
    ensures { best.new ≡ best_of best.old (faults.under_faults lattice.now.names (order_of lattice.now).le level.now under.now) }
{
    match under {
        Some(authority) => {
            note_level(best, lattice, &authority.level);
            let lower = level_named(lattice, &authority.level.name);
            let upper = level_named(lattice, &level.name);
            note(
                best,
                not_below(lattice, lower, upper),
                Code::E9,
                level.place,
            );
        }
        None => (),
    }
}

/// Notes the faults of a kind.
#[tactic(auto, using(crate::proofs::Faults::noting))]
pub fn note_kind(best: &mut Option<Fault>, lattice: &Lattice, kind: &Kind)
    ensures { best.new ≡ best_of best.old (faults.kind_faults lattice.now.names (order_of lattice.now).le kind.now) }
{
    match kind {
        Kind::Dynamic(_) => (),
        Kind::Enforced(level, under) => {
            note_level(best, lattice, level);
            note_under(best, lattice, level, under);
        }
    }
}
