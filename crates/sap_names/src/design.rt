//! Faults of declarations and states, and of a whole design.

ghost use Rattle.std.specs.Prelude.{◌≡◌, [], None};
ghost use Rattle.sap_names.specs.NameFaults as faults;
ghost use Rattle.sap_names.specs.Best.{best_of};
ghost use Rattle.sap_names.specs.Entities.{entities_of, what_is};
ghost use Rattle.sap_names.specs.Lists as lists;
ghost use Rattle.sap_lattice.specs.Levels.{order_of};
ghost use Rattle.sap_tree.specs.Designs.{design_of};
ghost use Rattle.sap_tree.specs.Trees.{state_of};

use crate::command::commands_faults;
use crate::entities::Entities;
use crate::expression::too_large;
use crate::fault::{Fault, note};
use crate::kind::Code;
use crate::level::note_kind;
use crate::width::{index_bits, sound_width};
use sap_lattice::lattice::Lattice;
use sap_tree::design::Design;
use sap_tree::syntax::{Decl, Numeral, State};

fn note_width(best: &mut Option<Fault>, width: Numeral)
    ensures { best.new ≡ best_of best.old (faults.width_faults width) }
{
    note(
        best,
        sound_width(width.value).is_none(),
        Code::E7,
        width.place,
    );
}

#[tactic(auto, using(crate::proofs::Faults::noting))]
fn note_start(best: &mut Option<Fault>, width: u64, start: &Option<Numeral>)
    ensures { best.new ≡ best_of best.old (faults.start_faults width start.now) }
{
    match start {
        Some(number) => note(
            best,
            too_large(sound_width(width), number.value),
            Code::E8,
            number.place,
        ),
        None => (),
    }
}

#[tactic(auto, using(crate::proofs::Faults::noting))]
fn declaration_faults(lattice: &Lattice, declaration: &Decl, best: &mut Option<Fault>)
    ensures { best.new ≡ best_of best.old (faults.declaration_faults lattice.now.names (order_of lattice.now).le declaration.now) }
{
    match declaration {
        Decl::Input(_, _, width) => note_width(best, *width),
        Decl::Register(_, _, width, kind, start) => {
            note_width(best, *width);
            note_kind(best, lattice, kind);
            note_start(best, width.value, start);
        }
        Decl::Memory(_, _, width, depth, kind) => {
            note_width(best, *width);
            note(
                best,
                index_bits(depth.value).is_none(),
                Code::E7,
                depth.place,
            );
            note_kind(best, lattice, kind);
        }
    }
}

#[tactic(auto, using(crate::proofs::Lists::declarations, crate::proofs::Faults::noting))]
fn declarations_faults(lattice: &Lattice, declarations: &[Decl], best: &mut Option<Fault>)
    ensures { best.new ≡ best_of best.old (faults.declarations_faults lattice.now.names (order_of lattice.now).le declarations.now) }
{
    for declaration in declarations {
        declaration_faults(lattice, declaration, best);
    }
}

#[cycle(states)]
#[tactic(auto, using(sap_tree::proofs::Views::views, crate::proofs::Lists::blocks, crate::proofs::Faults::noting))]
fn state_faults(lattice: &Lattice, names: &Entities, state: &State, best: &mut Option<Fault>)
    ensures { best.new ≡ best_of best.old (faults.state_faults lattice.now.names (order_of lattice.now).le (what_is names.now) (state_of state.now)) }
{
    note_kind(best, lattice, &state.kind);
    commands_faults(lattice, names, state.body.commands.as_slice(), best);
    states_faults(lattice, names, state.children.as_slice(), best);
}

#[cycle(states)]
#[tactic(auto, using(crate::proofs::Lists::states, sap_tree::proofs::Weights::weights, crate::proofs::Faults::noting))]
fn states_faults(lattice: &Lattice, names: &Entities, states: &[State], best: &mut Option<Fault>)
    ensures { best.new ≡ best_of best.old (lists.states_faults lattice.now.names (order_of lattice.now).le (what_is names.now) states.now) }
{
    for state in states {
        state_faults(lattice, names, state, best);
    }
}

// E3: an entity whose name an earlier one bears is not the first of its name.
fn is_later(names: &Entities, name: &[u8], number: usize) -> bool
    ensures { result ≡ lists.is_later names.now name.now number }
{
    match names.number(name) {
        Some(first) => first != number,
        None => true,
    }
}

#[tactic(auto, using(crate::proofs::Faults::noting))]
fn twice_faults(names: &Entities, best: &mut Option<Fault>)
    ensures { best.new ≡ best_of best.old (faults.twice [] names.now) }
{
    for (number, entity) in names.as_slice().iter().enumerate() {
        note(
            best,
            is_later(names, entity.name.name.as_bytes(), number),
            Code::E3,
            entity.name.place,
        );
    }
}

/// The first of the faults of names and widths of a design with these entities.
#[tactic(auto, using(crate::proofs::Lists::blocks, crate::proofs::Faults::noting))]
pub fn first_fault(lattice: &Lattice, names: &Entities, design: &Design) -> Option<Fault>
    requires { names.now ≡ entities_of (design_of design.now) }
    ensures { result ≡ best_of None (faults.design_name_faults lattice.now.names (order_of lattice.now).le (design_of design.now)) }
{
    let mut best = None;
    twice_faults(names, &mut best);
    declarations_faults(lattice, design.declarations.as_slice(), &mut best);
    states_faults(lattice, names, design.states.as_slice(), &mut best);
    best
}
