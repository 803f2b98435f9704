//! A time-sliced machine: two users share a pipeline, which its kernel zeroes and retags at each slice.
//!
//! Each law stands on an empty function, whose clauses a caller in another crate has by calling it.
#![tactic(auto)]

pub mod examples;
pub mod fault;
pub mod user;

ghost use Rattle.std.specs.Prelude.{◌≡◌, true};
ghost use Rattle.sap_lattice.specs.Diamond.{diamond};
ghost use Rattle.sap_tree.specs.Whole.{is_whole};
ghost use Rattle.sap_show.specs.Canonical.{canonical_text};
ghost use Rattle.sap_shape.specs.WellFormed.{WellFormed};
ghost use Rattle.sap_machine.specs.Design.{machine_design};
ghost use Rattle.sap_machine.specs.DesignText.{IsTextOf, machine_text};
ghost use Rattle.sap_machine.specs.Machine.{PlacesDontCount, machine};
ghost use Rattle.sap_machine.specs.Laws.{OthersDontCount, OthersWordsDontCount, RefusesTheWords, RunsTheTable, SlicesInTurn, WordsDecide};

/// The design is a tree of the grammar within its limits, and well formed over the lattice of four levels. Its canonical text is this one,
/// which is read as the design, places aside. Every design that is the same, places aside, is well formed too, and its program is the machine.
pub fn design_is_sound()
    ensures whole { is_whole machine_design ≡ true }
    ensures well_formed { WellFormed diamond machine_design }
    ensures canonical { canonical_text machine_design ≡ machine_text }
    ensures reads_back { IsTextOf machine_text machine_design }
    ensures places { PlacesDontCount }
{
    sap_layout::layout_is_free()
}

/// After each slice the kernel keeps of both users what the instruction table says. The words that aren't at or below their
/// user's level are refused, and nothing else.
pub fn machine_runs_the_table()
    ensures runs { RunsTheTable machine }
    ensures refuses { RefusesTheWords machine }
{}

/// A slice is three instructions of the user that holds it.
pub fn slices_in_turn()
    ensures { SlicesInTurn }
{}

/// A user's words alone decide what is kept of it after each slice. Its part of the machine is the same behind every cycle of streams
/// that agree at its level, and so of those that differ in words of the other alone, where these aren't at or below its level.
pub fn users_are_apart()
    ensures words { WordsDecide machine }
    ensures agreeing { OthersDontCount machine }
    ensures differing { OthersWordsDontCount machine }
{
    sap_secure::designs::runs_agree()
}
