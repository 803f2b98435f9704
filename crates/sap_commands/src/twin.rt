//! The command `twin`.

ghost use Rattle.std.specs.Prelude.{◌≡◌, IfOk};
ghost use Rattle.sap_check.specs.Checked.{levels_in, tree_in};
ghost use Rattle.sap_stream.specs.Apart.{AreOfOneLength};
ghost use Rattle.sap_commands.specs.Twin.{AreOfFile, Compares, Differ, Finds, IsLevelOf, agreement_line, asks_twin, input_name, is_input};
ghost use Rattle.sap_files.specs.Steps.{Ends, ending_of, seen};

use sap_check::Checked;
use sap_compile::design_netlist;
use sap_desk::{Bytes, Desk};
use sap_files::failure::Failure;
use sap_files::refusal::Refusal;
use sap_files::{checked_of_file, lattice_of_file, put, stream_of_file};
use sap_lattice::Lattice;
use sap_lattice::level::Level;
use sap_names::entity::Entity;
use sap_names::kind::Declared;
use sap_stream::{Apart, Stream, agree};
use sap_tree::name::Name;
use std::alloc::{AllocError, Global};

/// Says whether two stimulus files of a design agree at a level, or where they first don't.
pub fn twin<'a, D: Desk>(
    alloc: Global,
    desk: &mut D,
    lattice: &'a str,
    design: &'a str,
    first: &'a str,
    second: &'a str,
    level: &'a str,
) -> Result<(), Failure<'a>>
    ensures { Ends (asks_twin lattice.now design.now first.now second.now level.now) (ending_of result) (seen D.told D.faults D.lost D.sure desk.old) (seen D.told D.faults D.lost D.sure desk.new) }
{
    let levels = lattice_of_file(alloc, desk, lattice)?;
    let at = level_of(&levels, level)?;
    let checked = checked_of_file(alloc, desk, &levels, design)?;
    // Its clause shows that the design has a module, as the answer promises.
    let netlist = design_netlist(alloc, &checked)?;
    drop(netlist);
    compare(alloc, desk, &checked, first, second, at, level)
}

// The level of a name.
fn level_of<'a>(lattice: &Lattice, word: &'a str) -> Result<Level, Failure<'a>>
    ensures { IsLevelOf lattice.now word.now result }
{
    lattice.lawful();
    match lattice.find(word) {
        Some(level) => Ok(level),
        None => Err(Failure::Refused(Refusal::Level(word))),
    }
}

// Says whether two stimulus files agree at a level, or where they first don't, by a design that is checked.
fn compare<'a, D: Desk>(
    alloc: Global,
    desk: &mut D,
    checked: &Checked,
    first: &'a str,
    second: &'a str,
    level: Level,
    word: &str,
) -> Result<(), Failure<'a>>
    requires { AreOfFile (levels_in checked.now) }
    ensures { Compares (levels_in checked.now) (tree_in checked.now) first.now second.now word.now level (ending_of result) (seen D.told D.faults D.lost D.sure desk.old) (seen D.told D.faults D.lost D.sure desk.new) }
{
    let one = stream_of_file(alloc, desk, checked, 1, first)?;
    let other = stream_of_file(alloc, desk, checked, 2, second)?;
    let text = verdict(alloc, checked, &one, &other, level, word)?;
    put(desk, &text)
}

// What is to be written of two streams of a design that is checked.
fn verdict<'a>(
    alloc: Global,
    checked: &Checked,
    one: &Stream,
    other: &Stream,
    level: Level,
    word: &str,
) -> Result<Bytes, Failure<'a>>
    requires { AreOfOneLength one.now other.now }
    ensures { Finds (levels_in checked.now) (tree_in checked.now) level one.now other.now word.now result }
{
    match agree(one, other, level, checked.lattice()) {
        None => Ok(agreement(alloc, word, one.cycles())?),
        Some(apart) => Err(differ(alloc, checked, apart)),
    }
}

// The line of streams that agree.
fn agreement(alloc: Global, level: &str, cycles: u64) -> Result<Bytes, AllocError>
    ensures { IfOk result (λ text. text ≡ agreement_line level.now cycles) }
{
    let text = format!(in alloc; "agree at {level} for {cycles} cycles\n")?;
    Ok(Bytes::new(text.into_bytes()))
}

// Why streams are refused that don't agree.
fn differ<'a>(alloc: Global, checked: &Checked, apart: Apart) -> Failure<'a>
    ensures { Differ (tree_in checked.now) apart result }
{
    match apart {
        Apart::Lengths(one, other) => Failure::Refused(Refusal::Lengths(one, other)),
        Apart::At { cycle, input } => match input_name(alloc, checked, input) {
            Ok(name) => Failure::Refused(Refusal::Input(cycle, name)),
            Err(_) => Failure::Memory,
        },
    }
}

// The name of the input at a place, the places being counted from 0; nothing past the last.
fn input_name(alloc: Global, checked: &Checked, place: u64) -> Result<Name, AllocError>
    ensures { IfOk result (λ name. name ≡ input_name (tree_in checked.now) place) }
{
    let names = checked.names();
    let mut left = place;
    for number in 0..names.count() {
        let entity = names.entity(number);
        if is_input(entity) {
            if left == 0 {
                return entity.name.name.copy(alloc);
            }
            left -= 1;
        }
    }
    Ok(Name::new(String::new(alloc)))
}

fn is_input(entity: &Entity) -> bool
    ensures { result ≡ is_input entity.now.what }
{
    matches!(entity.what, Declared::Input(_))
}
