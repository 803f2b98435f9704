//! A file read as one of a kind: what its bytes stand for, or how the command ends there.

ghost use Rattle.std.specs.Prelude.{All};
ghost use Rattle.sap_check.specs.Checked.{levels_in, tree_in};
ghost use Rattle.sap_stim.specs.Line.{IsSized};
ghost use Rattle.sap_stim.specs.Stimulus.{stimulus_of};
ghost use Rattle.sap_tree.specs.Designs.{design_of as tree_of};
ghost use Rattle.sap_files.specs.Kinds.{assembly_file, design_text_file, lattice_file, module_file, stream_by, stream_file, system_file, wave_file};
ghost use Rattle.sap_files.specs.Designs.{GetsDesign};
ghost use Rattle.sap_files.specs.Steps.{Gets, GetsChecked, seen, whole};

use crate::failure::{DesignFailure, Failure};
use crate::inputs::{
    checked_from, design_bytes, design_failure, lattice_from, lines_from, module_from, read,
    read_design, stream_of, system_from, text_from, wave_from, words_from,
};
use sap_check::Checked;
use sap_cpu::words::Words;
use sap_desk::Desk;
use sap_lattice::Lattice;
use sap_net::netlist::Netlist;
use sap_stim::Fields;
use sap_stream::Stream;
use sap_system::SystemFile;
use sap_tree::design::Design;
use sap_wave::Wave;
use std::alloc::Global;

/// Reads a lattice file.
pub fn lattice_of_file<'a, D: Desk>(
    alloc: Global,
    desk: &mut D,
    name: &'a str,
) -> Result<Lattice, Failure<'a>>
    ensures { Gets name.now lattice_file whole result (seen D.told D.faults D.lost D.sure desk.old) (seen D.told D.faults D.lost D.sure desk.new) }
{
    let bytes = read(alloc, desk, name)?;
    lattice_from(alloc, &bytes)
}

/// Reads a design file, without a lattice.
pub fn text_of_file<'a, D: Desk>(
    alloc: Global,
    desk: &mut D,
    name: &'a str,
) -> Result<Design, Failure<'a>>
    ensures { Gets name.now design_text_file tree_of result (seen D.told D.faults D.lost D.sure desk.old) (seen D.told D.faults D.lost D.sure desk.new) }
{
    let source = read_design(alloc, desk, name)?;
    text_from(alloc, &source)
}

/// Reads a design file, and checks its design over a lattice.
pub fn design_of_file<D: Desk>(
    alloc: Global,
    desk: &mut D,
    lattice: &Lattice,
    name: &str,
) -> Result<Checked, DesignFailure>
    ensures { GetsDesign lattice.now name.now result (seen D.told D.faults D.lost D.sure desk.old) (seen D.told D.faults D.lost D.sure desk.new) }
{
    let source = design_bytes(alloc, desk, name)?;
    checked_from(alloc, lattice, &source)
}

/// Reads a design file for a command, and checks its design over a lattice.
pub fn checked_of_file<'a, D: Desk>(
    alloc: Global,
    desk: &mut D,
    lattice: &Lattice,
    name: &'a str,
) -> Result<Checked, Failure<'a>>
    ensures { GetsChecked lattice.now name.now result (seen D.told D.faults D.lost D.sure desk.old) (seen D.told D.faults D.lost D.sure desk.new) }
{
    match design_of_file(alloc, desk, lattice, name) {
        Ok(checked) => Ok(checked),
        Err(failure) => Err(design_failure(name, failure)),
    }
}

/// Reads a module file.
pub fn module_of_file<'a, D: Desk>(
    alloc: Global,
    desk: &mut D,
    name: &'a str,
) -> Result<Netlist, Failure<'a>>
    ensures { Gets name.now module_file (λ n. n) result (seen D.told D.faults D.lost D.sure desk.old) (seen D.told D.faults D.lost D.sure desk.new) }
{
    let text = read(alloc, desk, name)?;
    module_from(alloc, &text)
}

/// Reads a stimulus file of a checked design, the first or the second of the words.
pub fn stream_of_file<'a, D: Desk>(
    alloc: Global,
    desk: &mut D,
    checked: &Checked,
    place: u64,
    name: &'a str,
) -> Result<Stream, Failure<'a>>
    ensures { Gets name.now (stream_file place (levels_in checked.now) (tree_in checked.now)) (λ stream. stream) result (seen D.told D.faults D.lost D.sure desk.old) (seen D.told D.faults D.lost D.sure desk.new) }
{
    let lines = read(alloc, desk, name)?;
    stream_of(alloc, checked, place, &lines)
}

/// Reads a stimulus file whole, with these fields in each line.
pub fn lines_of_file<'a, D: Desk>(
    alloc: Global,
    desk: &mut D,
    lattice: &Lattice,
    fields: &Fields,
    name: &'a str,
) -> Result<Stream, Failure<'a>>
    requires { All IsSized fields.now }
    ensures { Gets name.now (stream_by 1 (stimulus_of lattice.now fields.now)) (λ stream. stream) result (seen D.told D.faults D.lost D.sure desk.old) (seen D.told D.faults D.lost D.sure desk.new) }
{
    let lines = read(alloc, desk, name)?;
    lines_from(alloc, lattice, fields, &lines)
}

/// Reads a value change dump.
pub fn wave_of_file<'a, D: Desk>(
    alloc: Global,
    desk: &mut D,
    name: &'a str,
) -> Result<Wave, Failure<'a>>
    ensures { Gets name.now wave_file (λ wave. wave) result (seen D.told D.faults D.lost D.sure desk.old) (seen D.told D.faults D.lost D.sure desk.new) }
{
    let text = read(alloc, desk, name)?;
    wave_from(alloc, &text)
}

/// Reads a system file.
pub fn system_of_file<'a, D: Desk>(
    alloc: Global,
    desk: &mut D,
    name: &'a str,
) -> Result<SystemFile, Failure<'a>>
    ensures { Gets name.now system_file (λ s. s) result (seen D.told D.faults D.lost D.sure desk.old) (seen D.told D.faults D.lost D.sure desk.new) }
{
    let bytes = read(alloc, desk, name)?;
    system_from(alloc, &bytes)
}

/// Reads assembly, the first file or the second of the words of a command.
pub fn words_of_file<'a, D: Desk>(
    alloc: Global,
    desk: &mut D,
    place: u64,
    name: &'a str,
) -> Result<Words, Failure<'a>>
    ensures { Gets name.now (assembly_file place) (λ words. words) result (seen D.told D.faults D.lost D.sure desk.old) (seen D.told D.faults D.lost D.sure desk.new) }
{
    let text = read(alloc, desk, name)?;
    words_from(place, &text)
}
