//! What a command reads: the bytes of files, and what they stand for.

ghost use Rattle.std.specs.Prelude.{◌≡◌, ◌<◌, ◌^◌, All, IfOk, length};
ghost use Rattle.sap_check.specs.Checked.{levels_in, tree_in};
ghost use Rattle.sap_stim.specs.Line.{IsSized};
ghost use Rattle.sap_stim.specs.Stimulus.{stimulus_of};
ghost use Rattle.sap_tree.specs.Designs.{design_of as tree_of};
ghost use Rattle.sap_files.specs.Kinds.{assembly_file, design_text_file, lattice_file, module_file, stream_by, stream_file, system_file, wave_file};
ghost use Rattle.sap_files.specs.Designs.{IsChecked, ReadsDesign, design_ending};
ghost use Rattle.sap_files.specs.Steps.{Gives, Read, ReadDesign, ending, lattice_failure, module_failure, read_failure, seen, system_failure, wave_failure, whole};

use crate::failure::{DesignFailure, Failure};
use crate::fault::DesignFault;
use crate::refusal::Refusal;
use sap_check::Checked;
use sap_check::check::check;
use sap_cpu::assemble::assemble;
use sap_cpu::words::Words;
use sap_desk::{Bytes, Desk, DeskError, read_file, read_front};
use sap_latfile::{LatFileFault, read_lattice};
use sap_lattice::Lattice;
use sap_lex::fault::ReadFault;
use sap_net::netlist::Netlist;
use sap_parse::parse;
use sap_sim::read_stimulus;
use sap_stim::{Fields, parse_stream};
use sap_stream::Stream;
use sap_system::{SysFault, SystemFile, read_system};
use sap_tree::design::Design;
use sap_vread::fault::ModFault;
use sap_vread::read as read_module;
use sap_wave::{Wave, WaveFault, read_wave};
use std::alloc::Global;

/// The bytes of a file.
pub fn read<'a, D: Desk>(alloc: Global, desk: &mut D, name: &'a str) -> Result<Bytes, Failure<'a>>
    ensures read { Read name.now result (seen D.told D.faults D.lost D.sure desk.old) (seen D.told D.faults D.lost D.sure desk.new) }
    ensures short { IfOk result (λ bytes. length bytes < 2 ^ 32) }
{
    match read_file(alloc, desk, name) {
        Ok(bytes) => Ok(bytes),
        Err(DeskError::Failed) => Err(Failure::Desk(name)),
        Err(DeskError::Memory) => Err(Failure::Memory),
    }
}

// A design file of more bytes is refused, whatever they are.
const MOST_DESIGN_BYTES: usize = 1_048_576;

/// The bytes of a design file; of one that is too long, no more than show it.
pub fn design_bytes<D: Desk>(
    alloc: Global,
    desk: &mut D,
    name: &str,
) -> Result<Bytes, DesignFailure>
    ensures { ReadsDesign name.now result (seen D.told D.faults D.lost D.sure desk.old) (seen D.told D.faults D.lost D.sure desk.new) }
{
    match read_front(alloc, desk, name, MOST_DESIGN_BYTES) {
        Ok(bytes) => Ok(bytes),
        Err(DeskError::Failed) => Err(DesignFailure::Failed),
        Err(DeskError::Memory) => Err(DesignFailure::Memory),
    }
}

/// How a command fails for which the design file of this name gives no design.
pub(crate) fn design_failure(name: &str, failure: DesignFailure) -> Failure<'_>
    ensures { ending result ≡ design_ending name.now failure }
{
    match failure {
        DesignFailure::Refused(fault) => Failure::Refused(Refusal::Design(fault)),
        DesignFailure::Failed => Failure::Desk(name),
        DesignFailure::Memory => Failure::Memory,
    }
}

/// The same bytes, for a command.
pub fn read_design<'a, D: Desk>(
    alloc: Global,
    desk: &mut D,
    name: &'a str,
) -> Result<Bytes, Failure<'a>>
    ensures { ReadDesign name.now result (seen D.told D.faults D.lost D.sure desk.old) (seen D.told D.faults D.lost D.sure desk.new) }
{
    match design_bytes(alloc, desk, name) {
        Ok(bytes) => Ok(bytes),
        Err(failure) => Err(design_failure(name, failure)),
    }
}

fn lattice_failure<'a>(fault: LatFileFault) -> Failure<'a>
    ensures { result ≡ lattice_failure fault }
{
    match fault {
        LatFileFault::Memory => Failure::Memory,
        fault => Failure::Refused(Refusal::Lattice(fault)),
    }
}

/// The lattice of a lattice file's bytes.
pub fn lattice_from<'a>(alloc: Global, bytes: &Bytes) -> Result<Lattice, Failure<'a>>
    ensures { Gives lattice_file whole bytes.now result }
{
    match read_lattice(alloc, bytes.as_slice()) {
        Ok(lattice) => Ok(lattice),
        Err(fault) => Err(lattice_failure(fault)),
    }
}

fn read_failure<'a>(fault: ReadFault) -> Failure<'a>
    ensures { result ≡ read_failure fault }
{
    match fault {
        ReadFault::Memory => Failure::Memory,
        fault => Failure::Refused(Refusal::Design(DesignFault::Read(fault))),
    }
}

/// The design of a design file's bytes.
pub fn text_from<'a>(alloc: Global, source: &Bytes) -> Result<Design, Failure<'a>>
    ensures { Gives design_text_file tree_of source.now result }
{
    match parse(alloc, source.as_slice()) {
        Ok(design) => Ok(design),
        Err(fault) => Err(read_failure(fault)),
    }
}

/// The design of a design file's bytes, checked over a lattice.
pub fn checked_from(
    alloc: Global,
    lattice: &Lattice,
    source: &Bytes,
) -> Result<Checked, DesignFailure>
    ensures { IsChecked lattice.now source.now result }
{
    let design = parse(alloc, source.as_slice())?;
    match check(alloc, design, lattice) {
        Ok(checked) => Ok(checked),
        Err(refused) => Err(DesignFailure::from(refused.fault)),
    }
}

fn module_failure<'a>(fault: ModFault) -> Failure<'a>
    ensures { result ≡ module_failure fault }
{
    match fault {
        ModFault::Memory => Failure::Memory,
        fault => Failure::Refused(Refusal::Module(fault)),
    }
}

/// The netlist of a module file's bytes.
pub fn module_from<'a>(alloc: Global, text: &Bytes) -> Result<Netlist, Failure<'a>>
    ensures { Gives module_file (λ n. n) text.now result }
{
    match read_module(alloc, text.as_slice()) {
        Ok(netlist) => Ok(netlist),
        Err(fault) => Err(module_failure(fault)),
    }
}

/// The stream of a stimulus file's bytes, with these fields in each line.
pub fn lines_from<'a>(
    alloc: Global,
    lattice: &Lattice,
    fields: &Fields,
    bytes: &Bytes,
) -> Result<Stream, Failure<'a>>
    requires sized { All IsSized fields.now }
    requires short { length bytes.now < 2 ^ 32 }
    ensures { Gives (stream_by 1 (stimulus_of lattice.now fields.now)) (λ stream. stream) bytes.now result }
{
    let parsed = parse_stream(alloc, bytes.as_slice(), fields, lattice)?;
    match parsed.fault {
        None => Ok(parsed.stream),
        Some(fault) => Err(Failure::Refused(Refusal::Stimulus(1, fault))),
    }
}

/// The stream of a stimulus file's bytes, which is the first or the second of the words.
pub fn stream_of<'a>(
    alloc: Global,
    checked: &Checked,
    place: u64,
    bytes: &Bytes,
) -> Result<Stream, Failure<'a>>
    requires { length bytes.now < 2 ^ 32 }
    ensures { Gives (stream_file place (levels_in checked.now) (tree_in checked.now)) (λ stream. stream) bytes.now result }
{
    let parsed = read_stimulus(alloc, checked, bytes.as_slice())?;
    match parsed.fault {
        None => Ok(parsed.stream),
        Some(fault) => Err(Failure::Refused(Refusal::Stimulus(place, fault))),
    }
}

fn wave_failure<'a>(fault: WaveFault) -> Failure<'a>
    ensures { result ≡ wave_failure fault }
{
    match fault {
        WaveFault::Memory => Failure::Memory,
        fault => Failure::Refused(Refusal::Wave(fault)),
    }
}

/// What the bytes of a dump are read as.
pub fn wave_from<'a>(alloc: Global, bytes: &Bytes) -> Result<Wave, Failure<'a>>
    ensures { Gives wave_file (λ wave. wave) bytes.now result }
{
    match read_wave(alloc, bytes.as_slice()) {
        Ok(wave) => Ok(wave),
        Err(fault) => Err(wave_failure(fault)),
    }
}

fn system_failure<'a>(fault: SysFault) -> Failure<'a>
    ensures { result ≡ system_failure fault }
{
    match fault {
        SysFault::Memory => Failure::Memory,
        fault => Failure::Refused(Refusal::System(fault)),
    }
}

/// The system of a system file's bytes.
pub fn system_from<'a>(alloc: Global, bytes: &Bytes) -> Result<SystemFile, Failure<'a>>
    ensures { Gives system_file (λ s. s) bytes.now result }
{
    match read_system(alloc, bytes.as_slice()) {
        Ok(system) => Ok(system),
        Err(fault) => Err(system_failure(fault)),
    }
}

/// The words of assembly, the first file or the second of the words of a command.
pub fn words_from<'a>(place: u64, text: &Bytes) -> Result<Words, Failure<'a>>
    ensures { Gives (assembly_file place) (λ words. words) text.now result }
{
    match assemble(text.as_slice()) {
        Ok(words) => Ok(words),
        Err(fault) => Err(Failure::Refused(Refusal::Assembly(place, fault))),
    }
}
