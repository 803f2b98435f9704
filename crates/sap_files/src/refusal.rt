//! What a command refuses of its words and files.

ghost use Rattle.std.specs.Prelude.{◌≡◌};
ghost use Rattle.sap_machine.specs.Text.{code_text};
ghost use Rattle.sap_files.specs.Ending.{status_of_refusal};
ghost use Rattle.sap_files.specs.Steps.{reason};

use crate::fault::DesignFault;
use sap_latfile::LatFileFault;
use sap_machine::fault::{AsmCode, AsmFault};
use sap_stim::fault::StimFault;
use sap_system::{LinkFault, SysFault};
use sap_taint_pass::fault::TaintFault;
use sap_tree::name::Name;
use sap_vread::fault::ModFault;
use sap_wave::WaveFault;
use std::fmt;

/// Why a file is refused, a level, or two streams.
#[derive(Drop)]
pub enum Refusal<'a> {
    Lattice(LatFileFault),
    Design(DesignFault),
    /// The design of the part of this name in a system.
    Part(Name, DesignFault),
    /// A system file.
    System(SysFault),
    /// The wires that a system file lists.
    Wires(LinkFault),
    /// The first stimulus of the words, or the second.
    Stimulus(u64, StimFault),
    Module(ModFault),
    /// The module has no name left for a tag.
    Taint(TaintFault),
    /// The word is no level of the lattice.
    Level(&'a str),
    /// Two streams have not as many cycles.
    Lengths(u64, u64),
    /// Two streams first don't agree in this cycle, at this input.
    Input(u64, Name),
    Wave(WaveFault),
    /// The first assembly file of the words, or the second.
    Assembly(u64, AsmFault),
}

fn code_text(code: AsmCode) -> &'static str
    ensures { result.now ≡ code_text code }
{
    match code {
        AsmCode::B1 => "B1",
        AsmCode::B2 => "B2",
        AsmCode::B3 => "B3",
        AsmCode::B4 => "B4",
    }
}

impl Refusal<'_> {
    /// The status with which a command ends.
    pub fn status(&self) -> u8
        ensures { result ≡ status_of_refusal (reason self.now) }
    {
        match self {
            Refusal::Design(_) | Refusal::Part(_, _) => 1,
            Refusal::Lattice(_) => 3,
            Refusal::Stimulus(_, _) => 4,
            Refusal::Module(_) | Refusal::Taint(_) => 5,
            Refusal::Level(_) => 2,
            Refusal::Lengths(_, _) | Refusal::Input(_, _) => 8,
            Refusal::System(_) | Refusal::Wires(_) => 9,
            Refusal::Wave(_) => 10,
            Refusal::Assembly(_, _) => 11,
        }
    }
}

impl fmt::Display for Refusal<'_> {
    ghost use Rattle.std.specs.Prelude.{Some};
    ghost use Rattle.sap_files.specs.Ending.{refusal_text};
    ghost use Rattle.sap_files.specs.Steps.{reason};

    ghost output = { λ why. Some (refusal_text (reason why)) };

    fn fmt<W: fmt::Write>(&self, f: &mut fmt::Formatter<W>) -> fmt::Result {
        match self {
            Refusal::Lattice(fault) => write!(f, "lattice: {fault}"),
            Refusal::Design(fault) => write!(f, "design: {fault}"),
            Refusal::Part(part, fault) => write!(f, "part {part}: {fault}"),
            Refusal::System(fault) => write!(f, "system: {fault}"),
            Refusal::Wires(fault) => write!(f, "system: {fault}"),
            Refusal::Stimulus(place, fault) => write!(f, "stimulus {place}: {fault}"),
            Refusal::Module(fault) => write!(f, "module: {fault}"),
            Refusal::Taint(fault) => write!(f, "module: {fault}"),
            Refusal::Level(word) => write!(f, "level {word}"),
            Refusal::Lengths(one, other) => write!(f, "streams: lengths {one} and {other}"),
            Refusal::Input(cycle, name) => write!(f, "streams: cycle {cycle} input {name}"),
            Refusal::Wave(fault) => write!(f, "wave: {fault}"),
            Refusal::Assembly(place, fault) => write!(
                f,
                "asm {place}: {} line {}",
                code_text(fault.code),
                fault.line
            ),
        }
    }
}
