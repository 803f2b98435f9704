//! Value change dumps: what a dump is a reading of, what is wrong with one, and the dump of a run.
//!
//! Each law stands on an empty function, whose clauses a caller in another crate has by calling it.
#![tactic(auto)]

mod block_list;
mod changes;
mod digits;
pub mod dumper;
mod eights;
pub mod fault;
mod numbers;
mod parts;
mod pieces;
mod reading;
mod registers;
mod room;
mod state;
mod steps;
mod texts;
pub mod variable;
pub mod wave;

ghost use Rattle.sap_wave.specs.Digits.{OneIdentifier, OneNumeral, BitsReadBack};
ghost use Rattle.sap_wave.specs.Laws.{OneWaveOrFault, EachWaveOrFault, DumpsAddUp, DumpsReadSo, RunsReadBack};
ghost use Rattle.sap_wave.specs.Examples as examples;

pub use dumper::Dumper;
pub use fault::{WaveCode, WaveFault};
pub use reading::read_wave;
pub use variable::Variable;
pub use wave::Wave;

/// Each variable's number has exactly one identifier, each number exactly one numeral, and the bits of a number spell it.
pub fn digits_read_back()
    ensures identifiers { OneIdentifier }
    ensures numerals { OneNumeral }
    ensures bits { BitsReadBack }
{}

/// A text has one reading or one first fault, and not both.
pub fn one_wave_or_fault()
    ensures one { OneWaveOrFault }
    ensures each { EachWaveOrFault }
{}

/// A text is the dump of a wave exactly where its lines, one by one, read as that wave.
pub fn dumps_read_line_by_line()
    ensures { DumpsReadSo }
{}

/// The dump of a netlist's run reads back as the run: first the initial numbers, then those after each cycle's edge.
pub fn runs_read_back()
    ensures { RunsReadBack }
{}

/// The head and the blocks that a dumper writes, one behind another, add up to the dump of the run.
pub fn blocks_add_up()
    ensures { DumpsAddUp }
{}

/// What small dumps are, worked out.
pub fn worked_dumps()
    ensures written { examples.Written }
    ensures read { examples.Read }
    ensures other_number { examples.OtherNumber }
    ensures nothing { examples.Nothing }
    ensures not_ended { examples.NotEnded }
    ensures no_block { examples.NoBlock }
    ensures other_identifier { examples.OtherIdentifier }
    ensures unknown_variable { examples.UnknownVariable }
    ensures same_number { examples.SameNumber }
    ensures no_number { examples.NoNumber }
    ensures identifiers { examples.Identifiers }
    ensures bits { examples.Bits }
{}
