//! The reader.

ghost use Rattle.std.specs.Prelude.{◌≡◌, ◌≢◌, ◌+◌, ◌-◌, ◌<◌, ◌^◌, ◌↔◌, ◌++◌, All, IfOk, IfSome, IsTrue, true, length, take};
ghost use Rattle.sap_desk.specs.Cause.{FailsToRead};
ghost use Rattle.sap_desk.specs.Desk.{rest_of};
ghost use Rattle.sap_desk.specs.Whole.{Between};
ghost use Rattle.sap_stim.specs.Fits.{LineFits};
ghost use Rattle.sap_stim.specs.Line.{IsSized};
ghost use Rattle.sap_stream.specs.Spans.{IsCount};
ghost use Rattle.sap_lines.specs.Answers.{Counted, ReadOn, TakesLine, TakesSome, Tells, TellsBy, TellsSome, count_after, is_failed, is_line};
ghost use Rattle.sap_lines.specs.Fetched.{IsDecided};
ghost use Rattle.sap_lines.specs.Reader.{Backed, IsNew, to_come};
ghost use Rattle.sap_lines.specs.declared.TheConstants.{PIECE_BYTES};

use crate::Next;
use crate::fetch::{fetch, is_decided};
use crate::held::Held;
use crate::next::keep;
use crate::taken::{take_ahead, take_line};
use sap_desk::{Desk, Failed};
use sap_lattice::lattice::Lattice;
use sap_lattice::level::Level;
use sap_stim::{Field, Fields};
use sap_stream::{Inputs, Tagged};
use std::alloc::{AllocError, Global};
use std::marker::Model;

/// Reads the lines of a stimulus from a channel, one after another. It takes all its memory when it is
/// made.
#[derive(Debug, Drop)]
pub struct Lines {
    fields: Vec<Field>,
    held: Held,
    // what the last line gave, and for how many cycles; nothing is said of them where the last answer was no line
    inputs: Inputs,
    cycles: u32,
    count: u64,
    live: bool,
}

impl Model for Lines {
    ghost use Rattle.std.specs.Prelude.{◌≡◌, All, length};
    ghost use Rattle.sap_stim.specs.Line.{IsSized};
    ghost use Rattle.sap_stream.specs.Spans.{IsCount};
    ghost use Rattle.sap_lines.specs.Reader.{Reader};

    ghost Value = { Reader };

    ghost view = { λ l. record { fields = l.fields.items; live = l.live; line = record { inputs = l.inputs; count = l.cycles }; count = l.count; pending = l.held } };

    ghost invariant = { λ l. All IsSized l.fields.items × (length l.inputs ≡ length l.fields.items) × IsCount l.cycles };
}

impl Lines {
    /// A reader of lines with these fields.
    pub fn new(alloc: Global, fields: &Fields) -> Result<Lines, AllocError>
        requires widths { All IsSized fields.now }
        ensures { IfOk result (IsNew fields.now) }
    {
        let fields = Vec::from_slice(alloc, fields.as_slice())?;
        let mut inputs = Vec::new(alloc);
        inputs.resize(fields.len(), Tagged::new(0, Level::new(0)))?;
        Ok(Lines {
            fields,
            held: Held::new(alloc)?,
            inputs: Inputs::new(inputs),
            cycles: 1,
            count: 0,
            live: true,
        })
    }

    /// Whether a further line may be asked for.
    pub fn live(&self) -> bool
        ensures { result ≡ self.now.live }
    {
        self.live
    }

    /// What the last line gave for each of its cycles. Nothing is said of them where the last answer was no line, or none
    /// was asked for.
    pub fn inputs(&self) -> &Inputs
        ensures { result.now ≡ self.now.line.inputs }
    {
        &self.inputs
    }

    /// For how many cycles the last line stands. Only its range is said where the last answer was no line, or none was
    /// asked for. It takes no memory.
    pub fn count(&self) -> u32
        ensures number { result ≡ self.now.line.count }
        ensures within { IsCount self.now.line.count }
    {
        self.cycles
    }

    /// Whether the bytes that were read tell the next line, so that `next` reads none.
    pub fn holds_line(&self) -> bool
        ensures { IsTrue result ↔ IsDecided self.now.pending }
    {
        is_decided(&self.held)
    }

    /// Reads the next line. Where the bytes that were read before tell it, it makes no call on the desk,
    /// and after a failed call no further one. It takes no memory.
    pub fn next<D: Desk>(&mut self, desk: &mut D, channel: usize, lattice: &Lattice) -> Next
        requires live { self.old.live ≡ true }
        requires channel { channel ≢ 2 }
        // What it answers.
        ensures lines { self.old.count < 2 ^ 32 → Between (D.told desk.old) (D.told desk.new)
            (λ t n. Tells result (to_come lattice.now self.old (rest_of t channel)) self.new.line (to_come lattice.now self.new (rest_of n channel))) }
        ensures some { self.old.count < 2 ^ 32 → TellsSome lattice.now result self.old self.new }
        ensures by { self.old.count < 2 ^ 32 → IfSome (D.told desk.old)
            (λ t. TellsBy lattice.now result self.old self.new (take (D.given desk.new channel - D.given desk.old channel) (rest_of t channel))) }
        ensures takes { IsTrue (is_line result) → IfSome (D.told desk.old)
            (λ t. TakesLine lattice.now self.old self.new (take (D.given desk.new channel - D.given desk.old channel) (rest_of t channel))) }
        ensures takes_some { IsTrue (is_line result) → TakesSome lattice.now self.old self.new (D.given desk.new channel - D.given desk.old channel) }
        ensures fits { IsTrue self.new.live → LineFits lattice.now self.new.fields self.new.line.inputs }
        ensures live { self.new.live ≡ is_line result }
        ensures fields { self.new.fields ≡ self.old.fields }
        ensures count { self.new.count ≡ count_after result self.old.count }
        // What becomes of the desk.
        ensures read { ReadOn result channel self.old.pending (D.told desk.old) (D.told desk.new) (D.given desk.old) (D.given desk.new) }
        ensures still { IsDecided self.old.pending → desk.new ≡ desk.old }
        ensures wanted { IsTrue (is_failed result) → IfSome (D.told desk.old)
            (λ t. ¬ IsDecided (self.old.pending ++ take (D.given desk.new channel - D.given desk.old channel) (rest_of t channel))) }
        ensures backed { Backed self.old (D.given desk.old channel) → Backed self.new (D.given desk.new channel) }
        ensures bounded { D.given desk.old channel < 2 ^ 32 → D.given desk.new channel < 2 ^ 32 }
        ensures faults { Counted result (D.faults desk.old) (D.faults desk.new) }
        ensures lost { D.lost desk.new ≡ D.lost desk.old }
        ensures sure { D.sure desk.old → D.sure desk.new }
        ensures cause { IsTrue (is_failed result) → D.sure desk.old → IfSome (D.told desk.new) (FailsToRead channel (D.given desk.new channel) PIECE_BYTES) }
    {
        match fetch(&mut self.held, desk, channel) {
            Ok(()) => {
                if let Some(cycles) = take_ahead(
                    &mut self.held,
                    self.fields.as_slice(),
                    lattice,
                    &mut self.inputs,
                ) {
                    self.cycles = cycles;
                    self.count = self.count.saturating_add(1);
                    return Next::Line;
                }
                let next = take_line(
                    &mut self.held,
                    self.fields.as_slice(),
                    lattice,
                    self.count,
                    &mut self.inputs,
                    &mut self.cycles,
                );
                keep(next, &mut self.live, &mut self.count);
                next
            }
            Err(Failed) => {
                keep(Next::Failed, &mut self.live, &mut self.count);
                Next::Failed
            }
        }
    }
}
