//! Printing what the steps show.

ghost use Rattle.std.specs.Prelude.{◌≡◌, ◌+◌, ◌<◌, ◌≤◌, ◌^◌, ◌⊎◌, ◌++◌, ◌∷◌, ℕ, List, [], OnOk, OnErr, IfOk, IfErr, MatchResult, length};
ghost use Rattle.sap_desk.specs.Cause.{counted};
ghost use Rattle.sap_desk.specs.Desk.{IsWriting};
ghost use Rattle.sap_desk.specs.Whole.{Between, CountsFailed, CutOutput};
ghost use Rattle.sap_meaning.specs.Cycle.{Tagged as Given};
ghost use Rattle.sap_stream.specs.Spans.{cycles_in};
ghost use Rattle.sap_stim.specs.Fits.{LineFits};
ghost use Rattle.sap_lines.specs.Fetched.{IsDecided};
ghost use Rattle.sap_lines.specs.Reader.{IsNew};
ghost use Rattle.sap_lines.specs.Stepping.Cycles.{CyclesCut, CyclesShown, StepShown};
ghost use Rattle.sap_lines.specs.Stepping.Followed.{Broken, Counts, FailsFor, Followed, GoesTooFar, IsFaultOfSome};
ghost use Rattle.sap_lines.specs.Stepping.Pace.{printed_fault};
ghost use Rattle.sap_lines.specs.Stepping.Printed.{CallFailed, MissingOrTooLong, Printed, Stops};
ghost use Rattle.sap_pieces.specs.Written.{PartWritten};
ghost use Rattle.sap_pieces.specs.declared.TheConstants.{LARGE_BYTES};

use crate::stepping::steps::Steps;
use crate::stepping::stopped::{FailedCall, Stopped};
use crate::stepping::waiting::{flush_unless_held, show, write_text};
use crate::{Lines, Next, lines_follow};
use sap_desk::{Desk, DeskError, Failed, RowBuf};
use sap_pieces::LARGE_BYTES;
use sap_stim::StimFault;
use sap_stream::Inputs;

// Steps on a line once, in the cycle of this number. The text of the step is put straight behind what waits where any
// text would fit there, and else by way of `out`.
fn step_once<D: Desk, S: Steps>(
    desk: &mut D,
    steps: &mut S,
    line: &Inputs,
    cycle: u64,
    out: &mut RowBuf,
    waiting: &mut RowBuf,
) -> Result<(), Failed>
    requires stands { (cycles : List (List Given)) × S.behind steps.old cycles }
    requires line { LineFits (S.levels steps.old) (S.fields steps.old) line.now }
    requires room { S.room steps.old ≤ out.old.room }
    requires few { length waiting.old.bytes ≤ LARGE_BYTES }
    requires large { LARGE_BYTES ≤ waiting.old.room }
    // It is a step further.
    ensures behind { (cycles : List (List Given)) → S.behind steps.old cycles → S.behind steps.new (cycles ++ line.now ∷ []) }
    ensures shown { OnOk result (StepShown (S.behind steps.old) (S.shows steps.old) (S.shows steps.new) cycle line.now (λ text. PartWritten 1 (waiting.old.bytes ++ text) waiting.new.bytes (D.told desk.old) (D.told desk.new))) }
    // Or a write failed.
    ensures cut { OnErr result (StepShown (S.behind steps.old) (S.shows steps.old) (S.shows steps.new) cycle line.now (λ text. CutOutput (waiting.old.bytes ++ text) (D.told desk.old) (D.told desk.new))) }
    ensures cause { OnErr result (D.sure desk.old → Between (D.told desk.old) (D.told desk.new) (λ t n. IsWriting (t.uses 1) → length (n.written 1) ≡ n.room)) }
    ensures counts { CountsFailed (D.faults desk.old) (D.faults desk.new) result }
    // All else is as before.
    ensures same_levels { S.levels steps.new ≡ S.levels steps.old }
    ensures same_fields { S.fields steps.new ≡ S.fields steps.old }
    ensures same_room { S.room steps.new ≡ S.room steps.old }
    ensures same_shows { (cycles : List (List Given)) (text : List ℕ) → S.shows steps.new cycles text → S.shows steps.old cycles text }
    ensures room { out.old.room ≤ out.new.room }
    ensures few { length waiting.new.bytes ≤ LARGE_BYTES }
    ensures large { waiting.old.room ≤ waiting.new.room }
    ensures given { D.given desk.new ≡ D.given desk.old }
    ensures lost { D.lost desk.new ≡ D.lost desk.old }
    ensures sure { D.sure desk.old → D.sure desk.new }
{
    let spare = LARGE_BYTES - waiting.bytes().len();
    if steps.room() <= spare {
        steps.step(waiting, cycle, line);
        return Ok(());
    }
    out.clear();
    steps.step(out, cycle, line);
    show(desk, waiting, out.bytes())
}

// Steps on the last line that was read, in each of its cycles; `cycle` counts the steps. The texts of the steps wait to be
// written, behind the line no longer than until more has to be read.
fn step_line<D: Desk, S: Steps>(
    desk: &mut D,
    steps: &mut S,
    lines: &Lines,
    cycle: &mut u64,
    out: &mut RowBuf,
    waiting: &mut RowBuf,
) -> Result<(), Failed>
    requires stands { (cycles : List (List Given)) × S.behind steps.old cycles }
    requires line { LineFits (S.levels steps.old) (S.fields steps.old) lines.now.line.inputs }
    requires cycle { cycle.old < 2 ^ 48 }
    requires room { S.room steps.old ≤ out.old.room }
    requires few { length waiting.old.bytes ≤ LARGE_BYTES }
    requires large { LARGE_BYTES ≤ waiting.old.room }
    // It is a line further.
    ensures behind { OnOk result ((cycles : List (List Given)) → S.behind steps.old cycles → S.behind steps.new (cycles ++ cycles_in lines.now.line)) }
    ensures shown { OnOk result (CyclesShown (S.behind steps.old) (S.shows steps.old) (S.shows steps.new) cycle.old (cycles_in lines.now.line) waiting.old.bytes waiting.new.bytes (D.told desk.old) (D.told desk.new)) }
    ensures quiet { OnOk result (IsDecided lines.now.pending ⊎ (waiting.new.bytes ≡ [])) }
    ensures cycle { OnOk result (cycle.new ≡ cycle.old + lines.now.line.count) }
    ensures most { cycle.new ≤ cycle.old + 65535 }
    // Or a write failed.
    ensures cut { OnErr result (CyclesCut (S.behind steps.old) (S.shows steps.old) (S.shows steps.new) cycle.old lines.now.line waiting.old.bytes (D.told desk.old) (D.told desk.new)) }
    ensures cause { OnErr result (D.sure desk.old → Between (D.told desk.old) (D.told desk.new) (λ t n. IsWriting (t.uses 1) → length (n.written 1) ≡ n.room)) }
    ensures counts { CountsFailed (D.faults desk.old) (D.faults desk.new) result }
    // All else is as before.
    ensures same_levels { S.levels steps.new ≡ S.levels steps.old }
    ensures same_fields { S.fields steps.new ≡ S.fields steps.old }
    ensures same_room { S.room steps.new ≡ S.room steps.old }
    ensures same_shows { (cycles : List (List Given)) (text : List ℕ) → S.shows steps.new cycles text → S.shows steps.old cycles text }
    ensures room { out.old.room ≤ out.new.room }
    ensures few { length waiting.new.bytes ≤ LARGE_BYTES }
    ensures large { waiting.old.room ≤ waiting.new.room }
    ensures given { D.given desk.new ≡ D.given desk.old }
    ensures lost { D.lost desk.new ≡ D.lost desk.old }
    ensures sure { D.sure desk.old → D.sure desk.new }
{
    for _ in 0..lines.count() {
        *cycle += 1;
        step_once(desk, steps, lines.inputs(), *cycle, out, waiting)?;
    }
    flush_unless_held(desk, lines, waiting)
}

// Steps on the lines of a channel. The text of each step waits to be written, no longer than until more of the channel
// has to be read.
fn step_on<D: Desk, S: Steps>(
    desk: &mut D,
    channel: usize,
    steps: &mut S,
    lines: &mut Lines,
    out: &mut RowBuf,
    waiting: &mut RowBuf,
) -> Result<Option<StimFault>, FailedCall>
    requires above { 2 < channel }
    requires unread { D.given desk.old channel ≡ 0 }
    requires lines { IsNew (S.fields steps.old) lines.old }
    requires behind { S.behind steps.old [] }
    requires shows { S.shows steps.old [] [] }
    requires room { S.room steps.old ≤ out.old.room }
    requires waiting { waiting.old.bytes ≡ [] }
    requires large { LARGE_BYTES ≤ waiting.old.room }
    ensures done { IfOk result (λ fault. Between (D.told desk.old) (D.told desk.new) (Followed (S.shows steps.old) (S.levels steps.old) (S.fields steps.old) channel fault waiting.new.bytes)) }
    ensures some { IfOk result (IsFaultOfSome (S.levels steps.old) (S.fields steps.old)) }
    ensures broken { IfErr result (λ why. Between (D.told desk.old) (D.told desk.new) (Broken (S.shows steps.old) (S.levels steps.old) (S.fields steps.old) channel why)) }
    ensures faults { MatchResult result (λ _. D.faults desk.new ≡ D.faults desk.old) (λ _. D.faults desk.new ≡ counted (D.faults desk.old)) }
    ensures lost { D.lost desk.new ≡ D.lost desk.old }
    ensures sure { D.sure desk.old → D.sure desk.new }
    ensures cause { IfErr result (λ why. D.sure desk.old → Between (D.told desk.old) (D.told desk.new) (FailsFor (GoesTooFar (printed_fault (S.levels steps.old) (S.fields steps.old)) channel) why)) }
{
    lines_follow();
    let mut cycle: u64 = 0;
    loop {
        match lines.next(desk, channel, steps.lattice()) {
            Next::Line => match step_line(desk, steps, lines, &mut cycle, out, waiting) {
                Ok(()) => {}
                Err(Failed) => return Err(FailedCall::Output),
            },
            Next::End => return Ok(None),
            Next::Fault(fault) => return Ok(Some(fault)),
            Next::Failed => return Err(FailedCall::Input),
        }
    }
}

// Steps on the lines of a channel, and writes what the steps show.
fn follow<D: Desk, S: Steps>(
    desk: &mut D,
    channel: usize,
    steps: &mut S,
    lines: &mut Lines,
    out: &mut RowBuf,
    waiting: &mut RowBuf,
) -> Result<Option<StimFault>, FailedCall>
    requires above { 2 < channel }
    requires unread { D.given desk.old channel ≡ 0 }
    requires lines { IsNew (S.fields steps.old) lines.old }
    requires behind { S.behind steps.old [] }
    requires shows { S.shows steps.old [] [] }
    requires room { S.room steps.old ≤ out.old.room }
    requires waiting { waiting.old.bytes ≡ [] }
    requires large { LARGE_BYTES ≤ waiting.old.room }
    ensures done { IfOk result (λ fault. Between (D.told desk.old) (D.told desk.new) (Followed (S.shows steps.old) (S.levels steps.old) (S.fields steps.old) channel fault [])) }
    ensures some { IfOk result (IsFaultOfSome (S.levels steps.old) (S.fields steps.old)) }
    ensures broken { IfErr result (λ why. Between (D.told desk.old) (D.told desk.new) (Broken (S.shows steps.old) (S.levels steps.old) (S.fields steps.old) channel why)) }
    ensures faults { MatchResult result (λ _. D.faults desk.new ≡ D.faults desk.old) (λ _. D.faults desk.new ≡ counted (D.faults desk.old)) }
    ensures lost { D.lost desk.new ≡ D.lost desk.old }
    ensures sure { D.sure desk.old → D.sure desk.new }
    ensures cause { IfErr result (λ why. D.sure desk.old → Between (D.told desk.old) (D.told desk.new) (FailsFor (GoesTooFar (printed_fault (S.levels steps.old) (S.fields steps.old)) channel) why)) }
{
    match step_on(desk, channel, steps, lines, out, waiting) {
        Ok(fault) => match write_text(desk, waiting.bytes()) {
            Ok(()) => Ok(fault),
            Err(Failed) => Err(FailedCall::Output),
        },
        Err(why) => Err(why),
    }
}

/// Reads the stimulus of a name line by line, no further than its refused line, and steps on each line, in each of its
/// cycles, before the next one is read. The texts of the steps wait in a buffer, and are written before more of the file
/// is read, and before they are larger together than `LARGE_BYTES`. It takes no memory once the file is open, and after
/// a failed call it makes no further one.
pub fn print<D: Desk, S: Steps>(
    desk: &mut D,
    name: &str,
    steps: &mut S,
    lines: &mut Lines,
    out: &mut RowBuf,
    waiting: &mut RowBuf,
) -> Result<Option<StimFault>, Stopped>
    requires lines { IsNew (S.fields steps.old) lines.old }
    requires behind { S.behind steps.old [] }
    requires shows { S.shows steps.old [] [] }
    requires room { S.room steps.old ≤ out.old.room }
    requires waiting { waiting.old.bytes ≡ [] }
    requires large { LARGE_BYTES ≤ waiting.old.room }
    ensures done { IfOk result (λ fault. Between (D.told desk.old) (D.told desk.new) (Printed (S.shows steps.old) (S.levels steps.old) (S.fields steps.old) name.now fault)) }
    ensures some { IfOk result (IsFaultOfSome (S.levels steps.old) (S.fields steps.old)) }
    ensures stopped { IfErr result (λ why. Between (D.told desk.old) (D.told desk.new) (Stops (CallFailed (S.shows steps.old) (S.levels steps.old) (S.fields steps.old) name.now) why)) }
    ensures faults { Counts result (D.faults desk.old) (D.faults desk.new) }
    ensures lost { D.lost desk.new ≡ D.lost desk.old }
    ensures sure { D.sure desk.old → D.sure desk.new }
    ensures cause { IfErr result (λ why. D.sure desk.old → Between (D.told desk.old) (D.told desk.new) (Stops (FailsFor (MissingOrTooLong (printed_fault (S.levels steps.old) (S.fields steps.old)) name.now)) why)) }
{
    match desk.open_in(name) {
        Ok(channel) => match follow(desk, channel, steps, lines, out, waiting) {
            Ok(fault) => match desk.finish(channel) {
                Ok(()) => Ok(fault),
                Err(Failed) => Err(Stopped::Call(FailedCall::Input)),
            },
            Err(why) => Err(Stopped::Call(why)),
        },
        Err(DeskError::Failed) => Err(Stopped::Call(FailedCall::Input)),
        Err(DeskError::Memory) => Err(Stopped::Memory),
    }
}
