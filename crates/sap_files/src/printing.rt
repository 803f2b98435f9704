//! What a command prints of a stimulus, line by line.

ghost use Rattle.std.specs.Prelude.{◌≡◌, ◌≤◌, []};
ghost use Rattle.sap_lines.specs.Reader.{IsNew};
ghost use Rattle.sap_pieces.specs.declared.TheConstants.{LARGE_BYTES};
ghost use Rattle.sap_files.specs.Asks.{prints};
ghost use Rattle.sap_lines.specs.Stepping.Followed.{blamed_for};
ghost use Rattle.sap_lines.specs.Stepping.Pace.{printed_fault, printed_text};
ghost use Rattle.sap_files.specs.Steps.{Ends, HasWhole, ending_of, seen};

use crate::buffers::Buffers;
use crate::failure::Failure;
use crate::output::end;
use sap_desk::{Desk, RowBuf};
use sap_lines::{FailedCall, Lines, Steps, Stopped, print};

// Whom a failed call blames.
fn blamed<'a>(why: FailedCall, stimulus: &'a str) -> &'a str
    ensures { result.now ≡ blamed_for why stimulus.now }
{
    match why {
        FailedCall::Input => stimulus,
        FailedCall::Output => "output",
    }
}

/// Prints what the steps on the lines of a stimulus file show, and ends as its lines do. What they show waits in `waiting`
/// to be written; a step of which the text may be too long to wait there too is put into `out` first.
pub fn print_steps<'a, D: Desk, S: Steps>(
    desk: &mut D,
    stimulus: &'a str,
    steps: &mut S,
    lines: &mut Lines,
    out: &mut RowBuf,
    waiting: &mut RowBuf,
) -> Result<(), Failure<'a>>
    requires lines { IsNew (S.fields steps.old) lines.old }
    requires behind { S.behind steps.old [] }
    requires shows { S.shows steps.old [] [] }
    requires room { S.room steps.old ≤ out.old.room }
    requires waiting { waiting.old.bytes ≡ [] }
    requires large { LARGE_BYTES ≤ waiting.old.room }
    requires whole { HasWhole (S.shows steps.old) (S.levels steps.old) (S.fields steps.old) }
    ensures { Ends (prints stimulus.now (printed_text (S.shows steps.old) (S.levels steps.old) (S.fields steps.old)) (printed_fault (S.levels steps.old) (S.fields steps.old)))
        (ending_of result) (seen D.told D.faults D.lost D.sure desk.old) (seen D.told D.faults D.lost D.sure desk.new) }
{
    match print(desk, stimulus, steps, lines, out, waiting) {
        Ok(fault) => end(fault),
        Err(Stopped::Call(why)) => Err(Failure::Desk(blamed(why, stimulus))),
        Err(Stopped::Memory) => Err(Failure::Memory),
    }
}

/// Prints what the steps on the lines of a stimulus file show, with memory of its own, and ends as its lines do.
pub fn print_with<'a, D: Desk, S: Steps + Drop>(
    desk: &mut D,
    stimulus: &'a str,
    mut steps: S,
    mut held: Buffers,
) -> Result<(), Failure<'a>>
    requires lines { IsNew (S.fields steps) held.lines }
    requires behind { S.behind steps [] }
    requires shows { S.shows steps [] [] }
    requires room { S.room steps ≤ held.out.room }
    requires waiting { held.waiting.bytes ≡ [] }
    requires large { LARGE_BYTES ≤ held.waiting.room }
    requires whole { HasWhole (S.shows steps) (S.levels steps) (S.fields steps) }
    ensures { Ends (prints stimulus.now (printed_text (S.shows steps) (S.levels steps) (S.fields steps)) (printed_fault (S.levels steps) (S.fields steps)))
        (ending_of result) (seen D.told D.faults D.lost D.sure desk.old) (seen D.told D.faults D.lost D.sure desk.new) }
{
    print_steps(
        desk,
        stimulus,
        &mut steps,
        &mut held.lines,
        &mut held.out,
        &mut held.waiting,
    )
}
