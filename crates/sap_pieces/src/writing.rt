//! Writing pieces, and a text before them.

ghost use Rattle.std.specs.Prelude.{◌≡◌, ◌++◌, ◌<◌, ◌≤◌, ℕ, List, [], OnOk, OnErr, IfSome, IsErrOf, option_map};
ghost use Rattle.sap_desk.specs.Cause.{CountsAt, CountsOpen, FailsToWrite, FillsRoom};
ghost use Rattle.sap_desk.specs.Desk.{IsWriting, added};
ghost use Rattle.sap_desk.specs.Whole.{Between, CountsFailed, CutOutput, FailedWriting, FillsFile, WritesOn, Wrote};
ghost use Rattle.sap_pieces.specs.Written.{CutOff};
ghost use Rattle.sap_pieces.specs.declared.TheConstants.{LARGE_BYTES};

use crate::pieces::Pieces;
use crate::waiting::{flush, put, write_text};
use sap_desk::{Desk, DeskError, Failed, RowBuf};

// Writes all pieces on a channel.
fn write_all<D: Desk, P: Pieces>(
    desk: &mut D,
    channel: usize,
    pieces: &mut P,
    waiting: &mut RowBuf,
) -> Result<(), Failed>
    requires stands { (text : List ℕ) × P.comes pieces.old text }
    requires waiting { waiting.old.bytes ≡ [] }
    requires room { LARGE_BYTES ≤ waiting.old.room }
    ensures told { OnOk result ((text : List ℕ) → P.comes pieces.old text → D.told desk.new ≡ option_map (added channel text) (D.told desk.old)) }
    ensures failed { OnErr result ((text : List ℕ) → P.comes pieces.old text → CutOff channel text (D.told desk.old) (D.told desk.new)) }
    ensures cause { OnErr result ((text : List ℕ) → P.comes pieces.old text → D.sure desk.old → IfSome (D.told desk.old) (λ t. FailsToWrite channel text t (D.told desk.new))) }
    ensures given { D.given desk.new ≡ D.given desk.old }
    ensures counts { CountsAt channel (D.faults desk.old) (D.faults desk.new) (D.lost desk.old) (D.lost desk.new) result }
    ensures sure { D.sure desk.old → D.sure desk.new }
{
    while pieces.advance() {
        put(desk, channel, waiting, pieces.piece())?;
    }
    flush(desk, channel, waiting)
}

/// Writes all pieces on channel 1. They wait in a buffer, and are written before they are larger together than
/// `LARGE_BYTES`. It takes no memory, and after a failed call it makes no further one.
pub fn print_pieces<D: Desk, P: Pieces>(
    desk: &mut D,
    pieces: &mut P,
    waiting: &mut RowBuf,
) -> Result<(), Failed>
    requires stands { (text : List ℕ) × P.comes pieces.old text }
    requires waiting { waiting.old.bytes ≡ [] }
    requires room { LARGE_BYTES ≤ waiting.old.room }
    ensures told { OnOk result ((text : List ℕ) → P.comes pieces.old text → D.told desk.new ≡ option_map (added 1 text) (D.told desk.old)) }
    ensures failed { OnErr result ((text : List ℕ) → P.comes pieces.old text → CutOutput text (D.told desk.old) (D.told desk.new)) }
    ensures given { D.given desk.new ≡ D.given desk.old }
    ensures counts { CountsFailed (D.faults desk.old) (D.faults desk.new) result }
    ensures lost { D.lost desk.new ≡ D.lost desk.old }
    ensures sure { D.sure desk.old → D.sure desk.new }
    ensures cause { OnErr result ((text : List ℕ) → P.comes pieces.old text → D.sure desk.old → IfSome (D.told desk.old) (λ t. IsWriting (t.uses 1) → FillsRoom 1 text t (D.told desk.new))) }
{
    write_all(desk, 1, pieces, waiting)
}

// Writes a text on a channel, and the pieces behind it.
fn write_behind<D: Desk, P: Pieces>(
    desk: &mut D,
    channel: usize,
    beginning: &[u8],
    pieces: &mut P,
    waiting: &mut RowBuf,
) -> Result<(), Failed>
    requires stands { (text : List ℕ) × P.comes pieces.old text }
    requires waiting { waiting.old.bytes ≡ [] }
    requires room { LARGE_BYTES ≤ waiting.old.room }
    ensures told { OnOk result ((text : List ℕ) → P.comes pieces.old text → D.told desk.new ≡ option_map (added channel (beginning.now ++ text)) (D.told desk.old)) }
    ensures failed { OnErr result ((text : List ℕ) → P.comes pieces.old text → CutOff channel (beginning.now ++ text) (D.told desk.old) (D.told desk.new)) }
    ensures cause { OnErr result ((text : List ℕ) → P.comes pieces.old text → D.sure desk.old → IfSome (D.told desk.old) (λ t. FailsToWrite channel (beginning.now ++ text) t (D.told desk.new))) }
    ensures given { D.given desk.new ≡ D.given desk.old }
    ensures counts { CountsAt channel (D.faults desk.old) (D.faults desk.new) (D.lost desk.old) (D.lost desk.new) result }
    ensures sure { D.sure desk.old → D.sure desk.new }
{
    write_text(desk, channel, beginning)?;
    write_all(desk, channel, pieces, waiting)
}

/// Makes a file of a text and of the pieces behind it. They wait in a buffer, and are written before they are larger
/// together than `LARGE_BYTES`. It takes no memory once the file is made, and after a failed call it makes no further one.
pub fn write_pieces<D: Desk, P: Pieces>(
    desk: &mut D,
    name: &str,
    beginning: &[u8],
    pieces: &mut P,
    waiting: &mut RowBuf,
) -> Result<(), DeskError>
    requires stands { (text : List ℕ) × P.comes pieces.old text }
    requires waiting { waiting.old.bytes ≡ [] }
    requires room { LARGE_BYTES ≤ waiting.old.room }
    ensures ok { OnOk result ((text : List ℕ) → P.comes pieces.old text → Between (D.told desk.old) (D.told desk.new) (Wrote name.now (beginning.now ++ text))) }
    ensures failed { IsErrOf result DeskError.Failed → (text : List ℕ) → P.comes pieces.old text → Between (D.told desk.old) (D.told desk.new) (FailedWriting name.now (beginning.now ++ text)) }
    ensures memory { IsErrOf result DeskError.Memory → D.told desk.new ≡ D.told desk.old }
    ensures given { D.given desk.new ≡ D.given desk.old }
    ensures counts { CountsOpen (D.faults desk.old) (D.faults desk.new) (D.lost desk.old) (D.lost desk.new) result }
    ensures sure { D.sure desk.old → D.sure desk.new }
    ensures cause { IsErrOf result DeskError.Failed → D.sure desk.old → (text : List ℕ) → P.comes pieces.old text → Between (D.told desk.old) (D.told desk.new) (FillsFile name.now (beginning.now ++ text)) }
    ensures open { IsErrOf result DeskError.Failed → D.sure desk.old → Between (D.told desk.old) (D.told desk.new) (λ t n. WritesOn name.now t.uses n.uses) }
{
    let channel = desk.create(name)?;
    write_behind(desk, channel, beginning, pieces, waiting)?;
    desk.finish(channel)?;
    Ok(())
}
