//! Bytes that wait to be written.

ghost use Rattle.std.specs.Prelude.{◌≡◌, ◌+◌, ◌++◌, ◌<◌, ◌≤◌, [], OnOk, OnErr, IfSome, length, option_map};
ghost use Rattle.sap_desk.specs.Cause.{CountsAt, FailsToWrite};
ghost use Rattle.sap_desk.specs.Desk.{added};
ghost use Rattle.sap_pieces.specs.Written.{CutOff, PartWritten};
ghost use Rattle.sap_pieces.specs.declared.TheConstants.{LARGE_BYTES};

use crate::LARGE_BYTES;
use sap_desk::{Desk, Failed, RowBuf};

/// Writes a text.
pub fn write_text<D: Desk>(desk: &mut D, channel: usize, text: &[u8]) -> Result<(), Failed>
    ensures told { OnOk result (D.told desk.new ≡ option_map (added channel text.now) (D.told desk.old)) }
    ensures failed { OnErr result (CutOff channel text.now (D.told desk.old) (D.told desk.new)) }
    ensures cause { OnErr result (D.sure desk.old → IfSome (D.told desk.old) (λ t. FailsToWrite channel text.now t (D.told desk.new))) }
    ensures given { D.given desk.new ≡ D.given desk.old }
    ensures counts { CountsAt channel (D.faults desk.old) (D.faults desk.new) (D.lost desk.old) (D.lost desk.new) result }
    ensures sure { D.sure desk.old → D.sure desk.new }
{
    desk.write(channel, text)
}

// Adds a text to what waits, where there is room for it.
fn add(waiting: &mut RowBuf, text: &[u8])
    requires room { length waiting.old.bytes + length text.now ≤ waiting.old.room }
    ensures bytes { waiting.new.bytes ≡ waiting.old.bytes ++ text.now }
    ensures room { waiting.old.room ≤ waiting.new.room }
{
    let mut bytes = waiting.take();
    bytes.extend_from_slice(text).unwrap();
    waiting.put(bytes);
}

/// Writes all that waits.
pub fn flush<D: Desk>(desk: &mut D, channel: usize, waiting: &mut RowBuf) -> Result<(), Failed>
    ensures told { OnOk result (D.told desk.new ≡ option_map (added channel waiting.old.bytes) (D.told desk.old)) }
    ensures none { OnOk result (waiting.new.bytes ≡ []) }
    ensures room { waiting.old.room ≤ waiting.new.room }
    ensures failed { OnErr result (CutOff channel waiting.old.bytes (D.told desk.old) (D.told desk.new)) }
    ensures cause { OnErr result (D.sure desk.old → IfSome (D.told desk.old) (λ t. FailsToWrite channel waiting.old.bytes t (D.told desk.new))) }
    ensures given { D.given desk.new ≡ D.given desk.old }
    ensures counts { CountsAt channel (D.faults desk.old) (D.faults desk.new) (D.lost desk.old) (D.lost desk.new) result }
    ensures sure { D.sure desk.old → D.sure desk.new }
{
    write_text(desk, channel, waiting.bytes())?;
    waiting.clear();
    Ok(())
}

// Writes what waits, where a text behind it would be large.
fn make_room<D: Desk>(
    desk: &mut D,
    channel: usize,
    waiting: &mut RowBuf,
    text: &[u8],
) -> Result<(), Failed>
    requires few { length waiting.old.bytes ≤ LARGE_BYTES }
    ensures written { OnOk result (PartWritten channel waiting.old.bytes waiting.new.bytes (D.told desk.old) (D.told desk.new)) }
    ensures room { waiting.old.room ≤ waiting.new.room }
    ensures fits { OnOk result (length text.now ≤ LARGE_BYTES → length waiting.new.bytes + length text.now ≤ LARGE_BYTES) }
    ensures few { OnOk result (length waiting.new.bytes ≤ LARGE_BYTES) }
    ensures none { OnOk result (LARGE_BYTES < length text.now → waiting.new.bytes ≡ []) }
    ensures failed { OnErr result (CutOff channel waiting.old.bytes (D.told desk.old) (D.told desk.new)) }
    ensures cause { OnErr result (D.sure desk.old → IfSome (D.told desk.old) (λ t. FailsToWrite channel waiting.old.bytes t (D.told desk.new))) }
    ensures given { D.given desk.new ≡ D.given desk.old }
    ensures counts { CountsAt channel (D.faults desk.old) (D.faults desk.new) (D.lost desk.old) (D.lost desk.new) result }
    ensures sure { D.sure desk.old → D.sure desk.new }
{
    if text.len() > LARGE_BYTES - waiting.bytes().len() {
        flush(desk, channel, waiting)?;
    }
    Ok(())
}

/// Adds a text to what waits, which is written before it would be larger than `LARGE_BYTES`.
pub fn put<D: Desk>(
    desk: &mut D,
    channel: usize,
    waiting: &mut RowBuf,
    text: &[u8],
) -> Result<(), Failed>
    requires few { length waiting.old.bytes ≤ LARGE_BYTES }
    requires room { LARGE_BYTES ≤ waiting.old.room }
    ensures written { OnOk result (PartWritten channel (waiting.old.bytes ++ text.now) waiting.new.bytes (D.told desk.old) (D.told desk.new)) }
    ensures few { OnOk result (length waiting.new.bytes ≤ LARGE_BYTES) }
    ensures room { waiting.old.room ≤ waiting.new.room }
    ensures failed { OnErr result (CutOff channel (waiting.old.bytes ++ text.now) (D.told desk.old) (D.told desk.new)) }
    ensures cause { OnErr result (D.sure desk.old → IfSome (D.told desk.old) (λ t. FailsToWrite channel (waiting.old.bytes ++ text.now) t (D.told desk.new))) }
    ensures given { D.given desk.new ≡ D.given desk.old }
    ensures counts { CountsAt channel (D.faults desk.old) (D.faults desk.new) (D.lost desk.old) (D.lost desk.new) result }
    ensures sure { D.sure desk.old → D.sure desk.new }
{
    make_room(desk, channel, waiting, text)?;
    if text.len() > LARGE_BYTES {
        return write_text(desk, channel, text);
    }
    add(waiting, text);
    Ok(())
}
