//! What steps show, as it waits to be written.

ghost use Rattle.std.specs.Prelude.{◌≡◌, ◌+◌, ◌++◌, ◌≤◌, ◌⊎◌, [], OnOk, OnErr, IfSome, IsTrue, false, length, option_map};
ghost use Rattle.sap_desk.specs.Cause.{FillsRoom};
ghost use Rattle.sap_desk.specs.Desk.{IsWriting, added};
ghost use Rattle.sap_desk.specs.Whole.{CountsFailed, CutOutput};
ghost use Rattle.sap_lines.specs.Fetched.{IsDecided};
ghost use Rattle.sap_pieces.specs.Written.{PartWritten};
ghost use Rattle.sap_pieces.specs.declared.TheConstants.{LARGE_BYTES};

use crate::Lines;
use sap_desk::{Desk, Failed, RowBuf, write_output};
use sap_pieces::LARGE_BYTES;

/// Writes a text, if there is any.
pub fn write_text<D: Desk>(desk: &mut D, text: &[u8]) -> Result<(), Failed>
    ensures told { OnOk result (D.told desk.new ≡ option_map (added 1 text.now) (D.told desk.old)) }
    ensures failed { OnErr result (CutOutput text.now (D.told desk.old) (D.told desk.new)) }
    ensures given { D.given desk.new ≡ D.given desk.old }
    ensures counts { CountsFailed (D.faults desk.old) (D.faults desk.new) result }
    ensures lost { D.lost desk.new ≡ D.lost desk.old }
    ensures sure { D.sure desk.old → D.sure desk.new }
    ensures cause { OnErr result (D.sure desk.old → IfSome (D.told desk.old) (λ t. IsWriting (t.uses 1) → FillsRoom 1 text.now t (D.told desk.new))) }
{
    if text.is_empty() {
        return Ok(());
    }
    write_output(desk, text)
}

// Adds a text to what waits, where there is room for it.
fn add(waiting: &mut RowBuf, text: &[u8])
    requires room { length waiting.old.bytes + length text.now ≤ waiting.old.room }
    ensures bytes { waiting.new.bytes ≡ waiting.old.bytes ++ text.now }
    ensures room { waiting.old.room ≤ waiting.new.room }
{
    let mut bytes = waiting.take();
    bytes.extend_from_slice(text).unwrap();
    waiting.put(bytes);
}

// Writes what waits, where it must be written.
fn write_on<D: Desk>(desk: &mut D, waiting: &mut RowBuf, must: bool) -> Result<(), Failed>
    ensures written { OnOk result (PartWritten 1 waiting.old.bytes waiting.new.bytes (D.told desk.old) (D.told desk.new)) }
    ensures all { OnOk result (IsTrue must → waiting.new.bytes ≡ []) }
    ensures still { (must ≡ false) → desk.new ≡ desk.old }
    ensures less { length waiting.new.bytes ≤ length waiting.old.bytes }
    ensures room { waiting.old.room ≤ waiting.new.room }
    ensures failed { OnErr result (CutOutput waiting.old.bytes (D.told desk.old) (D.told desk.new)) }
    ensures given { D.given desk.new ≡ D.given desk.old }
    ensures counts { CountsFailed (D.faults desk.old) (D.faults desk.new) result }
    ensures lost { D.lost desk.new ≡ D.lost desk.old }
    ensures sure { D.sure desk.old → D.sure desk.new }
    ensures cause { OnErr result (D.sure desk.old → IfSome (D.told desk.old) (λ t. IsWriting (t.uses 1) → FillsRoom 1 waiting.old.bytes t (D.told desk.new))) }
{
    if must {
        write_text(desk, waiting.bytes())?;
        waiting.clear();
    }
    Ok(())
}

/// Adds a text to what waits, which is written before it would be larger than `LARGE_BYTES`.
pub fn show<D: Desk>(desk: &mut D, waiting: &mut RowBuf, text: &[u8]) -> Result<(), Failed>
    requires few { length waiting.old.bytes ≤ LARGE_BYTES }
    requires room { LARGE_BYTES ≤ waiting.old.room }
    ensures written { OnOk result (PartWritten 1 (waiting.old.bytes ++ text.now) waiting.new.bytes (D.told desk.old) (D.told desk.new)) }
    ensures still { length waiting.old.bytes + length text.now ≤ LARGE_BYTES → desk.new ≡ desk.old }
    ensures few { length waiting.new.bytes ≤ LARGE_BYTES }
    ensures room { waiting.old.room ≤ waiting.new.room }
    ensures failed { OnErr result (CutOutput (waiting.old.bytes ++ text.now) (D.told desk.old) (D.told desk.new)) }
    ensures given { D.given desk.new ≡ D.given desk.old }
    ensures counts { CountsFailed (D.faults desk.old) (D.faults desk.new) result }
    ensures lost { D.lost desk.new ≡ D.lost desk.old }
    ensures sure { D.sure desk.old → D.sure desk.new }
    ensures cause { OnErr result (D.sure desk.old → IfSome (D.told desk.old) (λ t. IsWriting (t.uses 1) → FillsRoom 1 (waiting.old.bytes ++ text.now) t (D.told desk.new))) }
{
    let spare = LARGE_BYTES - waiting.bytes().len();
    write_on(desk, waiting, text.len() > spare)?;
    if text.len() > LARGE_BYTES {
        return write_text(desk, text);
    }
    add(waiting, text);
    Ok(())
}

/// Writes all that waits where the next line isn't held, so before more is read.
pub fn flush_unless_held<D: Desk>(
    desk: &mut D,
    lines: &Lines,
    waiting: &mut RowBuf,
) -> Result<(), Failed>
    ensures written { OnOk result (PartWritten 1 waiting.old.bytes waiting.new.bytes (D.told desk.old) (D.told desk.new)) }
    ensures quiet { OnOk result (IsDecided lines.now.pending ⊎ (waiting.new.bytes ≡ [])) }
    ensures less { length waiting.new.bytes ≤ length waiting.old.bytes }
    ensures room { waiting.old.room ≤ waiting.new.room }
    ensures failed { OnErr result (CutOutput waiting.old.bytes (D.told desk.old) (D.told desk.new)) }
    ensures given { D.given desk.new ≡ D.given desk.old }
    ensures counts { CountsFailed (D.faults desk.old) (D.faults desk.new) result }
    ensures lost { D.lost desk.new ≡ D.lost desk.old }
    ensures sure { D.sure desk.old → D.sure desk.new }
    ensures cause { OnErr result (D.sure desk.old → IfSome (D.told desk.old) (λ t. IsWriting (t.uses 1) → FillsRoom 1 waiting.old.bytes t (D.told desk.new))) }
{
    write_on(desk, waiting, !lines.holds_line())
}
