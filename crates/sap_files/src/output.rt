//! What a command writes: its text on channel 1, or a file.

ghost use Rattle.std.specs.Prelude.{◌≡◌, ◌≤◌, ℕ, List, []};
ghost use Rattle.sap_pieces.specs.declared.TheConstants.{LARGE_BYTES};
ghost use Rattle.sap_files.specs.Asks.{end_of, gives, writes};
ghost use Rattle.sap_files.specs.Steps.{Ends, ending_of, seen};

use crate::failure::Failure;
use crate::refusal::Refusal;
use sap_desk::{Bytes, Desk, DeskError, RowBuf, write_file, write_output};
use sap_pieces::{Pieces, print_pieces};
use sap_stim::fault::StimFault;

/// How a command ends whose stimulus has this fault, if any.
pub fn end<'a>(fault: Option<StimFault>) -> Result<(), Failure<'a>>
    ensures { ending_of result ≡ end_of fault }
{
    match fault {
        None => Ok(()),
        Some(fault) => Err(Failure::Refused(Refusal::Stimulus(1, fault))),
    }
}

/// Writes bytes on channel 1.
pub fn put_bytes<'a, D: Desk>(desk: &mut D, text: &[u8]) -> Result<(), Failure<'a>>
    ensures { Ends (gives (λ given. given ≡ text.now)) (ending_of result) (seen D.told D.faults D.lost D.sure desk.old) (seen D.told D.faults D.lost D.sure desk.new) }
{
    match write_output(desk, text) {
        Ok(()) => Ok(()),
        Err(_) => Err(Failure::Desk("output")),
    }
}

/// Writes a text on channel 1.
pub fn put<'a, D: Desk>(desk: &mut D, text: &Bytes) -> Result<(), Failure<'a>>
    ensures { Ends (gives (λ given. given ≡ text.now)) (ending_of result) (seen D.told D.faults D.lost D.sure desk.old) (seen D.told D.faults D.lost D.sure desk.new) }
{
    put_bytes(desk, text.as_slice())
}

/// Writes pieces on channel 1, which wait in a buffer to be written.
pub fn put_pieces<'a, D: Desk, P: Pieces>(
    desk: &mut D,
    pieces: &mut P,
    waiting: &mut RowBuf,
) -> Result<(), Failure<'a>>
    requires stands { (text : List ℕ) × P.comes pieces.old text }
    requires waiting { waiting.old.bytes ≡ [] }
    requires room { LARGE_BYTES ≤ waiting.old.room }
    ensures { (text : List ℕ) → P.comes pieces.old text
        → Ends (gives (λ given. given ≡ text)) (ending_of result) (seen D.told D.faults D.lost D.sure desk.old) (seen D.told D.faults D.lost D.sure desk.new) }
{
    match print_pieces(desk, pieces, waiting) {
        Ok(()) => Ok(()),
        Err(_) => Err(Failure::Desk("output")),
    }
}

/// Writes a text to a file.
pub fn write<'a, D: Desk>(desk: &mut D, name: &'a str, text: &Bytes) -> Result<(), Failure<'a>>
    ensures { Ends (writes name.now (λ written. written ≡ text.now)) (ending_of result) (seen D.told D.faults D.lost D.sure desk.old) (seen D.told D.faults D.lost D.sure desk.new) }
{
    match write_file(desk, name, text.as_slice()) {
        Ok(()) => Ok(()),
        Err(DeskError::Failed) => Err(Failure::Desk(name)),
        Err(DeskError::Memory) => Err(Failure::Memory),
    }
}
