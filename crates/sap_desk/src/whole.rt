// Whole files through a desk.
ghost use Rattle.std.specs.Prelude.{◌≡◌, ◌⊎◌, ◌+◌, ◌<◌, ◌≤◌, ◌^◌, ℕ, min, Some, None, length, IfOk, OnOk, IfSome, IsErrOf};
ghost use Rattle.sap_desk.specs.Desk.{at_number, rest_of, blamed, IsReading};
ghost use Rattle.sap_desk.specs.Cause.{CountsOpen};
ghost use Rattle.sap_desk.specs.Whole.{Between, FailedReading, IsFront, IsFrontOf, LeftOpen, MissingOrFar, MissingOrLong, ReadTo, StoodWithin, Wrote, WritesOn, FailedWriting, FillsFile};

use crate::{Bytes, Desk, DeskError};
use std::alloc::Global;

// Reads what a channel has left, until more than `limit` bytes were got.
fn read_until<D: Desk>(
    alloc: Global,
    desk: &mut D,
    channel: usize,
    limit: usize,
) -> Result<Vec<u8>, DeskError>
    requires { 2 < channel }
    ensures bytes { IfOk result (λ bytes. IfSome (D.told desk.old) (λ t. IsFront limit (rest_of t channel) bytes.items)) }
    ensures most { IfOk result (λ bytes. length bytes.items ≤ limit + 4096) }
    ensures short { IfOk result (λ bytes. length bytes.items < 2 ^ 32) }
    ensures told { IfOk result (λ bytes. ReadTo limit channel (length bytes.items) (λ name t. t) (D.told desk.old) (D.told desk.new)) }
    ensures failed { IsErrOf result DeskError.Failed → (count : ℕ) × ReadTo limit channel count blamed (D.told desk.old) (D.told desk.new) }
    ensures memory { IsErrOf result DeskError.Memory → (count : ℕ) × ReadTo limit channel count (λ name t. t) (D.told desk.old) (D.told desk.new) }
    ensures given { IfOk result (λ bytes. D.given desk.new ≡ at_number channel (D.given desk.old channel + length bytes.items) (D.given desk.old)) }
    ensures counts { CountsOpen (D.faults desk.old) (D.faults desk.new) (D.lost desk.old) (D.lost desk.new) result }
    ensures sure { D.sure desk.old → D.sure desk.new }
    ensures cause { IsErrOf result DeskError.Failed → D.sure desk.old → IfSome (D.told desk.old) (λ t. (¬ IsReading (t.uses channel)) ⊎ (2 ^ 32 ≤ D.given desk.old channel + min (limit + 4096) (length (rest_of t channel)))) }
{
    let mut bytes = Vec::new(alloc);
    let mut piece = [0u8; 4096];
    while bytes.len() <= limit {
        let count = desk.read(channel, &mut piece)?;
        if count == 0 {
            return Ok(bytes);
        }
        bytes.extend_from_slice(&piece[..count])?;
    }
    Ok(bytes)
}

/// Reads the file of a name until more than `limit` bytes were got, or its end, in pieces of 4096 bytes, and no further:
/// all that its channel gave is got. After a failed call it makes no further one.
pub fn read_front<D: Desk>(
    alloc: Global,
    desk: &mut D,
    name: &str,
    limit: usize,
) -> Result<Bytes, DeskError>
    ensures bytes { IfOk result (λ bytes. IfSome (D.told desk.old) (IsFrontOf limit name.now bytes)) }
    ensures most { IfOk result (λ bytes. length bytes ≤ limit + 4096) }
    ensures short { IfOk result (λ bytes. length bytes < 2 ^ 32) }
    ensures told { OnOk result (D.told desk.new ≡ D.told desk.old) }
    ensures failed { IsErrOf result DeskError.Failed → Between (D.told desk.old) (D.told desk.new) (FailedReading name.now) }
    ensures memory { IsErrOf result DeskError.Memory → D.told desk.new ≡ D.told desk.old }
    ensures counts { CountsOpen (D.faults desk.old) (D.faults desk.new) (D.lost desk.old) (D.lost desk.new) result }
    ensures sure { D.sure desk.old → D.sure desk.new }
    ensures cause { IsErrOf result DeskError.Failed → D.sure desk.old → IfSome (D.told desk.old) (MissingOrFar limit name.now) }
    ensures open { IsErrOf result DeskError.Failed → D.sure desk.old → Between (D.told desk.old) (D.told desk.new) (LeftOpen name.now) }
    ensures stood { IsErrOf result DeskError.Failed → Between (D.told desk.old) (D.told desk.new) (StoodWithin (Some limit) name.now) }
    ensures given { IfOk result (λ bytes. (channel : ℕ) × (D.given desk.new ≡ at_number channel (length bytes) (D.given desk.old))) }
{
    let channel = desk.open_in(name)?;
    match read_until(alloc, desk, channel, limit) {
        Ok(bytes) => {
            desk.finish(channel)?;
            Ok(Bytes::new(bytes))
        }
        Err(DeskError::Memory) => {
            desk.finish(channel)?;
            Err(DeskError::Memory)
        }
        Err(DeskError::Failed) => Err(DeskError::Failed),
    }
}

/// Reads the whole file of a name, in pieces of 4096 bytes. After a failed call it makes no further one.
pub fn read_file<D: Desk>(alloc: Global, desk: &mut D, name: &str) -> Result<Bytes, DeskError>
    ensures bytes { IfOk result (λ bytes. IfSome (D.told desk.old) (λ t. t.files name.now ≡ Some bytes)) }
    ensures short { IfOk result (λ bytes. length bytes < 2 ^ 32) }
    ensures told { OnOk result (D.told desk.new ≡ D.told desk.old) }
    ensures failed { IsErrOf result DeskError.Failed → Between (D.told desk.old) (D.told desk.new) (FailedReading name.now) }
    ensures memory { IsErrOf result DeskError.Memory → D.told desk.new ≡ D.told desk.old }
    ensures counts { CountsOpen (D.faults desk.old) (D.faults desk.new) (D.lost desk.old) (D.lost desk.new) result }
    ensures sure { D.sure desk.old → D.sure desk.new }
    ensures cause { IsErrOf result DeskError.Failed → D.sure desk.old → IfSome (D.told desk.old) (MissingOrLong name.now) }
    ensures open { IsErrOf result DeskError.Failed → D.sure desk.old → Between (D.told desk.old) (D.told desk.new) (LeftOpen name.now) }
    ensures stood { IsErrOf result DeskError.Failed → Between (D.told desk.old) (D.told desk.new) (StoodWithin None name.now) }
{
    read_front(alloc, desk, name, usize::MAX)
}

/// Makes a file of these bytes, in one piece. It takes no memory once the file is made, and after a failed call it makes
/// no further one.
pub fn write_file<D: Desk>(desk: &mut D, name: &str, bytes: &[u8]) -> Result<(), DeskError>
    ensures ok { OnOk result (Between (D.told desk.old) (D.told desk.new) (Wrote name.now bytes.now)) }
    ensures failed { IsErrOf result DeskError.Failed → Between (D.told desk.old) (D.told desk.new) (FailedWriting name.now bytes.now) }
    ensures memory { IsErrOf result DeskError.Memory → D.told desk.new ≡ D.told desk.old }
    ensures given { D.given desk.new ≡ D.given desk.old }
    ensures counts { CountsOpen (D.faults desk.old) (D.faults desk.new) (D.lost desk.old) (D.lost desk.new) result }
    ensures sure { D.sure desk.old → D.sure desk.new }
    ensures cause { IsErrOf result DeskError.Failed → D.sure desk.old → Between (D.told desk.old) (D.told desk.new) (FillsFile name.now bytes.now) }
    ensures open { IsErrOf result DeskError.Failed → D.sure desk.old → Between (D.told desk.old) (D.told desk.new) (λ t n. WritesOn name.now t.uses n.uses) }
{
    let channel = desk.create(name)?;
    desk.write(channel, bytes)?;
    desk.finish(channel)?;
    Ok(())
}
