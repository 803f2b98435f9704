// Counts of failed calls.
ghost use Rattle.std.specs.Prelude.{◌≡◌, ◌≤◌, IsErr};
ghost use Rattle.sap_desk.specs.Cause.{CountsAt, counted};

use crate::Failed;

// Counts a failed call, up to the last value.
pub fn count(calls: &mut u64)
    ensures counted { calls.new ≡ counted calls.old }
    ensures later { calls.old ≤ calls.new }
{
    *calls = calls.saturating_add(1);
}

// The answer of a call on a channel that failed, counted on channel 2 as lost and else as a fault.
pub fn fail<T>(channel: usize, faults: &mut u64, lost: &mut u64) -> Result<T, Failed>
    ensures failed { IsErr result }
    ensures counts { CountsAt channel faults.old faults.new lost.old lost.new result }
{
    if channel == 2 {
        count(lost);
    } else {
        count(faults);
    }
    Err(Failed)
}
