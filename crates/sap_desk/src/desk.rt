ghost use Rattle.std.specs.Prelude.{◌≡◌, ℕ, ◌+◌, ◌<◌, ◌≤◌, ◌^◌, Option, IsSome, None, length, IfOk, OnOk, OnErr, IfSome, IsErrOf, option_map};
ghost use Rattle.sap_desk.specs.Desk.{Told, closed, IsWriting, IsOpen, at_number, opened, moved, created, added, finished, blamed, blame_at, name_if_reading, name_if_open};
ghost use Rattle.sap_desk.specs.Cause.{CountsAt, CountsOpen, Gave, Took, FailsToRead, FailsToWrite};

use crate::{DeskError, Failed};

/// Named files and the standard streams, through numbered channels.
///
/// Channel 1 is the output and channel 2 takes the fault lines: both are open for writing from the start, until they
/// are finished. `open_in` and `create` answer the number of a further channel. A call on a channel that isn't open for
/// it answers `Failed`.
pub trait Desk {
    /// Files, channels and what was written, where the desk tells them.
    ghost told: { Self → Option Told };

    /// How many calls failed, but those on channel 2. It starts at 0, and stands still at 2^64 - 1.
    ghost faults: { Self → ℕ };

    /// How many calls on channel 2 failed, likewise.
    ghost lost: { Self → ℕ };

    /// How many bytes the reads of each channel gave since it was opened.
    ghost given: { Self → ℕ → ℕ };

    /// No call is still to fail by its number. Where it stands no call ends it.
    ghost sure: { Self → Type 0 };

    /// Opens a file for reading, at its first byte.
    fn open_in(&mut self, name: &str) -> Result<usize, DeskError>
        ensures number { IfOk result (λ channel. 2 < channel) }
        ensures told { IfOk result (λ channel. told self.new ≡ option_map (opened channel name.now) (told self.old)) }
        ensures fresh { IfOk result (λ channel. IfSome (told self.old) (λ t. t.uses channel ≡ closed)) }
        ensures there { OnOk result (IfSome (told self.old) (λ t. IsSome (t.files name.now))) }
        ensures given { IfOk result (λ channel. given self.new ≡ at_number channel 0 (given self.old)) }

        ensures failed { IsErrOf result DeskError.Failed → told self.new ≡ option_map (blamed name.now) (told self.old) }
        ensures memory { IsErrOf result DeskError.Memory → told self.new ≡ told self.old }
        ensures given_stands { OnErr result (given self.new ≡ given self.old) }
        ensures counts { CountsOpen (faults self.old) (faults self.new) (lost self.old) (lost self.new) result }

        ensures sure { sure self.old → sure self.new }
        ensures missing { IsErrOf result DeskError.Failed → sure self.old → IfSome (told self.old) (λ t. t.files name.now ≡ None) };

    /// Reads the next bytes into the front of the buffer. 0 of them into a buffer that isn't empty is the end.
    /// A piece that would bring the bytes of the channel to 2^32 or more isn't given: the call fails.
    fn read(&mut self, channel: usize, buf: &mut [u8]) -> Result<usize, Failed>
        ensures within { IfOk result (λ count. count ≤ length buf.old) }
        ensures told { IfOk result (λ count. told self.new ≡ option_map (moved channel count) (told self.old)) }
        ensures gave { IfOk result (λ count. IfSome (told self.old) (λ t. Gave t channel count buf.old buf.new)) }
        ensures given { IfOk result (λ count. given self.new ≡ at_number channel (given self.old channel + count) (given self.old)) }
        ensures bounded { OnOk result (given self.new channel < 2 ^ 32) }

        ensures failed { OnErr result (told self.new ≡ option_map (λ t. blame_at channel (name_if_reading (t.uses channel)) (moved channel 0 t)) (told self.old)) }
        ensures given_stands { OnErr result (given self.new ≡ given self.old) }
        ensures counts { CountsAt channel (faults self.old) (faults self.new) (lost self.old) (lost self.new) result }

        ensures sure { sure self.old → sure self.new }
        ensures cause { OnErr result (sure self.old → IfSome (told self.old) (FailsToRead channel (given self.old channel) (length buf.old))) };

    /// Makes an empty file, or empties the one that is there, and opens it for writing.
    fn create(&mut self, name: &str) -> Result<usize, DeskError>
        ensures number { IfOk result (λ channel. 2 < channel) }
        ensures told { IfOk result (λ channel. told self.new ≡ option_map (created channel name.now) (told self.old)) }
        ensures fresh { IfOk result (λ channel. IfSome (told self.old) (λ t. t.uses channel ≡ closed)) }
        ensures given { given self.new ≡ given self.old }

        ensures failed { IsErrOf result DeskError.Failed → told self.new ≡ option_map (blamed name.now) (told self.old) }
        ensures memory { IsErrOf result DeskError.Memory → told self.new ≡ told self.old }
        ensures counts { CountsOpen (faults self.old) (faults self.new) (lost self.old) (lost self.new) result }

        ensures sure { sure self.old → sure self.new }
        ensures never { sure self.old → ¬ IsErrOf result DeskError.Failed };

    /// Writes all of the bytes. Where it fails, it wrote a prefix of them.
    fn write(&mut self, channel: usize, bytes: &[u8]) -> Result<(), Failed>
        ensures told { OnOk result (told self.new ≡ option_map (added channel bytes.now) (told self.old)) }
        ensures open { OnOk result (IfSome (told self.old) (λ t. IsWriting (t.uses channel))) }
        ensures given { given self.new ≡ given self.old }

        ensures failed { OnErr result (Took channel bytes.now (told self.old) (told self.new)) }
        ensures counts { CountsAt channel (faults self.old) (faults self.new) (lost self.old) (lost self.new) result }

        ensures sure { sure self.old → sure self.new }
        ensures cause { OnErr result (sure self.old → IfSome (told self.old) (λ t. FailsToWrite channel bytes.now t (told self.new))) };

    /// Ends a channel, whatever it was open for.
    fn finish(&mut self, channel: usize) -> Result<(), Failed>
        ensures told { OnOk result (told self.new ≡ option_map (finished channel) (told self.old)) }
        ensures open { OnOk result (IfSome (told self.old) (λ t. IsOpen (t.uses channel))) }
        ensures given { given self.new ≡ given self.old }

        ensures failed { OnErr result (told self.new ≡ option_map (λ t. blame_at channel (name_if_open (t.uses channel)) t) (told self.old)) }
        ensures counts { CountsAt channel (faults self.old) (faults self.new) (lost self.old) (lost self.new) result }

        ensures sure { sure self.old → sure self.new }
        ensures cause { OnErr result (sure self.old → IfSome (told self.old) (λ t. ¬ IsOpen (t.uses channel))) };
}
