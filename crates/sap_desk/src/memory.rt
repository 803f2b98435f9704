// A desk in memory, whose calls fail where they are told to.
ghost use Rattle.std.specs.Prelude.{◌≡◌, ◌++◌, ◌∷◌, [], ◌+◌, ◌/◌, ◌<◌, ◌≤◌, ◌^◌, ◌⊎◌, length, min, IfOk, OnOk, OnErr, IsSome, IsErr, IsErrOf, Some, None, option_map};
ghost use Rattle.sap_desk.specs.Memory.{BlameStands};
ghost use Rattle.sap_desk.specs.MemoryCalls.{with_file};

use crate::schedule::{Failures, Schedule};
use crate::store::Store;
use crate::{Desk, DeskError, Failed};
use std::alloc::{AllocError, Global};

/// Files and streams in memory. A channel takes `room` bytes, and chosen calls fail.
#[derive(Drop)]
pub struct MemoryDesk {
    alloc: Global,
    store: Store,
    schedule: Schedule,
    failures: Failures,
    ghost blame_stands: { BlameStands failures.blame (length store.channels.items) },
}

impl MemoryDesk {
    ghost use Rattle.sap_desk.specs.Told.{shown, fresh};

    /// A desk with no files, and with room for so many bytes on each of channels 1 and 2.
    pub fn new(alloc: Global, room: usize) -> Result<MemoryDesk, AllocError>
        ensures { IfOk result (λ desk. shown desk ≡ fresh room) }
    {
        Ok(MemoryDesk {
            alloc,
            store: Store::new(alloc, room)?,
            schedule: Schedule::new(alloc),
            failures: Failures::new(),
        })
    }

    /// Adds a file, in place of one of its name: whoever reads or writes that one goes on in this.
    pub fn put_file(&mut self, name: &str, bytes: &[u8]) -> Result<(), AllocError>
        ensures ok { OnOk result (shown self.new ≡ record (shown self.old) { told = with_file name.now bytes.now (shown self.old).told }) }
        ensures err { OnErr result (shown self.new ≡ shown self.old) }
    {
        self.store.put_file(name, bytes)?;
        Ok(())
    }

    /// The call of this number fails. Calls are counted from 1 over all calls of `Desk`, and the count stands at 2^64 - 1.
    pub fn fail_at(&mut self, number: u64) -> Result<(), AllocError>
        ensures ok { OnOk result (shown self.new ≡ record (shown self.old) { failing = (shown self.old).failing ++ number ∷ [] }) }
        ensures err { OnErr result (shown self.new ≡ shown self.old) }
    {
        self.schedule.fail_at(number)
    }

    /// The bytes of a file.
    pub fn file(&self, name: &str) -> Option<&[u8]>
        ensures { option_map (λ bytes. bytes.now) result ≡ (shown self.now).told.files name.now }
    {
        self.store.file(name)
    }

    /// What was written on channel 1.
    pub fn output(&self) -> &[u8]
        ensures { result.now ≡ (shown self.now).told.written 1 }
    {
        self.store.written(1)
    }

    /// What was written on channel 2.
    pub fn fault_text(&self) -> &[u8]
        ensures { result.now ≡ (shown self.now).told.written 2 }
    {
        self.store.written(2)
    }
}

// The clauses of `Desk` over what the desk shows. Then each call says that it is counted, that it doesn't answer Ok where
// it is to fail by its number (`due`), and for what other causes it fails (`only`).
impl Desk for MemoryDesk {
    ghost use Rattle.std.specs.Prelude.{Some};
    ghost use Rattle.sap_desk.specs.Desk.{closed, rest_of, IsWriting, IsOpen, at_number, opened, moved, created, added, finished, blamed, blame_at, name_if_reading, name_if_open};
    ghost use Rattle.sap_desk.specs.Cause.{CountsAt, CountsOpen, Gave, Took, FailsToRead, FailsToWrite};
    ghost use Rattle.sap_desk.specs.Told.{shown, IsDue, IsSure, Called, TookOf};

    ghost told = { λ m. Some (shown m).told };

    ghost faults = { λ m. (shown m).faults };

    ghost lost = { λ m. (shown m).lost };

    ghost given = { λ m. (shown m).given };

    ghost sure = { λ m. IsSure (shown m) };

    fn open_in(&mut self, name: &str) -> Result<usize, DeskError>
        ensures number { IfOk result (λ channel. 2 < channel) }
        ensures told { IfOk result (λ channel. (shown self.new).told ≡ opened channel name.now (shown self.old).told) }
        ensures fresh { IfOk result (λ channel. (shown self.old).told.uses channel ≡ closed) }
        ensures there { OnOk result (IsSome ((shown self.old).told.files name.now)) }
        ensures given { IfOk result (λ channel. (shown self.new).given ≡ at_number channel 0 (shown self.old).given) }
        ensures failed { IsErrOf result DeskError.Failed → (shown self.new).told ≡ blamed name.now (shown self.old).told }
        ensures memory { IsErrOf result DeskError.Memory → (shown self.new).told ≡ (shown self.old).told }
        ensures given_stands { OnErr result ((shown self.new).given ≡ (shown self.old).given) }
        ensures counts { CountsOpen (shown self.old).faults (shown self.new).faults (shown self.old).lost (shown self.new).lost result }
        ensures called { Called (shown self.old) (shown self.new) }
        ensures due { IsDue (shown self.old) → IsErr result }
        ensures only { IsErrOf result DeskError.Failed → IsDue (shown self.old) ⊎ ((shown self.old).told.files name.now ≡ None) }
    {
        let due = self.schedule.next();
        let copy = String::from_str(self.alloc, name)?;
        if due || self.store.file(name).is_none() {
            return Err(self.failures.fail_file(copy));
        }
        Ok(self.store.open_reader(copy)?)
    }

    fn read(&mut self, channel: usize, buf: &mut [u8]) -> Result<usize, Failed>
        ensures told { IfOk result (λ count. (shown self.new).told ≡ moved channel count (shown self.old).told) }
        ensures gave { IfOk result (λ count. Gave (shown self.old).told channel count buf.old buf.new) }
        ensures most { IfOk result (λ count. count ≡ min (length buf.old) (length (rest_of (shown self.old).told channel))) }
        ensures given { IfOk result (λ count. (shown self.new).given ≡ at_number channel ((shown self.old).given channel + count) (shown self.old).given) }
        ensures bounded { OnOk result ((shown self.new).given channel < 2 ^ 32) }
        ensures failed { OnErr result ((shown self.new).told ≡ blame_at channel (name_if_reading ((shown self.old).told.uses channel)) (moved channel 0 (shown self.old).told)) }
        ensures given_stands { OnErr result ((shown self.new).given ≡ (shown self.old).given) }
        ensures counts { CountsAt channel (shown self.old).faults (shown self.new).faults (shown self.old).lost (shown self.new).lost result }
        ensures called { Called (shown self.old) (shown self.new) }
        ensures due { IsDue (shown self.old) → IsErr result }
        ensures only { OnErr result (IsDue (shown self.old) ⊎ FailsToRead channel ((shown self.old).given channel) (length buf.old) (shown self.old).told) }
    {
        let is_named = self.store.reads_file(channel);
        if self.schedule.next() {
            self.store.ask(channel);
            return Err(self.failures.fail(channel, is_named));
        }
        match self.store.read(channel, buf) {
            Some(count) => Ok(count),
            None => {
                self.store.ask(channel);
                Err(self.failures.fail(channel, is_named))
            }
        }
    }

    fn create(&mut self, name: &str) -> Result<usize, DeskError>
        ensures number { IfOk result (λ channel. 2 < channel) }
        ensures told { IfOk result (λ channel. (shown self.new).told ≡ created channel name.now (shown self.old).told) }
        ensures fresh { IfOk result (λ channel. (shown self.old).told.uses channel ≡ closed) }
        ensures given { (shown self.new).given ≡ (shown self.old).given }
        ensures failed { IsErrOf result DeskError.Failed → (shown self.new).told ≡ blamed name.now (shown self.old).told }
        ensures memory { IsErrOf result DeskError.Memory → (shown self.new).told ≡ (shown self.old).told }
        ensures counts { CountsOpen (shown self.old).faults (shown self.new).faults (shown self.old).lost (shown self.new).lost result }
        ensures called { Called (shown self.old) (shown self.new) }
        ensures due { IsDue (shown self.old) → IsErr result }
        ensures only { IsErrOf result DeskError.Failed → IsDue (shown self.old) }
    {
        let due = self.schedule.next();
        let copy = String::from_str(self.alloc, name)?;
        if due {
            return Err(self.failures.fail_file(copy));
        }
        Ok(self.store.open_writer(copy)?)
    }

    fn write(&mut self, channel: usize, bytes: &[u8]) -> Result<(), Failed>
        ensures told { OnOk result ((shown self.new).told ≡ added channel bytes.now (shown self.old).told) }
        ensures open { OnOk result (IsWriting ((shown self.old).told.uses channel)) }
        ensures fits { OnOk result (length ((shown self.old).told.written channel) + length bytes.now ≤ (shown self.old).told.room) }
        ensures given { (shown self.new).given ≡ (shown self.old).given }
        ensures failed { OnErr result (Took channel bytes.now (Some (shown self.old).told) (Some (shown self.new).told)) }
        // A call that fails by its number takes the first half of its bytes, and any other takes all: what fits of them.
        ensures half { OnErr result (IsDue (shown self.old) → TookOf (length bytes.now / 2) channel bytes.now (shown self.old).told (shown self.new).told) }
        ensures whole { OnErr result ((¬ IsDue (shown self.old)) → TookOf (length bytes.now) channel bytes.now (shown self.old).told (shown self.new).told) }
        ensures counts { CountsAt channel (shown self.old).faults (shown self.new).faults (shown self.old).lost (shown self.new).lost result }
        ensures called { Called (shown self.old) (shown self.new) }
        ensures due { IsDue (shown self.old) → IsErr result }
        ensures only { OnErr result (IsDue (shown self.old) ⊎ FailsToWrite channel bytes.now (shown self.old).told (Some (shown self.new).told)) }
    {
        let is_named = self.store.writes_file(channel);
        if self.schedule.next() {
            self.store.append(channel, &bytes[..bytes.len() / 2]);
            return Err(self.failures.fail(channel, is_named));
        }
        if self.store.append(channel, bytes) {
            return Ok(());
        }
        Err(self.failures.fail(channel, is_named))
    }

    fn finish(&mut self, channel: usize) -> Result<(), Failed>
        ensures told { OnOk result ((shown self.new).told ≡ finished channel (shown self.old).told) }
        ensures open { OnOk result (IsOpen ((shown self.old).told.uses channel)) }
        ensures given { (shown self.new).given ≡ (shown self.old).given }
        ensures failed { OnErr result ((shown self.new).told ≡ blame_at channel (name_if_open ((shown self.old).told.uses channel)) (shown self.old).told) }
        ensures counts { CountsAt channel (shown self.old).faults (shown self.new).faults (shown self.old).lost (shown self.new).lost result }
        ensures called { Called (shown self.old) (shown self.new) }
        ensures due { IsDue (shown self.old) → IsErr result }
        ensures only { OnErr result (IsDue (shown self.old) ⊎ (¬ IsOpen ((shown self.old).told.uses channel))) }
    {
        let is_named = self.store.has_file(channel);
        let is_open = self.store.is_open(channel);
        if !self.schedule.next() && is_open {
            self.store.close(channel);
            return Ok(());
        }
        Err(self.failures.fail(channel, is_named))
    }
}
