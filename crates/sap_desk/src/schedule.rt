// Which calls of a desk in memory are to fail, and how many failed.
ghost use Rattle.std.specs.Prelude.{◌≡◌, ◌≢◌, ◌+◌, ◌∷◌, ◌++◌, [], ◌↔◌, ◌<◌, ◌≤◌, ℕ, List, Contains, IsTrue, OnOk, OnErr, if◌then◌else◌, string_bytes};
ghost use Rattle.sap_desk.specs.Cause.{counted};
ghost use Rattle.sap_desk.specs.Memory.{blame_of, blame_after, names_of, BlameStands};
ghost use Rattle.sap_desk.specs.declared.stored.Channel.{Channel};

use crate::count::count;
use crate::stored::Blame;
use crate::{DeskError, Failed};
use std::alloc::{AllocError, Global};

/// The numbers of the calls that are to fail, and how many calls there were.
#[derive(Drop)]
pub struct Schedule {
    failing: Vec<u64>,
    calls: u64,
}

impl Schedule {
    pub fn new(alloc: Global) -> Schedule
        ensures failing { result.failing.items ≡ [] }
        ensures calls { result.calls ≡ 0 }
    {
        Schedule {
            failing: Vec::new(alloc),
            calls: 0,
        }
    }

    pub fn fail_at(&mut self, number: u64) -> Result<(), AllocError>
        ensures ok { OnOk result (self.new.failing.items ≡ self.old.failing.items ++ number ∷ []) }
        ensures err { OnErr result (self.new.failing.items ≡ self.old.failing.items) }
        ensures calls { self.new.calls ≡ self.old.calls }
    {
        self.failing.push(number)?;
        Ok(())
    }

    /// Counts a call, and says whether it is to fail by its number. The last number stands for all calls from it on.
    pub fn next(&mut self) -> bool
        ensures due { IsTrue result ↔ Contains self.old.failing.items (counted self.old.calls) }
        ensures calls { self.new.calls ≡ counted self.old.calls }
        ensures failing { self.new.failing ≡ self.old.failing }
    {
        self.calls = self.calls.saturating_add(1);
        self.failing.contains(&self.calls)
    }
}

/// What the last failed call was about, and how many calls failed: those on channel 2 are lost lines.
#[derive(Drop)]
pub struct Failures {
    blame: Blame,
    faults: u64,
    lost: u64,
}

impl Failures {
    pub fn new() -> Failures
        ensures blame { (channels : List Channel) → blame_of channels result.blame ≡ [] }
        ensures stands { (count : ℕ) → BlameStands result.blame count }
        ensures faults { result.faults ≡ 0 }
        ensures lost { result.lost ≡ 0 }
    {
        Failures {
            blame: Blame::Nothing,
            faults: 0,
            lost: 0,
        }
    }

    /// Counts a failed call on a channel. It is about the channel's file where that is named.
    pub fn fail(&mut self, channel: usize, is_named: bool) -> Failed
        ensures blame { (channels : List Channel) → blame_of channels self.new.blame ≡ blame_after channel (if is_named then names_of channels channel else []) (blame_of channels self.old.blame) }
        ensures stands { (count : ℕ) → BlameStands self.old.blame count → (IsTrue is_named → channel < count) → BlameStands self.new.blame count }
        ensures file { channel ≢ 2 → (self.new.faults ≡ counted self.old.faults) × (self.new.lost ≡ self.old.lost) }
        ensures line { channel ≡ 2 → (self.new.lost ≡ counted self.old.lost) × (self.new.faults ≡ self.old.faults) }
        ensures faults_later { self.old.faults ≤ self.new.faults }
        ensures lost_later { self.old.lost ≤ self.new.lost }
    {
        if channel == 2 {
            count(&mut self.lost);
            return Failed;
        }
        count(&mut self.faults);
        self.blame = if channel == 1 {
            Blame::Output
        } else if is_named {
            Blame::FileOf(channel)
        } else {
            Blame::Nothing
        };
        Failed
    }

    /// Counts a failed call on the file of a name.
    pub fn fail_file(&mut self, name: String) -> DeskError
        ensures failed { result ≡ DeskError.Failed }
        ensures blame { (channels : List Channel) → blame_of channels self.new.blame ≡ string_bytes name }
        ensures stands { (count : ℕ) → BlameStands self.new.blame count }
        ensures faults { self.new.faults ≡ counted self.old.faults }
        ensures faults_later { self.old.faults ≤ self.new.faults }
        ensures lost { self.new.lost ≡ self.old.lost }
    {
        count(&mut self.faults);
        self.blame = Blame::File(name);
        DeskError::Failed
    }
}
