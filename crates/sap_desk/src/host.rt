ghost use Rattle.std.specs.Prelude.{◌≡◌, ℕ, None, ◌<◌, length, IfOk};
ghost use Rattle.sap_desk.specs.Host.{given_of};

use crate::count::{count, fail};
use crate::slot::{self, Handle, Slot};
use crate::{Desk, DeskError, Failed};
use std::alloc::{AllocError, Global};
use std::fs;
use std::io::Write;
use std::rt::Files;

/// A desk over the host's files and two writers, which are the standard streams.
///
/// It tells nothing of what they hold. What is written reaches the host in the same call, as far as the host says so.
#[derive(Drop)]
pub struct HostDesk<R: Files + Drop, O: Write + Drop, E: Write + Drop> {
    runtime: R,
    output: O,
    errors: E,
    slots: Vec<Slot<R::File>>,
    faults: u64,
    lost: u64,
    ghost standard: { 2 < length slots.items },
}

impl<R: Files + Drop, O: Write + Drop, E: Write + Drop> HostDesk<R, O, E> {
    /// A desk whose channel 1 is `output` and whose channel 2 is `errors`. No call on it failed yet.
    pub fn new(alloc: Global, runtime: R, output: O, errors: E) -> Result<Self, AllocError>
        ensures faults { IfOk result (λ desk. ⟦<HostDesk<R, O, E> as Desk>⟧.faults desk ≡ 0) }
        ensures lost { IfOk result (λ desk. ⟦<HostDesk<R, O, E> as Desk>⟧.lost desk ≡ 0) }
        ensures given { IfOk result (λ desk. (channel : ℕ) → ⟦<HostDesk<R, O, E> as Desk>⟧.given desk channel ≡ 0) }
    {
        let slots = slot::standard(alloc)?;
        Ok(HostDesk {
            runtime,
            output,
            errors,
            slots,
            faults: 0,
            lost: 0,
        })
    }
}

impl<R: Files + Drop, O: Write + Drop, E: Write + Drop> Desk for HostDesk<R, O, E> {
    ghost told = { λ desk. None };

    ghost faults = { λ desk. desk.faults };

    ghost lost = { λ desk. desk.lost };

    ghost given = { λ desk. given_of desk.slots.items };

    ghost sure = { λ desk. ⊥ };

    fn open_in(&mut self, name: &str) -> Result<usize, DeskError> {
        self.slots.reserve(1)?;
        match fs::open(&self.runtime, name) {
            Ok(file) => Ok(slot::add(&mut self.slots, Handle::Reading(file))),
            Err(_) => {
                count(&mut self.faults);
                Err(DeskError::Failed)
            }
        }
    }

    fn create(&mut self, name: &str) -> Result<usize, DeskError> {
        self.slots.reserve(1)?;
        match fs::create(&self.runtime, name) {
            Ok(file) => Ok(slot::add(&mut self.slots, Handle::Writing(file))),
            Err(_) => {
                count(&mut self.faults);
                Err(DeskError::Failed)
            }
        }
    }

    fn read(&mut self, channel: usize, buf: &mut [u8]) -> Result<usize, Failed> {
        match slot::read(&mut self.slots, channel, buf) {
            Some(count) => Ok(count),
            None => fail(channel, &mut self.faults, &mut self.lost),
        }
    }

    fn write(&mut self, channel: usize, bytes: &[u8]) -> Result<(), Failed> {
        if slot::write(
            &mut self.slots,
            &mut self.output,
            &mut self.errors,
            channel,
            bytes,
        ) {
            return Ok(());
        }
        fail(channel, &mut self.faults, &mut self.lost)
    }

    fn finish(&mut self, channel: usize) -> Result<(), Failed> {
        if slot::close(&mut self.slots, channel) {
            return Ok(());
        }
        fail(channel, &mut self.faults, &mut self.lost)
    }
}
