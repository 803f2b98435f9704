// The channels of a desk over the host, by their numbers.
ghost use Rattle.std.specs.Prelude.{◌≡◌, ◌≤◌, ◌<◌, ◌^◌, ◌+◌, ℕ, length, vec_len, vec_capacity, IfOk, IfSome, IfNone, IsSome, IsTrue, false};
ghost use Rattle.sap_desk.specs.Desk.{at_number};
ghost use Rattle.sap_desk.specs.Host.{given_of, readers_of, writers_of, open_of, is_open, is_reading, is_writing};

use std::alloc::{AllocError, Global};
use std::io::{Read, Write};

/// What a channel is open for.
#[derive(Drop)]
pub enum Handle<F> {
    Closed,
    Reading(F),
    Writing(F),
    Output,
    Errors,
}

/// A channel, and how many bytes its reads gave.
#[derive(Drop)]
pub struct Slot<F> {
    pub handle: Handle<F>,
    pub given: u64,
}

// Channels 0, which is never open, 1 and 2.
pub fn standard<F: Drop>(alloc: Global) -> Result<Vec<Slot<F>>, AllocError>
    ensures three { IfOk result (λ slots. length slots.items ≡ 3) }
    ensures given { IfOk result (λ slots. (channel : ℕ) → given_of slots.items channel ≡ 0) }
{
    let mut slots = Vec::with_capacity(alloc, 3)?;
    add(&mut slots, Handle::Closed);
    add(&mut slots, Handle::Output);
    add(&mut slots, Handle::Errors);
    Ok(slots)
}

// A further channel. Its number was never used before.
pub fn add<F: Drop>(slots: &mut Vec<Slot<F>>, handle: Handle<F>) -> usize
    requires { vec_len slots.old < vec_capacity slots.old }
    ensures number { result ≡ length slots.old.items }
    ensures given { given_of slots.new.items ≡ at_number result 0 (given_of slots.old.items) }
    ensures given_stands { given_of slots.new.items ≡ given_of slots.old.items }
    ensures size { length slots.new.items ≡ length slots.old.items + 1 }
    ensures capacity { vec_capacity slots.new ≡ vec_capacity slots.old }
{
    let channel = slots.len();
    slots.push_reserved(Slot { handle, given: 0 });
    channel
}

impl<F: Read + Drop> Slot<F> {
    // The next bytes of its file, if that is open for reading, fewer than 2^32 of them in all.
    fn read(&mut self, buf: &mut [u8]) -> Option<usize>
        ensures within { IfSome result (λ count. count ≤ length buf.old) }
        ensures reading { IsSome result → IsTrue (is_reading self.old.handle) }
        ensures given { IfSome result (λ count. self.new.given ≡ self.old.given + count) }
        ensures bounded { IfSome result (λ _. self.new.given < 2 ^ 32) }
        ensures given_stands { IfNone result (self.new.given ≡ self.old.given) }
    {
        let Handle::Reading(file) = &mut self.handle else {
            return None;
        };
        let count = file.read(buf).ok()?;
        let given = self.given.checked_add(count as u64)?;
        if given >= 1 << 32 {
            return None;
        }
        self.given = given;
        Some(count)
    }
}

// The next bytes of a file that is open for reading, fewer than 2^32 of them in all.
pub fn read<F: Read + Drop>(
    slots: &mut Vec<Slot<F>>,
    channel: usize,
    buf: &mut [u8],
) -> Option<usize>
    ensures within { IfSome result (λ count. count ≤ length buf.old) }
    ensures reading { IsSome result → IsTrue (readers_of slots.old.items channel) }
    ensures given { IfSome result (λ count. given_of slots.new.items ≡ at_number channel (given_of slots.old.items channel + count) (given_of slots.old.items)) }
    ensures bounded { IfSome result (λ _. given_of slots.new.items channel < 2 ^ 32) }
    ensures given_stands { IfNone result (given_of slots.new.items ≡ given_of slots.old.items) }
    ensures size { length slots.new.items ≡ length slots.old.items }
{
    if channel >= slots.len() {
        return None;
    }
    slots[channel].read(buf)
}

// Writes all of the bytes where the channel goes, if it is open for writing.
pub fn write<F: Write + Drop, O: Write, E: Write>(
    slots: &mut Vec<Slot<F>>,
    output: &mut O,
    errors: &mut E,
    channel: usize,
    bytes: &[u8],
) -> bool
    ensures writing { IsTrue result → IsTrue (writers_of slots.old.items channel) }
    ensures open_stands { open_of slots.new.items ≡ open_of slots.old.items }
    ensures given { given_of slots.new.items ≡ given_of slots.old.items }
    ensures size { length slots.new.items ≡ length slots.old.items }
{
    if channel >= slots.len() {
        return false;
    }
    write_to(&mut slots[channel].handle, output, errors, bytes)
}

// Writes all of the bytes where a handle goes, if it is for writing.
fn write_to<F: Write + Drop, O: Write, E: Write>(
    handle: &mut Handle<F>,
    output: &mut O,
    errors: &mut E,
    bytes: &[u8],
) -> bool
    ensures writing { IsTrue result → IsTrue (is_writing handle.old) }
    ensures open_stands { is_open handle.new ≡ is_open handle.old }
{
    match handle {
        Handle::Writing(file) => write_whole(file, bytes),
        Handle::Output => write_whole(output, bytes),
        Handle::Errors => write_whole(errors, bytes),
        Handle::Closed | Handle::Reading(_) => false,
    }
}

fn write_whole<W: Write>(to: &mut W, bytes: &[u8]) -> bool {
    to.write_all(bytes).is_ok() && to.flush().is_ok()
}

// Ends a channel, if it is open. A file is closed with it.
pub fn close<F: Drop>(slots: &mut Vec<Slot<F>>, channel: usize) -> bool
    ensures was_open { result ≡ open_of slots.old.items channel }
    ensures closed { open_of slots.new.items ≡ at_number channel false (open_of slots.old.items) }
    ensures given { given_of slots.new.items ≡ given_of slots.old.items }
    ensures size { length slots.new.items ≡ length slots.old.items }
{
    if channel >= slots.len() {
        return false;
    }
    let was_open = is_open(&slots[channel].handle);
    slots[channel].handle = Handle::Closed;
    was_open
}

fn is_open<F>(handle: &Handle<F>) -> bool
    ensures { result ≡ is_open handle.now }
{
    !matches!(handle, Handle::Closed)
}
