// The files and channels of a desk in memory.
ghost use Rattle.std.specs.Prelude.{◌≡◌, ◌+◌, ◌-◌, ◌<◌, ◌≤◌, ◌^◌, ◌↔◌, ◌⊎◌, min, length, take, drop, List, ℕ, Option, None, [], IfOk, OnOk, OnErr, IfSome, IfNone, OnSome, IsTrue, vec_capacity, string_bytes, option_map, position, slice_get, unwrap_or, Some, false, if◌then◌else◌};
ghost use Rattle.std.specs.Bool.{OnTrue, OnFalse};
ghost use Rattle.sap_desk.specs.Desk.{closed, reads, writes, at_number, opened, moved, created, added, finished, rest_of, name_if_reading, name_if_writing, name_if_open, IsReading, IsWriting, IsOpen};
ghost use Rattle.sap_desk.specs.Cause.{Gave};
ghost use Rattle.sap_desk.specs.Memory.{named, file_named, files_of, use_of, use_at, uses_of, written_of, given_of, names_of, told_of, KeepsNames};
ghost use Rattle.sap_desk.specs.MemoryCalls.{fitting};
ghost use Rattle.sap_desk.specs.Room.{claim, claims, rooms_of, Stands, Changed, LongerFile, LongerChannel, Puts};
ghost use Rattle.sap_desk.specs.declared.stored.StoredFile.{StoredFile};
ghost use Rattle.sap_desk.specs.declared.stored.State.TheVariants.{Closed, Reading};

use crate::stored::{Channel, State, StoredFile};
use std::alloc::{AllocError, Global};

/// Files by their names, and channels by their numbers.
#[derive(Drop)]
pub struct Store {
    alloc: Global,
    room: usize,
    files: Vec<StoredFile>,
    channels: Vec<Channel>,
    ghost stands: { Stands room files.items channels.items },
}

// A channel with memory for so many bytes.
fn new_channel(
    alloc: Global,
    state: State,
    name: String,
    room: usize,
) -> Result<Channel, AllocError>
    ensures use_at { IfOk result (λ c. use_at c ≡ use_of state (string_bytes name)) }
    ensures name { IfOk result (λ c. string_bytes c.name ≡ string_bytes name) }
    ensures written { IfOk result (λ c. c.written.items ≡ []) }
    ensures given { IfOk result (λ c. c.given ≡ 0) }
    ensures room { IfOk result (λ c. room ≤ vec_capacity c.written) }
{
    Ok(Channel {
        state,
        name,
        written: Vec::with_capacity(alloc, room)?,
        given: 0,
    })
}

fn file_of<'a>(files: &'a Vec<StoredFile>, name: &str) -> Option<&'a StoredFile>
    ensures { option_map (λ f. f.now) result ≡ file_named files.now.items name.now }
{
    files.iter().find(|file| file.name.as_str() == name)
}

fn place_of(files: &Vec<StoredFile>, name: &str) -> Option<usize>
    ensures { result ≡ position (named name.now) files.now.items }
{
    files.iter().position(|file| file.name.as_str() == name)
}

// Puts a file in place of one of its name.
fn put(files: &mut Vec<StoredFile>, file: StoredFile) -> Result<(), AllocError>
    ensures ok { OnOk result (Puts file files.old.items files.new.items) }
    ensures err { OnErr result (files.new.items ≡ files.old.items) }
{
    match place_of(files, &file.name) {
        Some(place) => files[place] = file,
        None => files.push(file)?,
    }
    Ok(())
}

fn claim(channel: &Channel, room: usize, name: &str) -> usize
    ensures { result ≡ claim room name.now channel.now }
{
    if channel.state == State::Writing && channel.name.as_str() == name {
        room.saturating_sub(channel.written.len())
    } else {
        0
    }
}

// How many bytes the open channels may still add to the file of a name, where that is no number too large.
fn claims(channels: &Vec<Channel>, room: usize, name: &str) -> Option<usize>
    ensures sum { IfSome result (λ sum. sum ≡ claims room name.now channels.now.items) }
    ensures too_large { IfNone result (2 ^ 64 ≤ claims room name.now channels.now.items) }
{
    let mut sum = 0usize;
    for channel in channels {
        sum = sum.checked_add(claim(channel, room, name))?;
    }
    Some(sum)
}

fn close(channels: &mut Vec<Channel>, k: usize)
    requires { k < length channels.old.items }
    ensures { Changed k (λ c d. d ≡ record c { state = Closed }) channels.old.items channels.new.items }
{
    channels[k].state = State::Closed;
}

// Moves a channel on, which is read at a position.
fn advance(channels: &mut Vec<Channel>, k: usize, position: usize, count: usize)
    requires there { k < length channels.old.items }
    requires fits { position + count < 2 ^ 64 }
    requires bounded { given_of channels.old.items k + count < 2 ^ 32 }
    ensures { Changed k (λ c d. d ≡ record c { state = Reading position (position + count); given = c.given + count }) channels.old.items channels.new.items }
{
    let channel = &mut channels[k];
    channel.state = State::Reading {
        asked: position,
        position: position + count,
    };
    channel.given += count as u64;
}

// A read is asked for at a position, and gives nothing.
fn note(channels: &mut Vec<Channel>, k: usize, position: usize)
    requires { k < length channels.old.items }
    ensures { Changed k (λ c d. d ≡ record c { state = Reading position position }) channels.old.items channels.new.items }
{
    channels[k].state = State::Reading {
        asked: position,
        position,
    };
}

fn add_to_channel(channels: &mut Vec<Channel>, k: usize, part: &[u8])
    requires there { k < length channels.old.items }
    requires fits { length (written_of channels.old.items k) + length part.now ≤ rooms_of channels.old.items k }
    ensures { Changed k (LongerChannel part.now) channels.old.items channels.new.items }
{
    let channel = &mut channels[k];
    channel.written.extend_from_slice(part).unwrap();
}

fn add_to_file(files: &mut Vec<StoredFile>, place: usize, part: &[u8])
    requires there { place < length files.old.items }
    requires fits { (f : StoredFile) → slice_get files.old.items place ≡ Some f → length f.bytes.items + length part.now ≤ vec_capacity f.bytes }
    ensures { Changed place (LongerFile part.now) files.old.items files.new.items }
{
    let file = &mut files[place];
    file.bytes.extend_from_slice(part).unwrap();
}

// The bytes of a file, none where there is no file.
fn bytes_of<'a>(files: &'a Vec<StoredFile>, name: &str) -> &'a [u8]
    ensures { result.now ≡ unwrap_or (files_of files.now.items name.now) [] }
{
    match file_of(files, name) {
        Some(file) => &file.bytes,
        None => &[],
    }
}

// Gives the bytes from a position on that fit.
fn give(bytes: &[u8], position: usize, buf: &mut [u8]) -> usize
    ensures count { result ≡ min (length buf.old) (length (drop position bytes.now)) }
    ensures piece { take result buf.new ≡ take result (drop position bytes.now) }
{
    let rest = if position < bytes.len() {
        &bytes[position..]
    } else {
        &[]
    };
    let count = rest.len().min(buf.len());
    buf[..count].copy_from_slice(&rest[..count]);
    count
}

// Where a channel reads, and what it is given of its file.
fn next_piece(
    files: &Vec<StoredFile>,
    channels: &Vec<Channel>,
    k: usize,
    buf: &mut [u8],
) -> Option<(usize, usize)>
    ensures gave { IfSome result (λ r. (room : ℕ) (blame : List ℕ) → Gave (told_of files.now.items channels.now.items room blame) k r.1 buf.old buf.new) }
    ensures most { IfSome result (λ r. (room : ℕ) (blame : List ℕ) → r.1 ≡ min (length buf.old) (length (rest_of (told_of files.now.items channels.now.items room blame) k))) }
    ensures reads { IfSome result (λ r. (asked : ℕ) × (uses_of channels.now.items k ≡ reads (names_of channels.now.items k) asked r.0)) }
    ensures bounded { IfSome result (λ r. given_of channels.now.items k + r.1 < 2 ^ 32) }
    ensures there { OnSome result (k < length channels.now.items) }
    ensures fits { IfSome result (λ r. r.0 + r.1 < 2 ^ 64) }
    ensures cause { IfNone result ((room : ℕ) (blame : List ℕ) → (¬ IsReading (uses_of channels.now.items k)) ⊎ (2 ^ 32 ≤ given_of channels.now.items k + min (length buf.old) (length (rest_of (told_of files.now.items channels.now.items room blame) k)))) }
{
    let channel = channels.get(k)?;
    let state = channel.state;
    let State::Reading { position, .. } = state else {
        return None;
    };
    let bytes = bytes_of(files, &channel.name);
    let left = bytes.len().saturating_sub(position).min(buf.len());
    if channel.given >= 1 << 32 || left as u64 >= (1 << 32) - channel.given {
        return None;
    }
    let count = give(bytes, position, buf);
    Some((position, count))
}

// Where a channel reads.
fn place_read(channels: &Vec<Channel>, k: usize) -> Option<usize>
    ensures reads { IfSome result (λ position. (asked : ℕ) × (uses_of channels.now.items k ≡ reads (names_of channels.now.items k) asked position)) }
    ensures there { OnSome result (k < length channels.now.items) }
    ensures none { IfNone result (¬ IsReading (uses_of channels.now.items k)) }
{
    let channel = channels.get(k)?;
    match channel.state {
        State::Reading { position, .. } => Some(position),
        State::Closed | State::Writing | State::Stream => None,
    }
}

// The name of the file that a channel writes.
fn owner<'a>(channels: &'a Vec<Channel>, k: usize) -> Option<&'a str>
    ensures writes { IfSome result (λ name. uses_of channels.now.items k ≡ writes name.now) }
    ensures name { IfSome result (λ name. name.now ≡ names_of channels.now.items k) }
    ensures none { IfNone result ((name : List ℕ) → uses_of channels.now.items k ≡ writes name → ⊥) }
{
    let channel = channels.get(k)?;
    match channel.state {
        State::Writing => Some(&channel.name),
        State::Closed | State::Reading { .. } | State::Stream => None,
    }
}

// What a channel takes of so many bytes, where it is open for writing.
fn taken(channels: &Vec<Channel>, room: usize, k: usize, count: usize) -> Option<usize>
    ensures writing { OnSome result (IsWriting (uses_of channels.now.items k)) }
    ensures there { OnSome result (k < length channels.now.items) }
    ensures fit { IfSome result (λ n. n ≡ min count (room - length (written_of channels.now.items k))) }
    ensures none { IfNone result (¬ IsWriting (uses_of channels.now.items k)) }
{
    let channel = channels.get(k)?;
    match channel.state {
        State::Writing | State::Stream => Some(count.min(room.saturating_sub(
            channel.written.len(),
        ))),
        State::Closed | State::Reading { .. } => None,
    }
}

impl Store {
    ghost use Rattle.sap_desk.specs.MemoryCalls.{made, with_file};
    ghost use Rattle.sap_desk.specs.Store.{told_in, given_in, Unchanged};

    pub fn new(alloc: Global, room: usize) -> Result<Store, AllocError>
        ensures told { IfOk result (λ s. told_in s [] ≡ made room) }
        ensures given { IfOk result (λ s. given_in s ≡ (λ k. 0)) }
    {
        let none = new_channel(alloc, State::Closed, String::new(alloc), 0)?;
        let output = new_channel(alloc, State::Stream, String::new(alloc), room)?;
        let faults = new_channel(alloc, State::Stream, String::new(alloc), room)?;
        Ok(Store {
            alloc,
            room,
            files: Vec::new(alloc),
            channels: vec![in alloc; none, output, faults]?,
        })
    }

    pub fn file(&self, name: &str) -> Option<&[u8]>
        ensures { option_map (λ bytes. bytes.now) result ≡ (told_in self.now []).files name.now }
    {
        match file_of(&self.files, name) {
            Some(file) => Some(&file.bytes),
            None => None,
        }
    }

    /// What was written on a channel.
    pub fn written(&self, k: usize) -> &[u8]
        ensures { result.now ≡ (told_in self.now []).written k }
    {
        match self.channels.get(k) {
            Some(channel) => &channel.written,
            None => &[],
        }
    }

    // Whether the channel is open for the call, and has a file: then that file is what a fault is about.

    pub fn reads_file(&self, k: usize) -> bool
        ensures named { name_if_reading (uses_of self.now.channels.items k) ≡ (if result then names_of self.now.channels.items k else []) }
        ensures within { IsTrue result → k < length self.now.channels.items }
    {
        match self.channels.get(k) {
            Some(channel) => matches!(channel.state, State::Reading { .. }),
            None => false,
        }
    }

    pub fn writes_file(&self, k: usize) -> bool
        ensures named { name_if_writing (uses_of self.now.channels.items k) ≡ (if result then names_of self.now.channels.items k else []) }
        ensures within { IsTrue result → k < length self.now.channels.items }
    {
        match self.channels.get(k) {
            Some(channel) => channel.state == State::Writing,
            None => false,
        }
    }

    pub fn has_file(&self, k: usize) -> bool
        ensures named { name_if_open (uses_of self.now.channels.items k) ≡ (if result then names_of self.now.channels.items k else []) }
        ensures within { IsTrue result → k < length self.now.channels.items }
    {
        self.reads_file(k) || self.writes_file(k)
    }

    pub fn is_open(&self, k: usize) -> bool
        ensures opened { IsTrue result ↔ IsOpen (uses_of self.now.channels.items k) }
        ensures within { IsTrue result → k < length self.now.channels.items }
    {
        match self.channels.get(k) {
            Some(channel) => channel.state != State::Closed,
            None => false,
        }
    }

    pub fn open_reader(&mut self, name: String) -> Result<usize, AllocError>
        ensures number { IfOk result (λ k. 2 < k) }
        ensures fresh { IfOk result (λ k. uses_of self.old.channels.items k ≡ closed) }
        ensures told { IfOk result (λ k. (blame : List ℕ) → told_in self.new blame ≡ opened k (string_bytes name) (told_in self.old blame)) }
        ensures given { IfOk result (λ k. given_in self.new ≡ at_number k 0 (given_in self.old)) }
        ensures err { OnErr result (Unchanged self.old self.new) }
        ensures names { KeepsNames self.old.channels.items self.new.channels.items }
    {
        let channel = new_channel(
            self.alloc,
            State::Reading {
                asked: 0,
                position: 0,
            },
            name,
            0,
        )?;
        let k = self.channels.len();
        self.channels.push(channel)?;
        Ok(k)
    }

    // An empty file, with memory for what is claimed of it and for so many bytes more.
    fn empty_file(&self, name: &str, more: usize) -> Result<StoredFile, AllocError>
        ensures name { IfOk result (λ f. string_bytes f.name ≡ name.now) }
        ensures bytes { IfOk result (λ f. f.bytes.items ≡ []) }
        ensures room { IfOk result (λ f. claims self.now.room name.now self.now.channels.items + more ≤ vec_capacity f.bytes) }
    {
        let claimed = claims(&self.channels, self.room, name).ok_or(AllocError)?;
        let needed = claimed.checked_add(more).ok_or(AllocError)?;
        Ok(StoredFile {
            name: String::from_str(self.alloc, name)?,
            bytes: Vec::with_capacity(self.alloc, needed)?,
        })
    }

    pub fn open_writer(&mut self, name: String) -> Result<usize, AllocError>
        ensures number { IfOk result (λ k. 2 < k) }
        ensures fresh { IfOk result (λ k. uses_of self.old.channels.items k ≡ closed) }
        ensures told { IfOk result (λ k. (blame : List ℕ) → told_in self.new blame ≡ created k (string_bytes name) (told_in self.old blame)) }
        ensures given { given_in self.new ≡ given_in self.old }
        ensures err { OnErr result (Unchanged self.old self.new) }
        ensures names { KeepsNames self.old.channels.items self.new.channels.items }
    {
        let empty = self.empty_file(&name, self.room)?;
        let channel = new_channel(self.alloc, State::Writing, name, self.room)?;
        let k = self.channels.len();
        self.channels.reserve(1)?;
        put(&mut self.files, empty)?;
        self.channels.push(channel).unwrap();
        Ok(k)
    }

    pub fn put_file(&mut self, name: &str, bytes: &[u8]) -> Result<(), AllocError>
        ensures told { OnOk result ((blame : List ℕ) → told_in self.new blame ≡ with_file name.now bytes.now (told_in self.old blame)) }
        ensures given { given_in self.new ≡ given_in self.old }
        ensures err { OnErr result (Unchanged self.old self.new) }
        ensures names { KeepsNames self.old.channels.items self.new.channels.items }
    {
        let mut file = self.empty_file(name, bytes.len())?;
        file.bytes.extend_from_slice(bytes)?;
        put(&mut self.files, file)?;
        Ok(())
    }

    pub fn read(&mut self, k: usize, buf: &mut [u8]) -> Option<usize>
        ensures within { IfSome result (λ count. count ≤ length buf.old) }
        ensures told { IfSome result (λ count. (blame : List ℕ) → told_in self.new blame ≡ moved k count (told_in self.old blame)) }
        ensures gave { IfSome result (λ count. (blame : List ℕ) → Gave (told_in self.old blame) k count buf.old buf.new) }
        ensures most { IfSome result (λ count. (blame : List ℕ) → count ≡ min (length buf.old) (length (rest_of (told_in self.old blame) k))) }
        ensures given { IfSome result (λ count. given_in self.new ≡ at_number k (given_in self.old k + count) (given_in self.old)) }
        ensures bounded { OnSome result (given_in self.new k < 2 ^ 32) }
        ensures names { KeepsNames self.old.channels.items self.new.channels.items }
        ensures none { IfNone result (self.new ≡ self.old) }
        ensures cause { IfNone result ((blame : List ℕ) → (¬ IsReading ((told_in self.old blame).uses k)) ⊎ (2 ^ 32 ≤ given_in self.old k + min (length buf.old) (length (rest_of (told_in self.old blame) k)))) }
    {
        let (position, count) = next_piece(&self.files, &self.channels, k, buf)?;
        advance(&mut self.channels, k, position, count);
        Some(count)
    }

    /// Keeps that a read was asked for, which gave nothing.
    pub fn ask(&mut self, k: usize)
        ensures told { (blame : List ℕ) → told_in self.new blame ≡ moved k 0 (told_in self.old blame) }
        ensures given { given_in self.new ≡ given_in self.old }
        ensures names { KeepsNames self.old.channels.items self.new.channels.items }
    {
        match place_read(&self.channels, k) {
            Some(position) => note(&mut self.channels, k, position),
            None => {}
        }
    }

    pub fn close(&mut self, k: usize)
        requires { k < length self.old.channels.items }
        ensures told { (blame : List ℕ) → told_in self.new blame ≡ finished k (told_in self.old blame) }
        ensures given { given_in self.new ≡ given_in self.old }
        ensures names { KeepsNames self.old.channels.items self.new.channels.items }
    {
        close(&mut self.channels, k);
    }

    // The place of the file that a channel writes.
    fn place_written(&self, k: usize) -> Option<usize>
        ensures writes { OnSome result (uses_of self.now.channels.items k ≡ writes (names_of self.now.channels.items k)) }
        ensures place { IfSome result (λ place. position (named (names_of self.now.channels.items k)) self.now.files.items ≡ Some place) }
        ensures none { IfNone result ((name : List ℕ) → uses_of self.now.channels.items k ≡ writes name → ⊥) }
    {
        let name = owner(&self.channels, k)?;
        place_of(&self.files, name)
    }

    // Adds a part that fits to a channel that is open for writing.
    fn add(&mut self, k: usize, part: &[u8])
        requires there { k < length self.old.channels.items }
        requires writing { IsWriting (uses_of self.old.channels.items k) }
        requires fits { length (written_of self.old.channels.items k) + length part.now ≤ self.old.room }
        ensures told { (blame : List ℕ) → told_in self.new blame ≡ added k part.now (told_in self.old blame) }
        ensures given { given_in self.new ≡ given_in self.old }
        ensures names { KeepsNames self.old.channels.items self.new.channels.items }
    {
        match self.place_written(k) {
            Some(place) => {
                add_to_file(&mut self.files, place, part);
                add_to_channel(&mut self.channels, k, part);
            }
            None => add_to_channel(&mut self.channels, k, part),
        }
    }

    /// Adds to a channel what fits of a piece. Says whether the channel is open for writing and took it all.
    pub fn append(&mut self, k: usize, piece: &[u8]) -> bool
        ensures told { (blame : List ℕ) → told_in self.new blame ≡ added k (take (fitting (told_in self.old blame) k (length piece.now)) piece.now) (told_in self.old blame) }
        ensures given { given_in self.new ≡ given_in self.old }
        ensures names { KeepsNames self.old.channels.items self.new.channels.items }
        ensures writing { OnTrue result (IsWriting (uses_of self.old.channels.items k)) }
        ensures whole { OnTrue result (length (written_of self.old.channels.items k) + length piece.now ≤ self.old.room) }
        ensures part { OnFalse result ((¬ IsWriting (uses_of self.old.channels.items k)) ⊎ (self.old.room < length (written_of self.old.channels.items k) + length piece.now)) }
    {
        let Some(count) = taken(&self.channels, self.room, k, piece.len()) else {
            return false;
        };
        self.add(k, &piece[..count]);
        count == piece.len()
    }
}
