// A buffer of bytes with room that was made beforehand.

ghost use Rattle.std.specs.Prelude.{◌≡◌, [], IfOk, vec_capacity};

use std::alloc::{AllocError, Global};
use std::marker::Model;
use std::mem;

/// Bytes in a buffer that has memory for a number of them.
#[derive(Drop)]
pub struct RowBuf {
    row: Vec<u8>,
}

impl Model for RowBuf {
    ghost use Rattle.std.specs.Prelude.{vec_capacity};
    ghost use Rattle.sap_desk.specs.Row.{Row};

    ghost Value = { Row };

    ghost view = { λ b. record { bytes = b.row.items; room = vec_capacity b.row } };
}

impl RowBuf {
    /// An empty buffer with memory for `room` bytes.
    pub fn new(alloc: Global, room: usize) -> Result<RowBuf, AllocError>
        ensures { IfOk result (λ buffer. buffer ≡ record { bytes = []; room = room }) }
    {
        Ok(RowBuf {
            row: Vec::with_capacity(alloc, room)?,
        })
    }

    pub fn bytes(&self) -> &[u8]
        ensures { result.now ≡ self.now.bytes }
    {
        self.row.as_slice()
    }

    /// Takes all bytes away, and keeps the memory.
    pub fn clear(&mut self)
        ensures { self.new ≡ record self.old { bytes = [] } }
    {
        self.row.clear();
    }

    /// Hands the bytes out with their memory, for others to be added. It takes no memory.
    pub fn take(&mut self) -> Vec<u8>
        ensures bytes { result.items ≡ self.old.bytes }
        ensures room { vec_capacity result ≡ self.old.room }
        ensures nothing_left { self.new ≡ record { bytes = []; room = 0 } }
    {
        let alloc = *self.row.allocator();
        mem::replace(&mut self.row, Vec::new(alloc))
    }

    /// Puts bytes with their memory in place of its own.
    pub fn put(&mut self, bytes: Vec<u8>)
        ensures { self.new ≡ record { bytes = bytes.items; room = vec_capacity bytes } }
    {
        self.row = bytes;
    }
}
