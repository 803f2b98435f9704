//! The numbers of a dump's variables after each block.

ghost use Rattle.std.specs.Prelude.{◌≡◌, ◌==◌, ◌+◌, ◌*◌, ◌<◌, ◌^◌, ◌++◌, ◌∷◌, [], length, slice_get, OnOk, Some};

use std::alloc::{AllocError, Global};

/// As many numbers after each block, one block's behind another's.
#[derive(Drop)]
pub struct BlockList {
    numbers: Vec<u64>,
    width: usize,
    count: usize,
    ghost filled: { length numbers.items ≡ count * width },
    // One more can be counted.
    ghost countable: { count + 1 < 2 ^ 64 },
}

impl BlockList {
    ghost use Rattle.sap_wave.specs.BlockLists.{blocks_in};

    /// No block, of so many numbers each.
    pub fn new(alloc: Global, width: usize) -> BlockList
        ensures blocks { blocks_in result ≡ [] }
        ensures width { result.width ≡ width }
    {
        BlockList {
            numbers: Vec::new(alloc),
            width,
            count: 0,
        }
    }

    pub fn is_empty(&self) -> bool
        ensures { result ≡ (length (blocks_in self.now) == 0) }
    {
        self.count == 0
    }

    pub fn count(&self) -> usize
        ensures count { result ≡ length (blocks_in self.now) }
        ensures countable { result + 1 < 2 ^ 64 }
    {
        self.count
    }

    /// The numbers after a block.
    pub fn block(&self, number: usize) -> &[u64]
        requires { number < length (blocks_in self.now) }
        ensures { slice_get (blocks_in self.now) number ≡ Some result.now }
    {
        let numbers = self.numbers.as_slice();
        let start = number * self.width;
        &numbers[start..start + self.width]
    }

    /// Appends the numbers after one more block.
    pub fn push(&mut self, block: &[u64]) -> Result<(), AllocError>
        requires { length block.now ≡ self.old.width }
        ensures blocks { OnOk result (blocks_in self.new ≡ blocks_in self.old ++ (block.now ∷ [])) }
        ensures width { self.new.width ≡ self.old.width }
    {
        let count = self.count + 1;
        if count == usize::MAX {
            return Err(AllocError);
        }
        self.numbers.extend_from_slice(block)?;
        self.count = count;
        Ok(())
    }
}
