//! Sets of numbers.

ghost use Rattle.std.specs.Prelude.{◌≡◌, ◌≤◌, ◌||◌, ℕ, false, length, get_or, eqb, OnOk};
ghost use Rattle.sap_hang.specs.Sets.{has};

use std::alloc::{AllocError, Global};

/// A set of numbers: words of 64 bits, of which each says of one number whether it is there. Beyond the last word no number is.
#[derive(Drop)]
pub(crate) struct Set {
    words: Vec<u64>,
}

impl Set {
    #[tactic(auto, using(crate::proofs::Sets::none))]
    pub(crate) fn new(alloc: Global) -> Set
        ensures { (x : ℕ) → has result x ≡ false }
    {
        Set {
            words: Vec::new(alloc),
        }
    }

    pub(crate) fn has(&self, number: u32) -> bool
        ensures { result ≡ has self.now number }
    {
        match self.words.get(number as usize / 64) {
            Some(word) => (word >> (number % 64)) & 1 == 1,
            None => false,
        }
    }

    // At least so many words.
    fn reach(&mut self, words: usize) -> Result<(), AllocError>
        ensures same { OnOk result ((i : ℕ) → get_or self.new.words.items i 0 ≡ get_or self.old.words.items i 0) }
        ensures room { OnOk result (words ≤ length self.new.words.items) }
    {
        if self.words.len() < words {
            self.words.resize(words, 0)?;
        }
        Ok(())
    }

    pub(crate) fn insert(&mut self, number: u32) -> Result<(), AllocError>
        ensures { OnOk result ((x : ℕ) → has self.new x ≡ (eqb x number || has self.old x)) }
    {
        let word = number as usize / 64;
        self.reach(word + 1)?;
        self.words[word] |= 1 << (number % 64);
        Ok(())
    }

    /// Adds the numbers of another set.
    pub(crate) fn union(&mut self, other: &Set) -> Result<(), AllocError>
        ensures { OnOk result ((x : ℕ) → has self.new x ≡ (has other.now x || has self.old x)) }
    {
        self.reach(other.words.len())?;
        for i in 0..other.words.len() {
            self.words[i] |= other.words[i];
        }
        Ok(())
    }
}
