//! What was read of a dump so far.

ghost use Rattle.std.specs.Prelude.{◌≡◌, length};
ghost use Rattle.sap_wave.specs.Numbers.{now_of};
ghost use Rattle.sap_wave.specs.Read.{fault_at};
ghost use Rattle.sap_wave.specs.declared.state.Stop.TheVariants.{Memory};

use crate::block_list::BlockList;
use crate::fault::{WaveCode, WaveFault};
use crate::variable::Variable;
use std::alloc::{AllocError, AllocFailed};
use std::collections::HashMap;

/// The numbers that the variables have so far.
#[derive(Drop)]
pub enum Numbers {
    /// In block 0, where some may be missing.
    First(Vec<Option<u64>>),
    /// In a later block, where each has one.
    Later(Vec<u64>),
}

/// A block that isn't over: the numbers after each block before it, those that the variables have so far, and the first
/// variable that can still change.
#[derive(Drop)]
pub struct Block {
    pub before: BlockList,
    pub numbers: Numbers,
    pub next: usize,
    ghost wide: { length (now_of numbers) ≡ before.width },
}

/// What was read so far, and so which lines can come next.
#[derive(Drop)]
pub enum State {
    BeforeTimescale,
    BeforeScope,
    /// The variables so far, and their places by their names.
    Declaring(Vec<Variable>, HashMap<Vec<u8>, usize>),
    BeforeEnd(Vec<Variable>),
    BeforeBlocks(Vec<Variable>),
    InBlock(Vec<Variable>, Block),
}

/// Why a line is not read.
#[derive(Drop)]
pub enum Stop {
    /// What stands there.
    Code(WaveCode),
    /// Want of memory.
    Memory,
}

impl Stop {
    /// The fault at this line.
    pub fn at(self, line: u64) -> WaveFault
        ensures { result ≡ fault_at line self }
    {
        match self {
            Stop::Code(code) => WaveFault::Rule(code, line),
            Stop::Memory => WaveFault::Memory,
        }
    }
}

impl From<AllocError> for Stop {
    ghost from_gives = { λ _ stop. stop ≡ Memory };

    fn from(_error: AllocError) -> Stop {
        Stop::Memory
    }
}

impl<T: Drop> From<AllocFailed<T>> for Stop {
    ghost from_gives = { λ _ stop. stop ≡ Memory };

    fn from(_error: AllocFailed<T>) -> Stop {
        Stop::Memory
    }
}
