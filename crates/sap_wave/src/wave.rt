//! What a dump is read as.

ghost use Rattle.std.specs.Prelude.{◌≡◌, ◌<◌, length, slice_get, Some};

use crate::block_list::BlockList;
use crate::variable::Variable;
use std::marker::Model;

/// The variables of a dump in order, and the number of each after each block, block 0 first.
#[derive(Drop)]
pub struct Wave {
    variables: Vec<Variable>,
    blocks: BlockList,
}

impl Model for Wave {
    ghost use Rattle.sap_wave.specs.BlockLists.{blocks_in};
    ghost use Rattle.sap_wave.specs.Waves.{Wave as Read};

    ghost Value = { Read };

    ghost view = { λ w. record { variables = w.variables.items; blocks = blocks_in w.blocks } };
}

impl Wave {
    ghost use Rattle.sap_wave.specs.BlockLists.{blocks_in};

    /// These variables, with these numbers after each block.
    pub fn new(variables: Vec<Variable>, blocks: BlockList) -> Wave
        ensures { result ≡ record { variables = variables.items; blocks = blocks_in blocks } }
    {
        Wave { variables, blocks }
    }

    pub fn variables(&self) -> &[Variable]
        ensures { result.now ≡ self.now.variables }
    {
        self.variables.as_slice()
    }

    /// How many blocks there are.
    pub fn block_count(&self) -> usize
        ensures { result ≡ length self.now.blocks }
    {
        self.blocks.count()
    }

    /// The numbers of the variables after a block.
    pub fn block(&self, number: usize) -> &[u64]
        requires { number < length self.now.blocks }
        ensures { slice_get self.now.blocks number ≡ Some result.now }
    {
        self.blocks.block(number)
    }
}
