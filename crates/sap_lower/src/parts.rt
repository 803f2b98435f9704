//! Operands with their widths, and the write ports of memories.

ghost use Rattle.std.specs.Prelude.{◌≡◌, IfOk};

use sap_net::parts::Operand;
use std::alloc::{AllocError, Global};

/// An operand and its width.
#[derive(Drop)]
pub struct Part {
    pub operand: Operand,
    pub width: u32,
}

/// The write port of a memory so far: `index` has `bits` bits, `value` has `width`.
#[derive(Drop)]
pub struct WritePort {
    pub width: u32,
    pub bits: u32,
    pub enable: Operand,
    pub index: Operand,
    pub value: Operand,
}

impl Part {
    pub fn copy(&self, alloc: Global) -> Result<Part, AllocError>
        ensures { IfOk result (λ p. p ≡ self.now) }
    {
        let operand = self.operand.copy(alloc)?;
        Ok(Part {
            operand,
            width: self.width,
        })
    }
}

impl WritePort {
    pub fn copy(&self, alloc: Global) -> Result<WritePort, AllocError>
        ensures { IfOk result (λ p. p ≡ self.now) }
    {
        let enable = self.enable.copy(alloc)?;
        let index = self.index.copy(alloc)?;
        let value = self.value.copy(alloc)?;
        Ok(WritePort {
            width: self.width,
            bits: self.bits,
            enable,
            index,
            value,
        })
    }
}
