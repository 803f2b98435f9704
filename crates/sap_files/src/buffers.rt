//! The memory for printing what a stimulus shows.

ghost use Rattle.std.specs.Prelude.{◌≡◌, ◌≤◌, [], All, IfOk};
ghost use Rattle.sap_stim.specs.Line.{IsSized};
ghost use Rattle.sap_lines.specs.Reader.{IsNew};
ghost use Rattle.sap_pieces.specs.declared.TheConstants.{LARGE_BYTES};

use sap_desk::RowBuf;
use sap_lines::Lines;
use sap_pieces::LARGE_BYTES;
use sap_stim::Fields;
use std::alloc::{AllocError, Global};

/// A reader of lines, a buffer for a step, and one in which what steps show waits to be written.
#[derive(Drop)]
pub struct Buffers {
    pub lines: Lines,
    pub out: RowBuf,
    pub waiting: RowBuf,
}

/// Takes all the memory for lines of these fields, and for steps that show at most so many bytes.
pub fn take_buffers(alloc: Global, fields: &Fields, room: usize) -> Result<Buffers, AllocError>
    requires { All IsSized fields.now }
    ensures lines { IfOk result (λ b. IsNew fields.now b.lines) }
    ensures room { IfOk result (λ b. room ≤ b.out.room) }
    ensures waiting { IfOk result (λ b. b.waiting.bytes ≡ []) }
    ensures large { IfOk result (λ b. LARGE_BYTES ≤ b.waiting.room) }
{
    let lines = Lines::new(alloc, fields)?;
    let out = RowBuf::new(alloc, room)?;
    let waiting = RowBuf::new(alloc, LARGE_BYTES)?;
    Ok(Buffers {
        lines,
        out,
        waiting,
    })
}
