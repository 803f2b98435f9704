//! The stimulus of two programs for the machine.

ghost use Rattle.std.specs.Prelude.{◌≡◌, ◌++◌, IfOk, OnOk};
ghost use Rattle.sap_machine.specs.Text.{stimulus_text, word_line};

use crate::words::Words;
use sap_desk::Bytes;
use sap_text::digits::push_number;
use std::alloc::{AllocError, Global};

/// Appends a word of each user at the user's level.
fn push_words(out: &mut Vec<u8>, a: u16, b: u16) -> Result<(), AllocError>
    ensures { OnOk result (out.new.items ≡ out.old.items ++ word_line a b) }
{
    push_number(out, u64::from(a))?;
    out.extend_from_slice(b"@a ")?;
    push_number(out, u64::from(b))?;
    out.extend_from_slice(b"@b\n")
}

/// The stimulus that brings these words, and runs the machine for so many slices behind them.
pub fn stimulus_text(alloc: Global, a: &Words, b: &Words, slices: u32) -> Result<Bytes, AllocError>
    ensures { IfOk result (λ text. text ≡ stimulus_text a.now b.now slices) }
{
    let mut out = Vec::new(alloc);
    let (a, b) = (a.as_array(), b.as_array());
    for i in 0..16 {
        push_words(&mut out, a[i], b[i])?;
    }
    out.extend_from_slice(b"0@low 0@low *")?;
    push_number(&mut out, 1 + 6 * u64::from(slices))?;
    out.extend_from_slice(b"\n")?;
    Ok(Bytes::new(out))
}
