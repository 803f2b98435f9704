//! What the table makes of two programs, as a text.

ghost use Rattle.std.specs.Prelude.{◌≡◌, ◌++◌, IfOk, OnOk};
ghost use Rattle.sap_machine.specs.Text.{user_line, users_text};
ghost use Rattle.sap_cpu.specs.Views.{IsAfter, state_of, word_at};

use crate::cpu::Cpu;
use crate::words::Words;
use sap_desk::Bytes;
use sap_machine::user::User;
use sap_text::digits::push_number;
use std::alloc::{AllocError, Global};

/// Appends a user's line, under this name.
fn push_user(out: &mut Vec<u8>, name: &[u8], cpu: &Cpu, user: User) -> Result<(), AllocError>
    ensures { OnOk result (out.new.items ≡ out.old.items ++ user_line name.now (state_of cpu.now user)) }
{
    out.extend_from_slice(name)?;
    out.extend_from_slice(b" pc=")?;
    push_number(out, cpu.pc(user))?;
    out.extend_from_slice(b" acc=")?;
    push_number(out, cpu.acc(user))?;
    out.extend_from_slice(b"\n")
}

/// Both users of these words after so many slices.
fn run(a: &Words, b: &Words, slices: u32) -> Cpu
    ensures { IsAfter (word_at a.now) (word_at b.now) slices result }
{
    let mut cpu = Cpu::new(a, b);
    for _ in 0..slices {
        cpu.slice();
    }
    cpu
}

/// The lines of both users after so many slices of their words.
pub fn users_text(alloc: Global, a: &Words, b: &Words, slices: u32) -> Result<Bytes, AllocError>
    ensures { IfOk result (λ text. text ≡ users_text a.now b.now slices) }
{
    let cpu = run(a, b, slices);
    let mut out = Vec::new(alloc);
    push_user(&mut out, b"a", &cpu, User::A)?;
    push_user(&mut out, b"b", &cpu, User::B)?;
    Ok(Bytes::new(out))
}
