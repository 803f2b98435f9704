//! Taking the next line from the bytes that are held.

ghost use Rattle.std.specs.Prelude.{◌≡◌, ◌+◌, ◌≤◌, ◌<◌, ◌^◌, ◌++◌, ◌⊎◌, [], List, ℕ, None, All, IfOk, IfSome, OnOk, IsTrue, false, length};
ghost use Rattle.sap_stim.specs.Fits.{LineFits};
ghost use Rattle.sap_stim.specs.Line.{IsSized, line_of, with_inputs};
ghost use Rattle.sap_stim.specs.Stimulus.{ahead, read_from};
ghost use Rattle.sap_stream.specs.Spans.{IsCount};
ghost use Rattle.sap_lines.specs.Answers.{BeginsWith, Tells, is_failed, is_line, lines_in};
ghost use Rattle.sap_lines.specs.Fetched.{IsDecided};

use crate::Next;
use crate::held::Held;
use sap_lattice::lattice::Lattice;
use sap_stim::{Field, StimCode, StimFault, line_ahead, read_line_into};
use sap_stream::Inputs;

/// Takes the next line in one look, where nothing is wrong with it, and gives for how many cycles it stands. None says
/// nothing of it.
pub fn take_ahead(
    held: &mut Held,
    fields: &[Field],
    lattice: &Lattice,
    inputs: &mut Inputs,
) -> Option<u32>
    requires widths { All IsSized fields.now }
    requires places { length inputs.old ≡ length fields.now }
    ensures tells { IfSome result (λ cycles. (count : ℕ) (rest : List ℕ) → read_from lattice.now fields.now (count + 1) (held.old ++ rest)
        ≡ ahead (record { inputs = inputs.new; count = cycles }) (read_from lattice.now fields.now (count + 2) (held.new ++ rest))) }
    ensures takes { IfSome result (λ cycles. BeginsWith lattice.now fields.now held.old (record { inputs = inputs.new; count = cycles }) held.new) }
    ensures decided { IfSome result (λ _. IsDecided held.old) }
    ensures fits { IfSome result (λ _. LineFits lattice.now fields.now inputs.new) }
    ensures cycles { IfSome result IsCount }
    ensures shorter { IfSome result (λ _. length held.new + 1 ≤ length held.old) }
    ensures stands { (result ≡ None) → held.new ≡ held.old }
    ensures places { length inputs.new ≡ length fields.now }
{
    let (read, len) = line_ahead(held.as_slice(), fields, lattice, &mut inputs.values)?;
    let Ok(cycles) = read else {
        return None;
    };
    held.skip(len + 1);
    Some(cycles)
}

// Reads a line, without its LF, in place of the last one, and tells for how many cycles it stands.
fn read_into(
    text: &[u8],
    ended: bool,
    fields: &[Field],
    lattice: &Lattice,
    inputs: &mut Inputs,
) -> Result<u32, StimCode>
    requires widths { All IsSized fields.now }
    requires places { length inputs.old ≡ length fields.now }
    ensures given { with_inputs result inputs.new ≡ line_of lattice.now fields.now ended text.now }
    ensures fits { OnOk result (LineFits lattice.now fields.now inputs.new) }
    ensures count { IfOk result IsCount }
    ensures places { length inputs.new ≡ length fields.now }
{
    read_line_into(text, ended, fields, lattice, &mut inputs.values)
}

/// Takes the next line, where the bytes that are held tell it or none come behind them. `count` lines
/// stand before it.
pub fn take_line(
    held: &mut Held,
    fields: &[Field],
    lattice: &Lattice,
    count: u64,
    inputs: &mut Inputs,
    cycles: &mut u32,
) -> Next
    requires widths { All IsSized fields.now }
    requires places { length inputs.old ≡ length fields.now }
    requires cycles { IsCount cycles.old }
    ensures tells { (rest : List ℕ) → IsDecided held.old ⊎ (rest ≡ []) → count < 2 ^ 32
        → Tells result (read_from lattice.now fields.now (count + 1) (held.old ++ rest)) (record { inputs = inputs.new; count = cycles.new }) (read_from lattice.now fields.now (count + 2) (held.new ++ rest)) }
    ensures takes { IsTrue (is_line result) → BeginsWith lattice.now fields.now held.old (record { inputs = inputs.new; count = cycles.new }) held.new }
    ensures decided { IsTrue (is_line result) → IsDecided held.old }
    ensures answered { is_failed result ≡ false }
    ensures fits { IsTrue (is_line result) → LineFits lattice.now fields.now inputs.new }
    ensures shorter { length held.new + lines_in result ≤ length held.old }
    ensures places { length inputs.new ≡ length fields.now }
    ensures cycles { IsCount cycles.new }
{
    let bytes = held.as_slice();
    if bytes.is_empty() {
        return Next::End;
    }
    let text = held.line();
    let len = text.len();
    let ended = len < bytes.len();
    match read_into(text, ended, fields, lattice, inputs) {
        Ok(read) => {
            *cycles = read;
            held.skip(len + 1);
            Next::Line
        }
        Err(code) => Next::Fault(StimFault {
            line: count.saturating_add(1),
            code,
        }),
    }
}
