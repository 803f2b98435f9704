//! The changes of a block, one after another.

ghost use Rattle.std.specs.Prelude.{◌≡◌, ◌+◌, ◌<◌, ◌≤◌, ◌^◌, ◌&&◌, ℕ, List, true, not, get_or, length, set, IfErr, IfNone, IfOk, IfSome, None, Some};
ghost use Rattle.sap_net.specs.PortNames.{is_number};
ghost use Rattle.sap_wave.specs.Digits.{bits_number, number_spelled};
ghost use Rattle.sap_wave.specs.Lines.{change, is_formed, is_id};
ghost use Rattle.sap_wave.specs.Reading.{Takes, after, in_block, is_first};
ghost use Rattle.sap_wave.specs.Read.{IsWaveFault, ReadUpTo};
ghost use Rattle.sap_wave.specs.Faults.{IsLeast, IsWrong, Misplaced};
ghost use Rattle.sap_wave.specs.Sound.{IsSound};
ghost use Rattle.sap_wave.specs.Changes.{IsNoChange};
ghost use Rattle.sap_wave.specs.Steps.{IsPlaced, open_of, with_number};
ghost use Rattle.sap_wave.specs.Numbers.{now_of};

use crate::fault::{WaveCode, WaveFault};
use crate::numbers::identified_by;
use crate::parts::{Change, change_at};
use crate::state::{Block, Numbers};
use crate::variable::Variable;

/// Whether a variable has this number.
fn has_number(numbers: &Numbers, place: usize, number: u64) -> bool
    requires { place < length (now_of numbers.now) }
    ensures { result ≡ is_number number (get_or (now_of numbers.now) place None) }
{
    match numbers {
        Numbers::First(numbers) => numbers[place] == Some(number),
        Numbers::Later(numbers) => numbers[place] == number,
    }
}

/// Gives a variable this number.
fn set_number(numbers: &mut Numbers, place: usize, number: u64)
    requires { place < length (now_of numbers.old) }
    ensures { now_of numbers.new ≡ set (now_of numbers.old) place (Some number) }
{
    match numbers {
        Numbers::First(numbers) => numbers[place] = Some(number),
        Numbers::Later(numbers) => numbers[place] = number,
    }
}

/// Whether a block isn't the first, and a variable has a number there already.
fn stands(reached: &Block, place: usize, number: u64) -> bool
    requires { place < length (now_of reached.now.numbers) }
    ensures { result ≡ (not (is_first (open_of reached.now)) && is_number number (get_or (now_of reached.now.numbers) place None)) }
{
    !reached.before.is_empty() && has_number(&reached.numbers, place, number)
}

/// Which variable a change is of, where it is in place.
fn placed(variables: &[Variable], reached: &Block, parts: &Change<'_>) -> Option<usize>
    requires id { is_id parts.now.id.now ≡ true }
    requires number { length parts.now.id.now ≤ 9 → parts.now.id_number ≡ number_spelled parts.now.id.now }
    ensures none { IfNone result (Misplaced variables.now (open_of reached.now) parts.now.digits.now parts.now.id.now) }
    ensures some { IfSome result (IsPlaced variables.now (open_of reached.now) parts.now.digits.now parts.now.id.now) }
{
    let place = identified_by(parts.id, parts.id_number, variables.len())?;
    if place < reached.next {
        return None;
    }
    if parts.digits.len() != variables[place].width as usize {
        return None;
    }
    Some(place)
}

/// Sets a variable, behind which the next can change.
fn set(reached: &mut Block, place: usize, number: u64)
    requires { place < length (now_of reached.old.numbers) }
    ensures { open_of reached.new ≡ with_number (open_of reached.old) place number }
{
    set_number(&mut reached.numbers, place, number);
    reached.next = place + 1;
}

/// Changes a variable. What is wrong with the change is answered.
fn changed(variables: &[Variable], reached: &mut Block, parts: &Change<'_>) -> Option<WaveCode>
    requires sound { IsSound (in_block variables.now (open_of reached.old)) }
    requires formed { is_formed (change parts.now.digits.now parts.now.id.now) ≡ true }
    requires number { length parts.now.digits.now ≤ 64 → parts.now.number ≡ bits_number parts.now.digits.now }
    requires id { length parts.now.id.now ≤ 9 → parts.now.id_number ≡ number_spelled parts.now.id.now }
    ensures wrong { IfSome result (IsLeast (IsWrong (in_block variables.now (open_of reached.old)) (change parts.now.digits.now parts.now.id.now))) }
    ensures right { IfNone result (Takes (in_block variables.now (open_of reached.old)) (change parts.now.digits.now parts.now.id.now)) }
    ensures after { IfNone result (in_block variables.now (open_of reached.new) ≡ after (in_block variables.now (open_of reached.old)) (change parts.now.digits.now parts.now.id.now)) }
{
    let Some(place) = placed(variables, reached, parts) else {
        return Some(WaveCode::Y3);
    };
    if stands(reached, place, parts.number) {
        return Some(WaveCode::Y5);
    }
    set(reached, place, parts.number);
    None
}

/// What is left of a text, and the line in which it begins.
#[derive(Clone, Copy)]
pub struct Rest<'a> {
    pub text: &'a [u8],
    pub line: u64,
}

/// Changes variables by each line up to the first that is no change.
pub fn read_changes<'a>(
    variables: &[Variable],
    reached: &mut Block,
    text: &'a [u8],
    line: u64,
) -> Result<Rest<'a>, WaveFault>
    requires sound { IsSound (in_block variables.now (open_of reached.old)) }
    requires few { line + length text.now < 2 ^ 64 }
    ensures read { IfOk result (λ r. (bytes : List ℕ) → ReadUpTo bytes text.now line (in_block variables.now (open_of reached.old)) → ReadUpTo bytes r.text.now r.line (in_block variables.now (open_of reached.new))) }
    ensures few { IfOk result (λ r. r.line + length r.text.now ≤ line + length text.now) }
    ensures shorter { IfOk result (λ r. length r.text.now ≤ length text.now) }
    ensures others { IfOk result (λ r. IsNoChange r.text.now) }
    ensures fault { IfErr result (λ fault. (bytes : List ℕ) → ReadUpTo bytes text.now line (in_block variables.now (open_of reached.old)) → IsWaveFault bytes fault) }
{
    let mut rest = text;
    let mut next = line;
    'changes: loop {
        let Some(parts) = change_at(rest) else {
            return Ok(Rest {
                text: rest,
                line: next,
            });
        };
        if let Some(code) = changed(variables, reached, &parts) {
            return Err(WaveFault::Rule(code, next));
        }
        rest = parts.behind;
        next += 1;
    }
}
