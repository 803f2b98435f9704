//! What a text is read as.

ghost use Rattle.std.specs.Prelude.{◌≡◌, ◌≢◌, ◌+◌, ◌<◌, ◌≤◌, ◌^◌, ℕ, List, true, Err, IfErr, IfOk, MatchResult, length};
ghost use Rattle.sap_wave.specs.declared.fault.WaveCode.{WaveCode as AnyCode};
ghost use Rattle.sap_wave.specs.declared.fault.WaveCode.TheVariants.{Y1};
ghost use Rattle.sap_wave.specs.declared.fault.WaveFault.TheVariants.{Memory, Rule};
ghost use Rattle.sap_wave.specs.Dumps.{IsReading};
ghost use Rattle.sap_wave.specs.Lines.{ended};
ghost use Rattle.sap_wave.specs.Changes.{AreChangesRead, IsOtherIn};
ghost use Rattle.sap_wave.specs.Read.{IsFaultAt, IsWaveFault, ReadUpTo};
ghost use Rattle.sap_wave.specs.Waves.{Wave as Read};
ghost use Rattle.sap_wave.specs.Reading.{Ends, in_block, is_full, ReadsSo};
ghost use Rattle.sap_wave.specs.Faults.{IsFault, Stands, StandsAtEnd};
ghost use Rattle.sap_wave.specs.Sound.{IsSound};
ghost use Rattle.sap_wave.specs.Steps.{IsIndexed, Reaches, open_of, state_of};
ghost use Rattle.sap_wave.specs.Numbers.{now_of};

use crate::changes::{Rest, read_changes};
use crate::fault::{WaveCode, WaveFault};
use crate::pieces::cut_at;
use crate::state::{Block, State};
use crate::steps::{is_full, numbers_in, read_line};
use crate::variable::Variable;
use crate::wave::Wave;
use crate::{dumps_read_line_by_line, one_wave_or_fault};
use std::alloc::{AllocError, Global};

/// What is read of this line, which has an LF.
fn read_numbered(alloc: Global, state: State, line: u64, text: &[u8]) -> Result<State, WaveFault>
    requires other { IsOtherIn (state_of state) text.now }
    requires indexed { IsIndexed state }
    ensures reached { IfOk result (λ t. Reaches (state_of state) (ended text.now) (state_of t)) }
    ensures indexed { IfOk result IsIndexed }
    ensures fault { IfErr result (IsFaultAt (Stands (state_of state) (ended text.now)) line) }
{
    match read_line(alloc, state, text) {
        Ok(next) => Ok(next),
        Err(stop) => Err(stop.at(line)),
    }
}

/// The wave that ends in a block in which each variable has a number.
fn ended_in(alloc: Global, variables: Vec<Variable>, block: Block) -> Result<Wave, AllocError>
    requires { is_full (now_of block.numbers) ≡ true }
    ensures { IfOk result (Ends (in_block variables.items (open_of block))) }
{
    let Block {
        mut before,
        numbers,
        next: _,
    } = block;
    let last = numbers_in(alloc, numbers)?;
    before.push(&last)?;
    Ok(Wave::new(variables, before))
}

/// The wave of a text that ends here in a block, before this line.
fn ended_block(
    alloc: Global,
    variables: Vec<Variable>,
    block: Block,
    line: u64,
) -> Result<Wave, WaveFault>
    ensures reading { IfOk result (Ends (in_block variables.items (open_of block))) }
    ensures fault { IfErr result (IsFaultAt (StandsAtEnd (in_block variables.items (open_of block))) line) }
{
    if !is_full(&block.numbers) {
        return Err(WaveFault::Rule(WaveCode::Y5, line));
    }
    Ok(ended_in(alloc, variables, block)?)
}

/// The wave of a text that ends here, before this line.
fn ending(alloc: Global, state: State, line: u64) -> Result<Wave, WaveFault>
    ensures reading { IfOk result (Ends (state_of state)) }
    ensures fault { IfErr result (IsFaultAt (StandsAtEnd (state_of state)) line) }
{
    match state {
        State::InBlock(variables, block) => ended_block(alloc, variables, block, line),
        _ => Err(WaveFault::Rule(WaveCode::Y1, line)),
    }
}

/// What is answered at the end of a text, where this stands behind the last LF.
fn read_end(alloc: Global, state: State, rest: &[u8], line: u64) -> Result<Wave, WaveFault>
    ensures cut_off { 0 < length rest.now → result ≡ Err (Rule Y1 line) }
    ensures reading { length rest.now ≡ 0 → IfOk result (Ends (state_of state)) }
    ensures fault { length rest.now ≡ 0 → IfErr result (IsFaultAt (StandsAtEnd (state_of state)) line) }
{
    if !rest.is_empty() {
        return Err(WaveFault::Rule(WaveCode::Y1, line));
    }
    ending(alloc, state, line)
}

/// What was read of a text, what is left of it, and the line in which that begins.
#[derive(Drop)]
struct Reached<'a> {
    state: State,
    rest: Rest<'a>,
}

/// Reads the changes that come next, where a block is open.
fn behind_changes(state: State, text: &[u8], line: u64) -> Result<Reached<'_>, WaveFault>
    requires sound { IsSound (state_of state) }
    requires indexed { IsIndexed state }
    requires few { line + length text.now < 2 ^ 64 }
    ensures read { IfOk result (λ r. (bytes : List ℕ) → ReadUpTo bytes text.now line (state_of state) → ReadUpTo bytes r.rest.text.now r.rest.line (state_of r.state)) }
    ensures few { IfOk result (λ r. r.rest.line + length r.rest.text.now ≤ line + length text.now) }
    ensures shorter { IfOk result (λ r. length r.rest.text.now ≤ length text.now) }
    ensures indexed { IfOk result (λ r. IsIndexed r.state) }
    ensures others { IfOk result (λ r. AreChangesRead (state_of r.state) r.rest.text.now) }
    ensures fault { IfErr result (λ fault. (bytes : List ℕ) → ReadUpTo bytes text.now line (state_of state) → IsWaveFault bytes fault) }
{
    match state {
        State::InBlock(variables, mut block) => {
            let rest = read_changes(&variables, &mut block, text, line)?;
            let state = State::InBlock(variables, block);
            Ok(Reached { state, rest })
        }
        state => Ok(Reached {
            state,
            rest: Rest { text, line },
        }),
    }
}

/// The reading of a text, or its first fault.
fn read(alloc: Global, bytes: &[u8]) -> Result<Wave, WaveFault>
    ensures reading { IfOk result (ReadsSo bytes.now) }
    ensures fault { IfErr result (λ fault. fault ≢ Memory → IsWaveFault bytes.now fault) }
{
    let mut state = State::BeforeTimescale;
    let mut rest = bytes;
    let mut line = 1u64;
    'lines: loop {
        let reached = behind_changes(state, rest, line)?;
        let Rest { text, line: next } = reached.rest;
        let Some(halves) = cut_at(text, b'\n') else {
            return read_end(alloc, reached.state, text, next);
        };
        state = read_numbered(alloc, reached.state, next, halves.before)?;
        rest = halves.behind;
        line = next + 1;
    }
}

/// Reads a dump.
pub fn read_wave(alloc: Global, bytes: &[u8]) -> Result<Wave, WaveFault>
    ensures reading { IfOk result (IsReading bytes.now) }
    ensures fault { IfErr result (λ fault. fault ≢ Memory → IsWaveFault bytes.now fault) }
    // A dump is refused for want of memory alone.
    ensures valid { (wave : Read) → IsReading bytes.now wave → MatchResult result (λ w. w ≡ wave) (λ fault. fault ≡ Memory) }
    // A text with a fault is refused, with that fault or for want of memory.
    ensures exact { (line : ℕ) → (code : AnyCode) → IsFault bytes.now line code → MatchResult result (λ w. ⊥) (λ fault. fault ≢ Memory → fault ≡ Rule code line) }
{
    one_wave_or_fault();
    dumps_read_line_by_line();
    read(alloc, bytes)
}
