//! What is left where a call on the desk fails.

use crate::fitting::exact;
use crate::seen::{Came, Seen};
use crate::table::{Answer, State, Step};

const OUTPUT: u8 = b'1';

const FAULTS: u8 = b'2';

/// A call on the desk that fails: its file or channel.
#[derive(Clone, Copy)]
struct Turn<'a> {
    at: u8,
    // whether channel 1 was written before
    is_written: bool,
    step: &'a Step,
}

fn turn_of(step: &Step, number: usize) -> Option<Turn<'_>> {
    let before = step.turns.as_bytes().get(..number)?;
    let (at, before) = before.split_last()?;
    Some(Turn {
        at: *at,
        is_written: before.contains(&OUTPUT),
        step,
    })
}

// Where the call on channel 2 fails, its line is cut; else the file or the output is told.
fn is_told(turn: &Turn<'_>, came: &[u8]) -> bool {
    match turn.at {
        OUTPUT => came == b"desk: output\n".as_slice(),
        FAULTS => {
            let line = exact(&turn.step.faults);
            came.len() < line.len() && line.starts_with(came)
        }
        _ => came == [b'd', b'e', b's', b'k', b':', b' ', turn.at, b'\n'].as_slice(),
    }
}

fn answer_of(turn: &Turn<'_>) -> Answer {
    if turn.at == FAULTS {
        turn.step.answer
    } else {
        Answer::Status(6)
    }
}

// A write that fails takes the first half of its bytes, rounded down.
fn output_of<'a>(turn: &Turn<'a>) -> &'a [u8] {
    let whole = exact(&turn.step.output);
    if turn.is_written {
        whole
    } else if turn.at == OUTPUT {
        &whole[..whole.len() / 2]
    } else {
        &[]
    }
}

fn changes(step: &Step, name: &str) -> bool {
    for held in &step.held {
        if held.file.name.as_str() == name && matches!(held.state, State::Changed) {
            return true;
        }
    }
    false
}

fn file_of<'a>(seen: &'a [Seen], name: &str) -> &'a [u8] {
    match seen.first() {
        Some(seen) => seen.file(name).unwrap_or(&[]),
        None => &[],
    }
}

// A file that may change is as before, or where the call was on it the beginning of what it would be.
fn is_left(turn: &Turn<'_>, name: &str, before: &[u8], held: &[u8], whole: &[u8]) -> bool {
    held == before
        || (changes(turn.step, name)
            && name.as_bytes() == [turn.at].as_slice()
            && whole.starts_with(held))
}

fn changed_file<'a>(turn: &Turn<'a>, whole: &[Seen], seen: &Seen) -> Option<&'a str> {
    for file in &turn.step.files {
        let name = file.name.as_str();
        let held = seen.file(name).unwrap_or(&[]);
        if !is_left(turn, name, &file.bytes, held, file_of(whole, name)) {
            return Some(name);
        }
    }
    None
}

/// What came otherwise where the call on the desk of this number failed.
pub(crate) fn came_of_turn<'a>(
    step: &'a Step,
    number: usize,
    whole: &[Seen],
    seen: &'a Seen,
) -> Option<Came<'a>> {
    let turn = turn_of(step, number)?;
    let came = seen.otherwise(
        seen.answer == answer_of(&turn),
        seen.output.as_slice() == output_of(&turn),
        is_told(&turn, &seen.faults),
    );
    if came.is_some() {
        return came;
    }
    let name = changed_file(&turn, whole, seen)?;
    Some(Came::File(name, seen.file(name)))
}
