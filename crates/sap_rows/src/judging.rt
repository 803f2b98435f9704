//! What a run of a row left, against what the row says.

use crate::fitting::{begins_with_any, count_of, fits, is_held};
use crate::runs::{Circumstance, steps_of};
use crate::seen::{Came, Seen};
use crate::table::{Answer, Cut, Held, Row, State, Step, bytes_of};
use crate::turns::came_of_turn;

/// Where a row came out otherwise: its call, from 1, and how.
#[derive(Clone, Copy)]
pub(crate) struct Wrong<'a> {
    pub(crate) call: u64,
    pub(crate) came: Came<'a>,
}

fn speaks_of(step: &Step, name: &str) -> bool {
    for held in &step.held {
        if held.file.name.as_str() == name {
            return true;
        }
    }
    false
}

fn is_named(steps: &[Step], name: &str) -> bool {
    for step in steps {
        if speaks_of(step, name) || bytes_of(&step.files, name).is_some() {
            return true;
        }
    }
    false
}

// The first file of the steps' first that isn't as it was put, though no step speaks of it, and none puts it again.
fn changed_file<'a>(steps: &'a [Step], seen: &Seen) -> Option<&'a str> {
    let (step, later) = steps.split_first()?;
    for file in &step.files {
        let name = file.name.as_str();
        if !speaks_of(step, name)
            && !is_named(later, name)
            && seen.file(name) != Some(file.bytes.as_slice())
        {
            return Some(name);
        }
    }
    None
}

fn first_changed_file<'a>(steps: &'a [Step], seen: &Seen) -> Option<&'a str> {
    for start in 0..steps.len() {
        if let Some(name) = changed_file(&steps[start..], seen) {
            return Some(name);
        }
    }
    None
}

fn first_unheld<'a>(step: &'a Step, seen: &Seen) -> Option<&'a Held> {
    for held in &step.held {
        if !is_held(held, seen.file(&held.file.name)) {
            return Some(held);
        }
    }
    None
}

fn unheld<'a>(held: &'a Held, came: Option<&'a [u8]>) -> Came<'a> {
    let bytes = held.file.bytes.as_slice();
    match held.state {
        State::Words { .. } => Came::Words(bytes, count_of(came.unwrap_or(&[]), bytes)),
        _ => Came::File(&held.file.name, came),
    }
}

// What is otherwise than the steps so far say, of which `step` is the last.
fn came_of_step<'a>(steps: &'a [Step], step: &'a Step, seen: &'a Seen) -> Option<Came<'a>> {
    let came = seen.otherwise(
        seen.answer == step.answer,
        fits(&step.output, &seen.output),
        fits(&step.faults, &seen.faults),
    );
    if came.is_some() {
        return came;
    }
    if let Some(name) = first_changed_file(steps, seen) {
        return Some(Came::File(name, seen.file(name)));
    }
    let held = first_unheld(step, seen)?;
    Some(unheld(held, seen.file(&held.file.name)))
}

// A beginning of the file is refused as is said, or does what the whole file does.
fn came_of_cut<'a>(step: &Step, cut: &Cut, seen: &'a Seen) -> Option<Came<'a>> {
    let is_refused = seen.answer == cut.answer && begins_with_any(&seen.faults, &cut.lines);
    let is_whole = seen.answer == step.answer && fits(&step.faults, &seen.faults);
    seen.otherwise(is_refused || is_whole, true, true)
}

// What is otherwise than a row says of the last of the steps so far.
fn came_under<'a>(
    steps: &'a [Step],
    step: &'a Step,
    circumstance: Circumstance,
    whole: &[Seen],
    seen: &'a Seen,
) -> Option<Came<'a>> {
    match (circumstance, &step.cut) {
        (Circumstance::CutAt(_), Some(cut)) => came_of_cut(step, cut, seen),
        (Circumstance::Failing(number), _) if number <= step.turns.len() => {
            came_of_turn(step, number, whole, seen)
        }
        _ => came_of_step(steps, step, seen),
    }
}

/// The first call of a run that came out otherwise than its row says, by what the run left; `whole` is what the row left
/// as it stands.
pub(crate) fn first_wrong<'a>(
    row: &'a Row,
    circumstance: Circumstance,
    whole: &[Seen],
    seen: &'a [Seen],
) -> Option<Wrong<'a>> {
    let steps = steps_of(row, circumstance);
    for (place, step) in steps.iter().enumerate() {
        let came = match seen.get(place) {
            Some(left) => came_under(&steps[..=place], step, circumstance, whole, left),
            None => Some(Came::Answer(Answer::Nothing, &[])),
        };
        if let Some(came) = came {
            return Some(Wrong {
                call: place as u64 + 1,
                came,
            });
        }
    }
    None
}
