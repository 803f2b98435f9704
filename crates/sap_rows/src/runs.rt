//! How a row is run: as it stands, and again where calls on the desk fail in turn, or where a file is cut.

ghost use Rattle.std.specs.Prelude.{◌≡◌, ◌≢◌, ◌<◌, take, drop};
ghost use Rattle.sap_rows.specs.Runs.{cuts, further, further_at, put_bytes};
ghost use Rattle.sap_rows.specs.declared.runs.Circumstance.TheVariants.{AsItStands};

use crate::table::{File, Row, Step};

/// How a row is run: as it stands, with this call on the desk failing, or with so many bytes of a file.
#[derive(Clone, Copy)]
pub enum Circumstance {
    AsItStands,
    Failing(usize),
    CutAt(usize),
}

/// What of a text stands behind this many bytes.
pub fn behind(text: &[u8], start: usize) -> &[u8]
    ensures { result.now ≡ drop start text.now }
{
    text.get(start..).unwrap_or(&[])
}

/// The steps of a row that are made: all as it stands, else the first alone.
pub fn steps_of(row: &Row, circumstance: Circumstance) -> &[Step]
    ensures all { circumstance ≡ AsItStands → result.now ≡ row.now.steps.items }
    ensures first { circumstance ≢ AsItStands → result.now ≡ take 1 row.now.steps.items }
{
    match circumstance {
        Circumstance::AsItStands => row.steps.as_slice(),
        _ => row.steps.get(..1).unwrap_or(&[]),
    }
}

/// At most so many bytes of a text, from the first on.
fn beginning(text: &[u8], length: usize) -> &[u8]
    ensures { result.now ≡ take length text.now }
{
    &text[..length.min(text.len())]
}

/// Whether a file is the one that a step has cut.
fn is_cut(step: &Step, file: &File) -> bool
    ensures { result ≡ cuts step.now.cut file.now }
{
    match &step.cut {
        Some(cut) => file.name.as_str() == cut.file.as_str(),
        None => false,
    }
}

/// The bytes of a file that are put: all, or where it is cut its beginning.
pub fn bytes_put<'a>(step: &Step, file: &'a File, circumstance: Circumstance) -> &'a [u8]
    ensures { result.now ≡ put_bytes step.now file.now circumstance }
{
    match circumstance {
        Circumstance::CutAt(length) if is_cut(step, file) => {
            beginning(file.bytes.as_slice(), length)
        }
        _ => file.bytes.as_slice(),
    }
}

/// How many further runs a row has: one for each call on the desk and one with a call failing that is never made, or one
/// for each length at which its file is cut.
pub fn further_runs(row: &Row) -> usize
    ensures { result ≡ further row.now.steps.items }
{
    match row.steps.first() {
        Some(step) if !step.turns.is_empty() => step.turns.len().saturating_add(1),
        Some(step) => step.cut_bytes().unwrap_or(&[]).len(),
        None => 0,
    }
}

/// How the further run of this number, from 0, is made.
pub fn further_run(row: &Row, number: usize) -> Circumstance
    ensures counted { number < further row.now.steps.items → result ≡ further_at row.now.steps.items number }
    ensures further { result ≢ AsItStands }
{
    match row.steps.first() {
        Some(step) if !step.turns.is_empty() => Circumstance::Failing(number.saturating_add(1)),
        _ => Circumstance::CutAt(number),
    }
}
