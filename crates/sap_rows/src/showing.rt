//! Differences and refusals as lines.

ghost use Rattle.std.specs.Prelude.{◌≡◌, ◌<◌, ◌≤◌, ◌++◌, IfOk, OnOk, string_bytes, string_len, true, false};
ghost use Rattle.sap_rows.specs.Told.{counts_line, refusal_line};

use crate::judging::first_wrong;
use crate::refusal::{Refusal, Why};
use crate::runs::Circumstance;
use crate::seen::{Came, Seen};
use crate::table::{Answer, Row};
use std::alloc::AllocError;

// How much of a text is shown in quotes.
const SHOWN: usize = 400;

/// What a line is put together from.
#[derive(Clone, Copy)]
enum Part<'a> {
    Text(&'a str),
    Number(u64),
    Quoted(&'a [u8]),
}

fn push_hexadecimal(out: &mut String, byte: u8) -> Result<(), AllocError>
    ensures { OnOk result (string_len out.old ≤ string_len out.new) }
{
    let shown = format!(in *out.allocator(); "\\x{byte:02x}")?;
    out.push_str(&shown)
}

fn push_byte(out: &mut String, byte: u8) -> Result<(), AllocError>
    ensures { OnOk result (string_len out.old ≤ string_len out.new) }
{
    let escape = match byte {
        b'\n' => "\\n",
        b'"' => "\\\"",
        b'\\' => "\\\\",
        b' '..=b'~' => return out.push(char::from(byte)),
        _ => return push_hexadecimal(out, byte),
    };
    out.push_str(escape)
}

fn push_quoted(out: &mut String, bytes: &[u8]) -> Result<(), AllocError>
    ensures { OnOk result (string_len out.old ≤ string_len out.new) }
{
    out.push_str("\"")?;
    for byte in bytes.iter().take(SHOWN) {
        push_byte(out, *byte)?;
    }
    out.push_str(if bytes.len() > SHOWN { "\".." } else { "\"" })
}

fn push_part(out: &mut String, part: Part<'_>) -> Result<(), AllocError>
    ensures { OnOk result (string_len out.old ≤ string_len out.new) }
{
    match part {
        Part::Text(text) => out.push_str(text),
        Part::Number(number) => {
            let shown = format!(in *out.allocator(); "{number}")?;
            out.push_str(&shown)
        }
        Part::Quoted(bytes) => push_quoted(out, bytes),
    }
}

fn push_parts(out: &mut String, parts: &[Part<'_>]) -> Result<(), AllocError>
    ensures { OnOk result (string_len out.old ≤ string_len out.new) }
{
    for part in parts {
        push_part(out, *part)?;
    }
    Ok(())
}

fn push_line(out: &mut String, parts: &[Part<'_>]) -> Result<(), AllocError>
    ensures { OnOk result (string_len out.old < string_len out.new) }
{
    push_parts(out, parts)?;
    out.push_str("\n")
}

fn status_of(answer: Answer) -> Part<'static> {
    match answer {
        Answer::Status(status) => Part::Number(u64::from(status)),
        Answer::Nothing => Part::Text("none"),
    }
}

// What came, and what it came as.
fn parts_of<'a>(came: Came<'a>) -> [Part<'a>; 4] {
    let none = Part::Text("");
    match came {
        Came::Answer(answer, faults) => [
            Part::Text("status "),
            status_of(answer),
            Part::Text(", err "),
            Part::Quoted(faults),
        ],
        Came::Output(bytes) => [Part::Text("out "), Part::Quoted(bytes), none, none],
        Came::Faults(bytes) => [Part::Text("err "), Part::Quoted(bytes), none, none],
        Came::File(name, Some(bytes)) => [
            Part::Text("file "),
            Part::Text(name),
            Part::Text(" "),
            Part::Quoted(bytes),
        ],
        Came::File(name, None) => [Part::Text("no file "), Part::Text(name), none, none],
        Came::Words(word, count) => [
            Part::Text(std::str::from_utf8(word).unwrap_or("")),
            Part::Text(" "),
            Part::Number(count),
            Part::Text(" times"),
        ],
    }
}

fn push_circumstance(out: &mut String, circumstance: Circumstance) -> Result<(), AllocError>
    ensures { OnOk result (string_len out.old ≤ string_len out.new) }
{
    let (before, number, behind) = match circumstance {
        Circumstance::AsItStands => return Ok(()),
        Circumstance::Failing(number) => (" where call ", number, " on the desk fails"),
        Circumstance::CutAt(length) => (" where ", length, " bytes are left"),
    };
    push_parts(
        out,
        &[
            Part::Text(before),
            Part::Number(number as u64),
            Part::Text(behind),
        ],
    )
}

/// Appends the line of a row that came out otherwise in a run; whether it did. `seen` is what the run left, and `whole`
/// what the row left as it stands.
pub fn push_difference<'a>(
    out: &mut String,
    table: &'a str,
    row: &'a Row,
    circumstance: Circumstance,
    whole: &[Seen],
    seen: &[Seen],
) -> Result<bool, AllocError>
    ensures same { IfOk result (λ differs. differs ≡ false → string_bytes out.new ≡ string_bytes out.old) }
    ensures line { IfOk result (λ differs. differs ≡ true → string_len out.old < string_len out.new) }
{
    let Some(wrong) = first_wrong(row, circumstance, whole, seen) else {
        return Ok(false);
    };
    push_parts(
        out,
        &[
            Part::Text(table),
            Part::Text(": "),
            Part::Text(&row.name),
            Part::Text(": call "),
            Part::Number(wrong.call),
        ],
    )?;
    push_circumstance(out, circumstance)?;
    push_parts(out, &[Part::Text(": came ")])?;
    push_line(out, &parts_of(wrong.came))?;
    Ok(true)
}

/// Appends the line of a table that was run.
pub fn push_counts(
    out: &mut String,
    table: &str,
    rows: usize,
    differing: u64,
) -> Result<(), AllocError>
    ensures { OnOk result (string_bytes out.new ≡ string_bytes out.old ++ counts_line table.now rows differing) }
{
    let line = format!(in *out.allocator(); "{table}: {rows} rows, {differing} differ\n")?;
    out.push_str(&line)
}

/// Appends the line of a table that is refused.
pub fn push_refusal(out: &mut String, table: &str, refusal: Refusal) -> Result<(), AllocError>
    ensures { OnOk result (string_bytes out.new ≡ string_bytes out.old ++ refusal_line table.now refusal.line refusal.why) }
{
    let Refusal { line, why } = refusal;
    let told = match why {
        Why::Says(text) => format!(in *out.allocator(); "{table}: line {line}: {text}\n")?,
        Why::Memory => format!(in *out.allocator(); "{table}: memory\n")?,
    };
    out.push_str(&told)
}
