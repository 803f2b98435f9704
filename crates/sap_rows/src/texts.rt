//! The lines of texts.

use crate::blocks::{Block, Line};
use crate::refusal::Why;
use crate::table::{File, bytes_of};
use std::alloc::Global;

/// How far an escape goes that a `\` begins, or the byte that is whole.
#[derive(Clone, Copy)]
enum Escape {
    Whole(u8),
    Begun,
    Number,
    NumberBegun(u8),
}

fn escaped(byte: u8) -> Result<Escape, Why> {
    match byte {
        b'\\' => Ok(Escape::Whole(b'\\')),
        b't' => Ok(Escape::Whole(b'\t')),
        b'r' => Ok(Escape::Whole(b'\r')),
        b'n' => Ok(Escape::Whole(b'\n')),
        b'x' => Ok(Escape::Number),
        _ => Err(Why::Says("an unknown escape")),
    }
}

fn hexadecimal(byte: u8) -> Result<u8, Why> {
    match byte {
        b'0'..=b'9' => Ok(byte - b'0'),
        b'a'..=b'f' => Ok(byte - b'a' + 10),
        _ => Err(Why::Says("no hexadecimal digit")),
    }
}

// What a byte makes of the escape before it.
fn next(escape: Escape, byte: u8) -> Result<Escape, Why> {
    match escape {
        Escape::Whole(_) if byte == b'\\' => Ok(Escape::Begun),
        Escape::Whole(_) => Ok(Escape::Whole(byte)),
        Escape::Begun => escaped(byte),
        Escape::Number => Ok(Escape::NumberBegun(hexadecimal(byte)?)),
        Escape::NumberBegun(high) => {
            let low = hexadecimal(byte)?;
            Ok(Escape::Whole(high.wrapping_mul(16).wrapping_add(low)))
        }
    }
}

/// Pushes a text with its escapes replaced.
fn push_escaped(out: &mut Vec<u8>, text: &str) -> Result<(), Why> {
    let mut escape = Escape::Whole(0);
    for byte in text.bytes() {
        escape = next(escape, byte)?;
        if let Escape::Whole(byte) = escape {
            out.push(byte)?;
        }
    }
    match escape {
        Escape::Whole(_) => Ok(()),
        _ => Err(Why::Says("an escape is cut")),
    }
}

/// A text with its escapes replaced.
pub(crate) fn unescaped(alloc: Global, text: &str) -> Result<Vec<u8>, Why> {
    let mut bytes = Vec::new(alloc);
    push_escaped(&mut bytes, text)?;
    Ok(bytes)
}

pub(crate) fn number_of(text: &str) -> Result<u64, Why> {
    match text.parse::<u64>() {
        Ok(number) => Ok(number),
        Err(_) => Err(Why::Says("no number")),
    }
}

/// A number and the text behind it.
fn split_number(text: &str) -> Result<(u64, &str), Why> {
    match text.split_once(' ') {
        Some((number, behind)) => Ok((number_of(number)?, behind)),
        None => Err(Why::Says("a number and a text belong here")),
    }
}

fn push_copies(out: &mut Vec<u8>, piece: &[u8], times: u64) -> Result<(), Why> {
    for _ in 0..times {
        out.extend_from_slice(piece)?;
    }
    Ok(())
}

fn push_repeated(out: &mut Vec<u8>, text: &str) -> Result<(), Why> {
    let (times, behind) = split_number(text)?;
    let piece = unescaped(*out.allocator(), behind)?;
    push_copies(out, &piece, times)
}

/// A number, or what is left of it where a modulus is given.
fn reduced(number: u64, modulus: &str) -> Result<u64, Why> {
    if modulus.is_empty() {
        return Ok(number);
    }
    match number.checked_rem(number_of(modulus)?) {
        Some(left) => Ok(left),
        None => Err(Why::Says("a modulus is 0")),
    }
}

fn push_decimal(out: &mut Vec<u8>, number: u64) -> Result<(), Why> {
    let shown = format!(in *out.allocator(); "{number}")?;
    out.extend_from_slice(shown.as_bytes())?;
    Ok(())
}

// A number in place of `MODULUS}`, and the text behind it.
fn push_piece(out: &mut Vec<u8>, number: u64, piece: &str) -> Result<(), Why> {
    let Some((modulus, behind)) = piece.split_once('}') else {
        return Err(Why::Says("a brace is open"));
    };
    push_decimal(out, reduced(number, modulus)?)?;
    push_escaped(out, behind)
}

// A text with a number in place of each `{}` and `{MODULUS}`.
fn push_numbered(out: &mut Vec<u8>, number: u64, text: &str) -> Result<(), Why> {
    let mut pieces = text.split('{');
    push_escaped(out, pieces.next().unwrap_or(""))?;
    for piece in pieces {
        push_piece(out, number, piece)?;
    }
    Ok(())
}

fn push_counted(out: &mut Vec<u8>, text: &str) -> Result<(), Why> {
    let (times, behind) = split_number(text)?;
    for before in 0..times {
        push_numbered(out, before + 1, behind)?;
    }
    Ok(())
}

fn shared<'a>(texts: &'a [File], name: &str) -> Result<&'a [u8], Why> {
    match bytes_of(texts, name) {
        Some(bytes) => Ok(bytes),
        None => Err(Why::Says("no text has this name")),
    }
}

fn push_shared(texts: &[File], out: &mut Vec<u8>, name: &str) -> Result<(), Why> {
    out.extend_from_slice(shared(texts, name)?)?;
    Ok(())
}

fn push_ended(out: &mut Vec<u8>, text: &str) -> Result<(), Why> {
    push_escaped(out, text)?;
    out.push(b'\n')?;
    Ok(())
}

/// Whether a line is one of a text, by its first word.
pub(crate) fn is_of_text(word: &str) -> bool {
    matches!(word, "|" | ">" | "repeat" | "count" | "use")
}

// Pushes what a line of a text says.
fn push_line(texts: &[File], out: &mut Vec<u8>, line: &Line<'_>) -> Result<(), Why> {
    if line.word == "|" {
        return push_ended(out, line.rest);
    }
    if line.rest.is_empty() {
        return Err(Why::Says("a line of a text has none"));
    }
    match line.word {
        ">" => push_escaped(out, line.rest),
        "repeat" => push_repeated(out, line.rest),
        "count" => push_counted(out, line.rest),
        _ => push_shared(texts, out, line.rest),
    }
}

fn own_text(alloc: Global, texts: &[File], block: &Block<'_>) -> Result<Vec<u8>, Why> {
    let mut bytes = Vec::new(alloc);
    for line in block.text {
        push_line(texts, &mut bytes, line)?;
    }
    Ok(bytes)
}

/// Refuses a text below a heading that takes none.
pub(crate) fn refuse_text(block: &Block<'_>) -> Result<(), Why> {
    if block.text.is_empty() {
        Ok(())
    } else {
        Err(Why::Says("no text belongs below this line"))
    }
}

/// The text below a heading, or the shared one that it names.
pub(crate) fn text_of(
    alloc: Global,
    texts: &[File],
    block: &Block<'_>,
    name: Option<&str>,
) -> Result<Vec<u8>, Why> {
    let Some(name) = name else {
        return own_text(alloc, texts, block);
    };
    refuse_text(block)?;
    let bytes = shared(texts, name)?;
    Ok(bytes.to_vec(alloc)?)
}
