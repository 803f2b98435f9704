//! The lines of a table: headings, and below them lines of text.

use crate::refusal::{Refusal, Why};
use crate::texts::is_of_text;
use std::alloc::Global;

/// A line that says something: its number, its first word and what follows that.
#[derive(Clone, Copy)]
pub(crate) struct Line<'a> {
    pub number: u64,
    pub word: &'a str,
    pub rest: &'a str,
    pub is_text: bool,
}

/// A heading with the lines of text below it.
#[derive(Clone, Copy)]
pub(crate) struct Block<'a> {
    pub heading: Line<'a>,
    pub text: &'a [Line<'a>],
}

// A heading is open for lines of text until a blank line.
#[derive(Drop)]
struct Lines<'a> {
    lines: Vec<Line<'a>>,
    is_open: bool,
}

/// The first word of a text, and what stands behind the blank after it.
pub(crate) fn first_word(text: &str) -> (&str, &str) {
    text.split_once(' ').unwrap_or((text, ""))
}

fn line_of(number: u64, text: &str, is_open: bool) -> Result<Line<'_>, Why> {
    if text.ends_with(' ') || text.ends_with('\t') {
        return Err(Why::Says("a blank ends the line"));
    }
    let (word, rest) = first_word(text);
    let is_text = is_of_text(word);
    if is_text && !is_open {
        return Err(Why::Says("a line of a text stands below no heading"));
    }
    Ok(Line {
        number,
        word,
        rest,
        is_text,
    })
}

impl<'a> Lines<'a> {
    fn take(&mut self, number: u64, text: &'a str) -> Result<(), Why> {
        if text.starts_with('#') {
            return Ok(());
        }
        self.is_open = if text.is_empty() {
            false
        } else {
            self.lines.push(line_of(number, text, self.is_open)?)?;
            true
        };
        Ok(())
    }
}

/// The lines of a table that say something, in order.
pub(crate) fn lines_of(alloc: Global, table: &str) -> Result<Vec<Line<'_>>, Refusal> {
    let mut lines = Lines {
        lines: Vec::new(alloc),
        is_open: false,
    };
    let mut number = 0u64;
    for text in table.lines() {
        number = number.saturating_add(1);
        if let Err(why) = lines.take(number, text) {
            return Err(Refusal { line: number, why });
        }
    }
    Ok(lines.lines)
}

/// The lines of text that these begin with.
pub(crate) fn text_before<'a>(lines: &'a [Line<'a>]) -> &'a [Line<'a>] {
    for (place, line) in lines.iter().enumerate() {
        if !line.is_text {
            return &lines[..place];
        }
    }
    lines
}
