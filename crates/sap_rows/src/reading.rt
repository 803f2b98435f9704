//! A table's text as its rows.

ghost use Rattle.std.specs.Prelude.{◌<◌, IfOk, vec_len};

use crate::blocks::{Block, Line, lines_of, text_before};
use crate::draft::{Draft, file_of, one_name};
use crate::refusal::{Refusal, Why};
use crate::table::{File, Row, Step, push_new};
use std::alloc::Global;
use std::mem;

/// The texts and rows so far. While the last row is open, headings go to its step that begins with the line.
#[derive(Drop)]
struct Reader {
    alloc: Global,
    texts: Vec<File>,
    rows: Vec<Row>,
    is_open: bool,
    line: u64,
    draft: Draft,
}

fn at(line: u64, outcome: Result<(), Why>) -> Result<(), Refusal> {
    match outcome {
        Ok(()) => Ok(()),
        Err(why) => Err(Refusal { line, why }),
    }
}

fn refuse_turns(steps: &[Step]) -> Result<(), Why> {
    for step in steps {
        if steps.len() > 1 && !step.turns.is_empty() {
            return Err(Why::Says("`in_turn` belongs to a row of one call"));
        }
    }
    Ok(())
}

fn has_row(rows: &[Row], name: &str) -> bool {
    for row in rows {
        if row.name.as_str() == name {
            return true;
        }
    }
    false
}

// Pushes a step of the last row.
fn push_step(rows: &mut [Row], step: Step) -> Result<(), Why> {
    if let Some(row) = rows.last_mut() {
        row.steps.push(step)?;
    }
    Ok(())
}

impl Reader {
    fn new(alloc: Global) -> Reader {
        Reader {
            alloc,
            texts: Vec::new(alloc),
            rows: Vec::new(alloc),
            is_open: false,
            line: 0,
            draft: Draft::new(alloc),
        }
    }

    fn end_step(&mut self) -> Result<(), Why> {
        if !self.is_open {
            return Ok(());
        }
        self.draft.refuse_unfinished()?;
        let step = mem::replace(&mut self.draft, Draft::new(self.alloc)).into_step();
        push_step(&mut self.rows, step)
    }

    fn end_row(&mut self) -> Result<(), Why> {
        self.end_step()?;
        self.is_open = false;
        match self.rows.last() {
            Some(row) => refuse_turns(&row.steps),
            None => Ok(()),
        }
    }

    // Ends what a heading with this word doesn't go on.
    fn end_before(&mut self, word: &str) -> Result<(), Refusal> {
        let ended = match word {
            "text" | "row" => self.end_row(),
            "then" => self.end_step(),
            _ => Ok(()),
        };
        at(self.line, ended)
    }

    fn text(&mut self, block: &Block<'_>) -> Result<(), Why> {
        let text = file_of(self.alloc, &self.texts, block)?;
        if text.bytes.is_empty() {
            return Err(Why::Says("a text has no lines"));
        }
        push_new(&mut self.texts, text, "a second text of this name")
    }

    fn row(&mut self, heading: &Line<'_>) -> Result<(), Why> {
        let name = one_name(heading.rest)?;
        if has_row(&self.rows, name) {
            return Err(Why::Says("a second row of this name"));
        }
        let name = String::from_str(self.alloc, name)?;
        let steps = Vec::new(self.alloc);
        self.rows.push(Row { name, steps })?;
        self.is_open = true;
        self.line = heading.number;
        Ok(())
    }

    // A heading within a row.
    fn step(&mut self, block: &Block<'_>) -> Result<(), Why> {
        if !self.is_open {
            return Err(Why::Says("a row or a text has to begin"));
        }
        if block.heading.word == "then" {
            self.line = block.heading.number;
            return Ok(());
        }
        self.draft.take(&self.texts, block)
    }

    fn take(&mut self, block: &Block<'_>) -> Result<(), Refusal> {
        self.end_before(block.heading.word)?;
        let taken = match block.heading.word {
            "text" => self.text(block),
            "row" => self.row(&block.heading),
            _ => self.step(block),
        };
        at(block.heading.number, taken)
    }

    fn read(&mut self, lines: &[Line<'_>]) -> Result<(), Refusal> {
        for (place, line) in lines.iter().enumerate() {
            if !line.is_text {
                let text = text_before(&lines[place + 1..]);
                self.take(&Block {
                    heading: *line,
                    text,
                })?;
            }
        }
        self.end_before("row")
    }
}

fn rows_of(alloc: Global, lines: &[Line<'_>]) -> Result<Vec<Row>, Refusal> {
    let mut reader = Reader::new(alloc);
    reader.read(lines)?;
    Ok(reader.rows)
}

/// The rows of a table's text.
pub fn read_table(alloc: Global, table: &[u8]) -> Result<Vec<Row>, Refusal>
    ensures { IfOk result (λ rows. 0 < vec_len rows) }
{
    let Ok(table) = std::str::from_utf8(table) else {
        return Err(Refusal {
            line: 0,
            why: Why::Says("no text"),
        });
    };
    let lines = lines_of(alloc, table)?;
    let rows = rows_of(alloc, &lines)?;
    if rows.is_empty() {
        return Err(Refusal {
            line: 0,
            why: Why::Says("no rows"),
        });
    }
    Ok(rows)
}
