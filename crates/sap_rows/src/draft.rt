//! A step as far as its headings are read.

use crate::blocks::{Block, first_word};
use crate::refusal::Why;
use crate::table::{Answer, Comparison, Cut, File, Held, State, Step, Target, Wanted, push_new};
use crate::texts::{number_of, refuse_text, text_of, unescaped};
use std::alloc::Global;
use std::mem;

/// A step, and whether its words and its status are said.
#[derive(Drop)]
pub(crate) struct Draft {
    alloc: Global,
    has_words: bool,
    has_status: bool,
    step: Step,
}

/// A name is one word.
pub(crate) fn one_name(text: &str) -> Result<&str, Why> {
    if text.is_empty() || text.contains(' ') {
        return Err(Why::Says("one name belongs here"));
    }
    Ok(text)
}

fn name_of(alloc: Global, text: &str) -> Result<String, Why> {
    Ok(String::from_str(alloc, one_name(text)?)?)
}

/// A name with the text below it, or with the shared one behind `as`.
pub(crate) fn file_of(alloc: Global, texts: &[File], block: &Block<'_>) -> Result<File, Why> {
    let (name, shared) = match block.heading.rest.split_once(" as ") {
        Some((name, shared)) => (name, Some(shared)),
        None => (block.heading.rest, None),
    };
    let bytes = text_of(alloc, texts, block, shared)?;
    let name = name_of(alloc, name)?;
    Ok(File { name, bytes })
}

// How a text is compared, by what follows `out` or `err`.
fn comparison_of(rest: &str, text: &[u8]) -> Result<Comparison, Why> {
    if text.is_empty() {
        return Err(Why::Says("a text belongs below this line"));
    }
    match rest {
        "" => Ok(Comparison::Exactly),
        "begins" => Ok(Comparison::Beginning),
        "contains" => Ok(Comparison::Part),
        _ if rest.starts_with("as ") => Ok(Comparison::Exactly),
        _ => Err(Why::Says("no way to compare a text")),
    }
}

fn wanted_of(alloc: Global, texts: &[File], block: &Block<'_>) -> Result<Wanted, Why> {
    let rest = block.heading.rest;
    let text = text_of(alloc, texts, block, rest.strip_prefix("as "))?;
    let comparison = comparison_of(rest, &text)?;
    Ok(Wanted { text, comparison })
}

fn word_of(alloc: Global, piece: &str) -> Result<String, Why> {
    if piece.is_empty() {
        return Err(Why::Says("two blanks between words"));
    }
    let escaped = if piece == "\"\"" { "" } else { piece };
    match String::from_utf8(unescaped(alloc, escaped)?) {
        Ok(word) => Ok(word),
        Err(_) => Err(Why::Says("a word is no text")),
    }
}

fn push_word(words: &mut Vec<String>, piece: &str) -> Result<(), Why> {
    let word = word_of(*words.allocator(), piece)?;
    words.push(word)?;
    Ok(())
}

// The words between blanks.
fn words_of(alloc: Global, text: &str) -> Result<Vec<String>, Why> {
    let mut words = Vec::new(alloc);
    if !text.is_empty() {
        for piece in text.split(' ') {
            push_word(&mut words, piece)?;
        }
    }
    Ok(words)
}

fn answer_of(text: &str) -> Result<Answer, Why> {
    if text == "none" {
        return Ok(Answer::Nothing);
    }
    match text.parse::<u8>() {
        Ok(status) => Ok(Answer::Status(status)),
        Err(_) => Err(Why::Says("no status")),
    }
}

// `LEAST MOST WORD`
fn bounds_of(text: &str) -> Result<(State, &str), Why> {
    let (least, behind) = first_word(text);
    let (most, word) = first_word(behind);
    let least = number_of(least)?;
    let most = number_of(most)?;
    let word = one_name(word)?;
    Ok((State::Words { least, most }, word))
}

// `NAME STATUS LINE ..`
fn cut_of(alloc: Global, text: &str) -> Result<Cut, Why> {
    let (file, behind) = first_word(text);
    let (status, lines) = first_word(behind);
    let file = one_name(file)?;
    let answer = answer_of(status)?;
    let lines = words_of(alloc, lines)?;
    let file = String::from_str(alloc, file)?;
    Ok(Cut {
        file,
        answer,
        lines,
    })
}

// What was said before is not said again.
fn refuse_twice(was_said: bool) -> Result<(), Why> {
    if was_said {
        Err(Why::Says("this is said twice"))
    } else {
        Ok(())
    }
}

fn set_wanted(
    alloc: Global,
    wanted: &mut Wanted,
    texts: &[File],
    block: &Block<'_>,
) -> Result<(), Why> {
    let was_said = !wanted.text.is_empty();
    *wanted = wanted_of(alloc, texts, block)?;
    refuse_twice(was_said)
}

impl Draft {
    /// Nothing of a step.
    pub(crate) fn new(alloc: Global) -> Draft {
        Draft {
            alloc,
            has_words: false,
            has_status: false,
            step: Step::new(alloc),
        }
    }

    fn put(&mut self, texts: &[File], block: &Block<'_>) -> Result<(), Why> {
        let file = file_of(self.alloc, texts, block)?;
        push_new(&mut self.step.files, file, "a file is put twice")
    }

    fn hold(&mut self, file: File, state: State) -> Result<(), Why> {
        self.step.held.push(Held { file, state })?;
        Ok(())
    }

    fn hold_file(&mut self, texts: &[File], block: &Block<'_>) -> Result<(), Why> {
        let file = file_of(self.alloc, texts, block)?;
        self.hold(file, State::Exactly)
    }

    fn hold_named(&mut self, name: &str, word: &str, state: State) -> Result<(), Why> {
        let name = name_of(self.alloc, name)?;
        let bytes = word.as_bytes().to_vec(self.alloc)?;
        self.hold(File { name, bytes }, state)
    }

    // `NAME LEAST MOST WORD`
    fn hold_counted(&mut self, text: &str) -> Result<(), Why> {
        let (name, bounds) = first_word(text);
        let name = one_name(name)?;
        let (state, word) = bounds_of(bounds)?;
        self.hold_named(name, word, state)
    }

    fn call(&mut self, target: Target, text: &str) -> Result<(), Why> {
        self.step.target = target;
        self.step.words = words_of(self.alloc, text)?;
        refuse_twice(mem::replace(&mut self.has_words, true))
    }

    fn answer(&mut self, text: &str) -> Result<(), Why> {
        self.step.answer = answer_of(text)?;
        refuse_twice(mem::replace(&mut self.has_status, true))
    }

    fn fail(&mut self, text: &str) -> Result<(), Why> {
        let number = number_of(text)?;
        if number == 0 {
            return Err(Why::Says("calls are counted from 1"));
        }
        self.step.failing.push(number)?;
        Ok(())
    }

    fn turn(&mut self, text: &str) -> Result<(), Why> {
        let was_said = !self.step.turns.is_empty();
        self.step.turns = name_of(self.alloc, text)?;
        refuse_twice(was_said)
    }

    fn cut(&mut self, text: &str) -> Result<(), Why> {
        let was_said = self.step.cut.is_some();
        self.step.cut = Some(cut_of(self.alloc, text)?);
        refuse_twice(was_said)
    }

    // A heading without a text.
    fn plain(&mut self, word: &str, rest: &str) -> Result<(), Why> {
        match word {
            "words" => self.call(Target::TopCall, rest),
            "asks" => self.call(Target::Help, rest),
            "status" => self.answer(rest),
            "fails" => self.fail(rest),
            "missing" => self.hold_named(rest, "", State::Missing),
            "changes" => self.hold_named(rest, "", State::Changed),
            "has" => self.hold_counted(rest),
            "in_turn" => self.turn(rest),
            "cut" => self.cut(rest),
            _ => Err(Why::Says("an unknown word")),
        }
    }

    /// Takes a heading.
    pub(crate) fn take(&mut self, texts: &[File], block: &Block<'_>) -> Result<(), Why> {
        match block.heading.word {
            "file" => self.put(texts, block),
            "holds" => self.hold_file(texts, block),
            "out" => set_wanted(self.alloc, &mut self.step.output, texts, block),
            "err" => set_wanted(self.alloc, &mut self.step.faults, texts, block),
            word => {
                refuse_text(block)?;
                self.plain(word, block.heading.rest)
            }
        }
    }

    /// Refuses a step that isn't said whole.
    pub(crate) fn refuse_unfinished(&self) -> Result<(), Why> {
        if !self.has_words || !self.has_status {
            return Err(Why::Says("the words or the status are missing"));
        }
        if self.step.cut.is_some() && self.step.cut_bytes().is_none() {
            return Err(Why::Says("the file that is cut isn't put"));
        }
        Ok(())
    }

    /// The step as it is said.
    pub(crate) fn into_step(self) -> Step {
        let Draft { step, .. } = self;
        step
    }
}
