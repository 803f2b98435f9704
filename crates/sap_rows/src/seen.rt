//! What a call left, and what of it is otherwise than a row says.

use crate::table::{Answer, File, bytes_of};

/// What a call left: its answer, what the channels gained by it, and the files that there are of those that its row names.
#[derive(Drop)]
pub struct Seen {
    pub answer: Answer,
    pub output: Vec<u8>,
    pub faults: Vec<u8>,
    pub files: Vec<File>,
}

/// What came otherwise than a row says, as it came.
#[derive(Clone, Copy)]
pub(crate) enum Came<'a> {
    Answer(Answer, &'a [u8]),
    Output(&'a [u8]),
    Faults(&'a [u8]),
    File(&'a str, Option<&'a [u8]>),
    Words(&'a [u8], u64),
}

impl Seen {
    pub(crate) fn file(&self, name: &str) -> Option<&[u8]> {
        bytes_of(&self.files, name)
    }

    /// What of the answer and of what the channels gained is the first not to be as it has to be.
    pub(crate) fn otherwise(&self, answer: bool, output: bool, faults: bool) -> Option<Came<'_>> {
        if !answer {
            Some(Came::Answer(self.answer, self.faults.as_slice()))
        } else if !output {
            Some(Came::Output(self.output.as_slice()))
        } else if !faults {
            Some(Came::Faults(self.faults.as_slice()))
        } else {
            None
        }
    }
}
