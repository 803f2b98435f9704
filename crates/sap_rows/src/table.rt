//! Rows of a table: calls over a desk, and what has to come of them.

ghost use Rattle.std.specs.Prelude.{◌≡◌, []};
ghost use Rattle.std.specs.Option.{option_map, unwrap_or};
ghost use Rattle.sap_rows.specs.Runs.{bytes_of, cut_bytes};

use crate::refusal::Why;
use std::alloc::Global;

/// A file of a desk, or a text that several rows share.
#[derive(Drop)]
pub struct File {
    pub name: String,
    pub bytes: Vec<u8>,
}

/// What is called: the top call, or the call for what is asked beside the commands.
#[derive(Clone, Copy)]
pub enum Target {
    TopCall,
    Help,
}

/// What a call answers. The one for the help may leave the words to the other.
#[derive(Clone, Copy, PartialEq, Eq)]
pub enum Answer {
    Status(u8),
    Nothing,
}

/// How what comes is compared with a text.
#[derive(Clone, Copy)]
pub enum Comparison {
    Exactly,
    Beginning,
    Part,
}

/// What a channel has to gain.
#[derive(Drop)]
pub struct Wanted {
    pub text: Vec<u8>,
    pub comparison: Comparison,
}

/// What a file has to be after a call.
#[derive(Clone, Copy)]
pub enum State {
    Exactly,
    Missing,
    /// Something else than before, whatever it is.
    Changed,
    /// A word stands in it at least and at most so many times.
    Words { least: u64, most: u64 },
}

/// A file that a call may leave otherwise than it was: with the bytes of its state, or with the word that is counted.
#[derive(Drop)]
pub struct Held {
    pub file: File,
    pub state: State,
}

/// A call with the files that are put before it.
#[derive(Drop)]
pub struct Step {
    pub files: Vec<File>,
    /// The numbers of the calls on the desk that are to fail.
    pub failing: Vec<u64>,
    pub target: Target,
    pub words: Vec<String>,
    pub answer: Answer,
    pub output: Wanted,
    pub faults: Wanted,
    pub held: Vec<Held>,
    /// The file or channel of each call on the desk, where each is to fail in turn; else empty.
    pub turns: String,
    pub cut: Option<Cut>,
}

/// What comes of a call where only a beginning of a file is there, whatever its length: this answer, and one of these
/// at the head of the line on channel 2. A beginning that is whole comes out as the step says.
#[derive(Drop)]
pub struct Cut {
    pub file: String,
    pub answer: Answer,
    pub lines: Vec<String>,
}

/// Calls one after another over one desk.
#[derive(Drop)]
pub struct Row {
    pub name: String,
    pub steps: Vec<Step>,
}

impl Wanted {
    fn nothing(alloc: Global) -> Wanted {
        Wanted {
            text: Vec::new(alloc),
            comparison: Comparison::Exactly,
        }
    }
}

impl Step {
    /// A call with no words, of which nothing is said.
    pub(crate) fn new(alloc: Global) -> Step {
        Step {
            files: Vec::new(alloc),
            failing: Vec::new(alloc),
            target: Target::TopCall,
            words: Vec::new(alloc),
            answer: Answer::Nothing,
            output: Wanted::nothing(alloc),
            faults: Wanted::nothing(alloc),
            held: Vec::new(alloc),
            turns: String::new(alloc),
            cut: None,
        }
    }

    /// The whole bytes of the file that is cut, where it is put.
    pub(crate) fn cut_bytes(&self) -> Option<&[u8]>
        ensures { unwrap_or (option_map (λ bytes. bytes.now) result) [] ≡ cut_bytes self.now }
    {
        match &self.cut {
            Some(cut) => bytes_of(&self.files, &cut.file),
            None => None,
        }
    }
}

/// The bytes of the first file with a name.
pub fn bytes_of<'a>(files: &'a [File], name: &str) -> Option<&'a [u8]>
    ensures { option_map (λ bytes. bytes.now) result ≡ bytes_of files.now name.now }
{
    match files.iter().find(|file| file.name.as_str() == name) {
        Some(file) => Some(file.bytes.as_slice()),
        None => None,
    }
}

/// Pushes a file whose name none has; else the table says what is wrong.
pub(crate) fn push_new(files: &mut Vec<File>, file: File, wrong: &'static str) -> Result<(), Why> {
    if bytes_of(files, &file.name).is_some() {
        return Err(Why::Says(wrong));
    }
    files.push(file)?;
    Ok(())
}
