// The parts of a desk in memory.

/// A file and its name.
#[derive(Drop)]
pub struct StoredFile {
    pub name: String,
    pub bytes: Vec<u8>,
}

/// What a channel is open for.
#[derive(Clone, Copy, PartialEq, Eq)]
pub enum State {
    Closed,
    // where it stands, and where the last read was asked for
    Reading { asked: usize, position: usize },
    Writing,
    Stream,
}

/// A channel. It has a name of its own, so that a closed channel still names its file.
#[derive(Drop)]
pub struct Channel {
    pub state: State,
    pub name: String,
    pub written: Vec<u8>,
    pub given: u64,
}

/// What the last failed call on a file or on channel 1 was about.
#[derive(Drop)]
pub enum Blame {
    Nothing,
    Output,
    FileOf(usize),
    File(String),
}
