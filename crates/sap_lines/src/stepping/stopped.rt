//! Why printing ends early.

/// The side on which a call failed.
#[derive(Clone, Copy, Debug, PartialEq, Eq)]
pub enum FailedCall {
    /// A call on the file of the stimulus.
    Input,
    /// A call on the output.
    Output,
}

/// Why printing ends before the end of the stimulus or its refused line.
#[derive(Clone, Copy, Debug, PartialEq, Eq)]
pub enum Stopped {
    /// A call failed.
    Call(FailedCall),
    /// There was no memory.
    Memory,
}
