//! Why assembly is refused.

/// Why a line is refused.
#[derive(Clone, Copy, Debug, PartialEq, Eq)]
pub enum AsmCode {
    /// The line isn't of the form.
    B1,
    /// The number is larger than the instruction takes.
    B2,
    /// It is the seventeenth line or a later one.
    B3,
    /// The last line has no LF.
    B4,
}

/// The first line that is refused, from 1, and why.
#[derive(Clone, Copy, Debug, PartialEq, Eq)]
pub struct AsmFault {
    pub line: u64,
    pub code: AsmCode,
}
