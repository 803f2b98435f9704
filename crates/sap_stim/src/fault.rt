//! Why a line is refused.

ghost use Rattle.std.specs.Prelude.{◌≡◌};
ghost use Rattle.sap_stim.specs.Code.{number};

use std::error::Error;
use std::fmt;

/// Why a line is refused.
#[derive(Clone, Copy, Debug, PartialEq, Eq)]
pub enum StimCode {
    /// The line is too long, or a field isn't of the form.
    S1,
    /// A value isn't below 2 to the field's width.
    S2,
    /// A level isn't one of the lattice.
    S3,
    /// The line has too few or too many fields.
    S4,
    /// The last line has no LF.
    S5,
    /// The count isn't `*` and 1 to 5 decimal digits with a number from 1 to 65,535.
    S6,
}

/// The first line that is refused, from 1, and why.
#[derive(Clone, Copy, Debug, PartialEq, Eq)]
pub struct StimFault {
    pub line: u64,
    pub code: StimCode,
}

impl StimCode {
    /// The number of the code.
    pub fn number(self) -> u8
        ensures { result ≡ number self }
    {
        match self {
            StimCode::S1 => 1,
            StimCode::S2 => 2,
            StimCode::S3 => 3,
            StimCode::S4 => 4,
            StimCode::S5 => 5,
            StimCode::S6 => 6,
        }
    }
}

impl fmt::Display for StimFault {
    ghost use Rattle.std.specs.Prelude.{Some};
    ghost use Rattle.sap_stim.specs.FaultTexts.{stimulus_text};

    ghost output = { λ fault. Some (stimulus_text fault) };

    fn fmt<W: fmt::Write>(&self, f: &mut fmt::Formatter<W>) -> fmt::Result {
        let (line, number) = (self.line, self.code.number());
        write!(f, "S{number} line {line}")
    }
}

impl Error for StimFault {}
