//! Why a text is no dump.

ghost use Rattle.std.specs.Prelude.{◌≡◌};
ghost use Rattle.sap_wave.specs.Code.{number};
ghost use Rattle.sap_wave.specs.declared.fault.WaveFault.TheVariants.{Memory};

use std::alloc::{AllocError, AllocFailed};
use std::error::Error;
use std::fmt;

/// What stands at a line.
#[derive(Clone, Copy, Debug, PartialEq, Eq)]
pub enum WaveCode {
    /// The line isn't of a form for its position or has no LF, or the text ends before block 0 begins.
    Y1,
    /// A variable is declared with an identifier that isn't its number's, a width that isn't 1 to 64, or a name that is
    /// none or stands earlier.
    Y2,
    /// A change has an unknown identifier, one not after the one before in its block, or other than the width's digits.
    Y3,
    /// The number of a block isn't the next.
    Y4,
    /// A change after block 0 to the number that stands, or the end of a block 0 that lacks a variable.
    Y5,
}

impl WaveCode {
    /// The number of the code.
    pub fn number(self) -> u8
        ensures { result ≡ number self }
    {
        match self {
            WaveCode::Y1 => 1,
            WaveCode::Y2 => 2,
            WaveCode::Y3 => 3,
            WaveCode::Y4 => 4,
            WaveCode::Y5 => 5,
        }
    }
}

/// Why a text is not read.
#[derive(Clone, Copy, Debug, PartialEq, Eq)]
pub enum WaveFault {
    /// What stands at the first line at which something does, and that line, from 1.
    Rule(WaveCode, u64),
    /// Want of memory.
    Memory,
}

impl From<AllocError> for WaveFault {
    ghost from_gives = { λ _ fault. fault ≡ Memory };

    fn from(_error: AllocError) -> WaveFault {
        WaveFault::Memory
    }
}

impl<T: Drop> From<AllocFailed<T>> for WaveFault {
    ghost from_gives = { λ _ fault. fault ≡ Memory };

    fn from(_error: AllocFailed<T>) -> WaveFault {
        WaveFault::Memory
    }
}

impl fmt::Display for WaveFault {
    ghost use Rattle.std.specs.Prelude.{Some};
    ghost use Rattle.sap_wave.specs.FaultTexts.{wave_text};

    ghost output = { λ fault. Some (wave_text fault) };

    fn fmt<W: fmt::Write>(&self, f: &mut fmt::Formatter<W>) -> fmt::Result {
        match self {
            WaveFault::Rule(code, line) => {
                let number = code.number();
                write!(f, "Y{number} line {line}")
            }
            WaveFault::Memory => f.write_str("memory"),
        }
    }
}

impl Error for WaveFault {}
