// Why a system file gives no system.

use std::alloc::AllocError;
use std::error::Error;
use std::fmt;

/// A rule on a system file.
#[derive(Clone, Copy, Debug, PartialEq, Eq)]
pub enum SysCode {
    /// The bytes are no TOML document.
    K1,
    /// The document is not of two keys, `parts` with an array of arrays of two strings, and `wires` with an array of
    /// arrays of two or three strings.
    K2,
    /// There are not 1 to `MOST_PARTS` parts.
    K3,
    /// A part's name is no name of the design language, too long, a keyword, has `_`, or stands earlier.
    K4,
}

/// Why a system file gives no system.
#[derive(Clone, Copy, Debug, PartialEq, Eq)]
pub enum SysFault {
    /// The first rule that the file breaks, and a number: of K3 how many parts there are, of K4 the part, from 1, and
    /// else 0.
    Rule(SysCode, usize),
    /// Want of memory.
    Memory,
}

impl From<AllocError> for SysFault {
    ghost use Rattle.std.specs.Prelude.{◌≡◌};
    ghost use Rattle.sap_system.specs.declared.fault.SysFault.TheVariants.{Memory};

    ghost from_gives = { λ _ fault. fault ≡ Memory };

    fn from(_error: AllocError) -> SysFault {
        SysFault::Memory
    }
}

impl fmt::Display for SysFault {
    ghost use Rattle.std.specs.Prelude.{Some};
    ghost use Rattle.sap_system.specs.FaultTexts.{system_text};

    ghost output = { λ fault. Some (system_text fault) };

    fn fmt<W: fmt::Write>(&self, f: &mut fmt::Formatter<W>) -> fmt::Result {
        match self {
            SysFault::Rule(SysCode::K1, _) => f.write_str("K1"),
            SysFault::Rule(SysCode::K2, _) => f.write_str("K2"),
            SysFault::Rule(SysCode::K3, count) => write!(f, "K3 {count}"),
            SysFault::Rule(SysCode::K4, part) => write!(f, "K4 {part}"),
            SysFault::Memory => f.write_str("memory"),
        }
    }
}

impl Error for SysFault {}
