//! Why a text is no module.

ghost use Rattle.std.specs.Prelude.{◌≡◌};
ghost use Rattle.sap_vread.specs.Codes.{code_of, number};
ghost use Rattle.sap_vread.specs.declared.fault.ModFault.TheVariants.{Memory};

use crate::place::Place;
use sap_vjudge::code::Code;
use std::alloc::AllocError;
use std::error::Error;
use std::fmt;

/// The code of a module fault.
#[derive(Clone, Copy, Debug)]
pub enum ModCode {
    /// A byte that begins no token, or a number that is none.
    V1,
    /// A token that cannot follow, or the end of the text where it cannot end.
    V2,
    /// Declared or set a second time.
    V3,
    /// Used without being declared or assigned before.
    V4,
    /// Numbers and widths.
    V5,
    /// A wire that is never assigned, or a register or memory that lacks its `initial` or its `always`.
    V6,
    /// Memories, and names used as another kind.
    V7,
}

impl ModCode {
    /// The number of the code.
    pub fn number(self) -> u8
        ensures { result ≡ number self }
    {
        match self {
            ModCode::V1 => 1,
            ModCode::V2 => 2,
            ModCode::V3 => 3,
            ModCode::V4 => 4,
            ModCode::V5 => 5,
            ModCode::V6 => 6,
            ModCode::V7 => 7,
        }
    }
}

/// The code of a fault of a text's file.
pub(crate) fn code_of(code: Code) -> ModCode
    ensures { result ≡ code_of code }
{
    match code {
        Code::V3 => ModCode::V3,
        Code::V4 => ModCode::V4,
        Code::V5 => ModCode::V5,
        Code::V6 => ModCode::V6,
        Code::V7 => ModCode::V7,
    }
}

/// Why a text is not read.
#[derive(Clone, Copy, Debug)]
pub enum ModFault {
    /// The fault of the text.
    Rule(ModCode, Place),
    /// Want of memory.
    Memory,
}

impl From<AllocError> for ModFault {
    ghost from_gives = { λ _ fault. fault ≡ Memory };

    fn from(_error: AllocError) -> ModFault {
        ModFault::Memory
    }
}

impl fmt::Display for ModFault {
    ghost use Rattle.std.specs.Prelude.{Some};
    ghost use Rattle.sap_vread.specs.FaultTexts.{module_text};

    ghost output = { λ fault. Some (module_text fault) };

    fn fmt<W: fmt::Write>(&self, f: &mut fmt::Formatter<W>) -> fmt::Result {
        match self {
            ModFault::Rule(code, place) => {
                let number = code.number();
                write!(f, "V{number} {place}")
            }
            ModFault::Memory => f.write_str("memory"),
        }
    }
}

impl Error for ModFault {}
