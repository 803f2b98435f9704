//! Why a text is not read.

use crate::limit::Limit;
use sap_tree::place::Place;
use std::alloc::{AllocError, AllocFailed};
use std::error::Error;
use std::fmt;

/// Why a text is not read.
#[derive(Debug, Drop)]
pub enum ReadFault {
    /// A byte that begins no token, or a number that is none.
    E1(Place),
    /// A token that cannot follow, or the end of the text where it cannot end.
    E2(Place),
    /// A token that goes over a limit.
    E18(Place, Limit),
    Memory,
}

impl<T: Drop> From<AllocFailed<T>> for ReadFault {
    ghost use Rattle.std.specs.Prelude.{◌≡◌};
    ghost use Rattle.sap_lex.specs.declared.fault.ReadFault.TheVariants.{Memory};

    ghost from_gives = { λ _ e. e ≡ Memory };

    fn from(_: AllocFailed<T>) -> ReadFault {
        ReadFault::Memory
    }
}

impl From<AllocError> for ReadFault {
    ghost use Rattle.std.specs.Prelude.{◌≡◌};
    ghost use Rattle.sap_lex.specs.declared.fault.ReadFault.TheVariants.{Memory};

    ghost from_gives = { λ _ e. e ≡ Memory };

    fn from(_: AllocError) -> ReadFault {
        ReadFault::Memory
    }
}

impl fmt::Display for ReadFault {
    ghost use Rattle.std.specs.Prelude.{Some};
    ghost use Rattle.sap_lex.specs.FaultTexts.{read_text};

    ghost output = { λ fault. Some (read_text fault) };

    fn fmt<W: fmt::Write>(&self, f: &mut fmt::Formatter<W>) -> fmt::Result {
        match self {
            ReadFault::E1(place) => write!(f, "E1 {place}"),
            ReadFault::E2(place) => write!(f, "E2 {place}"),
            ReadFault::E18(place, limit) => write!(f, "E18 {place} {limit}"),
            ReadFault::Memory => f.write_str("memory"),
        }
    }
}

impl Error for ReadFault {}
