//! Why a text is no file.

use std::alloc::{AllocError, AllocFailed};

/// Why a text is not read, with how many of its bytes stand before the place.
#[derive(Debug, Drop)]
pub enum ReadFault {
    /// A byte that begins no token, or a number that is none.
    V1(u64),
    /// A token that cannot follow, or the end of the text where it cannot end.
    V2(u64),
    Memory,
}

impl<T: Drop> From<AllocFailed<T>> for ReadFault {
    ghost use Rattle.std.specs.Prelude.{◌≡◌};
    ghost use Rattle.sap_vlex.specs.declared.fault.ReadFault.TheVariants.{Memory};

    ghost from_gives = { λ _ e. e ≡ Memory };

    fn from(_: AllocFailed<T>) -> ReadFault {
        ReadFault::Memory
    }
}

impl From<AllocError> for ReadFault {
    ghost use Rattle.std.specs.Prelude.{◌≡◌};
    ghost use Rattle.sap_vlex.specs.declared.fault.ReadFault.TheVariants.{Memory};

    ghost from_gives = { λ _ e. e ≡ Memory };

    fn from(_: AllocError) -> ReadFault {
        ReadFault::Memory
    }
}
