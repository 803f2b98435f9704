//! Why a table is refused.

use std::alloc::{AllocError, AllocFailed};

/// What a table does wrong, or that there is no memory.
#[derive(Clone, Copy)]
pub enum Why {
    Says(&'static str),
    Memory,
}

impl From<AllocError> for Why {
    ghost use Rattle.std.specs.Prelude.{◌≡◌};
    ghost use Rattle.sap_rows.specs.declared.refusal.Why.TheVariants.{Memory};

    ghost from_gives = { λ _ why. why ≡ Memory };

    fn from(_: AllocError) -> Self {
        Why::Memory
    }
}

impl<T: Drop> From<AllocFailed<T>> for Why {
    ghost use Rattle.std.specs.Prelude.{◌≡◌};
    ghost use Rattle.sap_rows.specs.declared.refusal.Why.TheVariants.{Memory};

    ghost from_gives = { λ _ why. why ≡ Memory };

    fn from(_: AllocFailed<T>) -> Self {
        Why::Memory
    }
}

/// The line that is refused, and why.
#[derive(Clone, Copy)]
pub struct Refusal {
    pub line: u64,
    pub why: Why,
}
