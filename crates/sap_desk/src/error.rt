ghost use Rattle.std.specs.Prelude.{◌≡◌};
ghost use Rattle.sap_desk.specs.declared.error.DeskError.TheVariants.{Memory, Failed as CallFailed};

use std::alloc::{AllocError, AllocFailed};
use thiserror::Error;

/// A call on a file or a stream failed.
#[derive(Clone, Copy, Debug, PartialEq, Eq, Error)]
#[error("a call on a file or a stream failed")]
pub struct Failed;

/// Why a call that may need memory didn't do its work.
#[derive(Clone, Copy, Debug, PartialEq, Eq, Error)]
pub enum DeskError {
    /// A call on a file or a stream failed.
    #[error("a call on a file or a stream failed")]
    Failed,
    /// There was no memory. Nothing but `sure` changed.
    #[error("out of memory")]
    Memory,
}

impl From<Failed> for DeskError {
    ghost from_gives = { λ _ e. e ≡ CallFailed };

    fn from(_: Failed) -> Self {
        DeskError::Failed
    }
}

impl From<AllocError> for DeskError {
    ghost from_gives = { λ _ e. e ≡ Memory };

    fn from(_: AllocError) -> Self {
        DeskError::Memory
    }
}

impl<T: Drop> From<AllocFailed<T>> for DeskError {
    ghost from_gives = { λ _ e. e ≡ Memory };

    fn from(_: AllocFailed<T>) -> Self {
        DeskError::Memory
    }
}
