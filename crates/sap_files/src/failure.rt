//! Why a command ends without its result.

use crate::fault::DesignFault;
use crate::refusal::Refusal;
use sap_lex::fault::ReadFault;
use sap_names::fault::CheckFault;
use sap_text::name::Name;
use std::alloc::AllocError;

/// Why a command ends without its result.
#[derive(Drop)]
pub enum Failure<'a> {
    Refused(Refusal<'a>),
    /// A call failed on the file of this name, or on the output.
    Desk(&'a str),
    /// A call failed on the file of a part of a system.
    PartFile(Name),
    Memory,
}

impl From<AllocError> for Failure<'_> {
    ghost use Rattle.std.specs.Prelude.{◌≡◌};
    ghost use Rattle.sap_files.specs.declared.failure.Failure.TheVariants.{Memory};

    ghost from_gives = { λ _ e. e ≡ Memory };

    fn from(_: AllocError) -> Self {
        Failure::Memory
    }
}

/// Why a design file gives no design that is well formed over a lattice.
#[derive(Drop)]
pub enum DesignFailure {
    Refused(DesignFault),
    /// A call failed on the file.
    Failed,
    Memory,
}

impl From<ReadFault> for DesignFailure {
    ghost use Rattle.std.specs.Prelude.{◌≡◌};
    ghost use Rattle.sap_files.specs.Designs.{unread};

    ghost from_gives = { λ fault e. e ≡ unread fault };

    fn from(fault: ReadFault) -> Self {
        match fault {
            ReadFault::Memory => DesignFailure::Memory,
            fault => DesignFailure::Refused(DesignFault::Read(fault)),
        }
    }
}

impl From<CheckFault> for DesignFailure {
    ghost use Rattle.std.specs.Prelude.{◌≡◌};
    ghost use Rattle.sap_files.specs.Designs.{unchecked};

    ghost from_gives = { λ fault e. e ≡ unchecked fault };

    fn from(fault: CheckFault) -> Self {
        match fault {
            CheckFault::Memory => DesignFailure::Memory,
            fault => DesignFailure::Refused(DesignFault::Check(fault)),
        }
    }
}

impl From<AllocError> for DesignFailure {
    ghost use Rattle.std.specs.Prelude.{◌≡◌};
    ghost use Rattle.sap_files.specs.declared.failure.DesignFailure.TheVariants.{Memory};

    ghost from_gives = { λ _ e. e ≡ Memory };

    fn from(_: AllocError) -> Self {
        DesignFailure::Memory
    }
}
