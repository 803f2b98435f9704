//! Why the bytes of a lattice file and of a design give no module.

use sap_latfile::LatFileFault;
use sap_lex::fault::ReadFault;
use sap_names::fault::CheckFault;
use std::alloc::AllocError;
use thiserror::Error;

/// The first fault of a lattice file and a design; one that is wrapped is never want of memory.
#[derive(Debug, Error, Drop)]
pub enum CompileFault {
    /// The first rule that the lattice file breaks.
    #[error("lattice: {0}")]
    Lattice(LatFileFault),
    /// The text is no design within the limits.
    #[error("design: {0}")]
    Read(ReadFault),
    /// The design isn't well formed over the lattice.
    #[error("design: {0}")]
    Check(CheckFault),
    #[error("out of memory")]
    Memory,
}

impl From<LatFileFault> for CompileFault {
    ghost use Rattle.std.specs.Prelude.{◌≡◌};
    ghost use Rattle.sap_compile.specs.Failures.{lattice_failure};

    ghost from_gives = { λ fault e. e ≡ lattice_failure fault };

    fn from(fault: LatFileFault) -> CompileFault {
        match fault {
            LatFileFault::Memory => CompileFault::Memory,
            fault => CompileFault::Lattice(fault),
        }
    }
}

impl From<ReadFault> for CompileFault {
    ghost use Rattle.std.specs.Prelude.{◌≡◌};
    ghost use Rattle.sap_compile.specs.Failures.{read_failure};

    ghost from_gives = { λ fault e. e ≡ read_failure fault };

    fn from(fault: ReadFault) -> CompileFault {
        match fault {
            ReadFault::Memory => CompileFault::Memory,
            fault => CompileFault::Read(fault),
        }
    }
}

impl From<CheckFault> for CompileFault {
    ghost use Rattle.std.specs.Prelude.{◌≡◌};
    ghost use Rattle.sap_compile.specs.Failures.{check_failure};

    ghost from_gives = { λ fault e. e ≡ check_failure fault };

    fn from(fault: CheckFault) -> CompileFault {
        match fault {
            CheckFault::Memory => CompileFault::Memory,
            fault => CompileFault::Check(fault),
        }
    }
}

impl From<AllocError> for CompileFault {
    ghost use Rattle.std.specs.Prelude.{◌≡◌};
    ghost use Rattle.sap_compile.specs.declared.fault.CompileFault.TheVariants.{Memory};

    ghost from_gives = { λ _ e. e ≡ Memory };

    fn from(_: AllocError) -> CompileFault {
        CompileFault::Memory
    }
}
