// Why a lattice file gives no lattice.

use sap_lattice::LatFault;
use std::alloc::AllocError;
use std::error::Error;
use std::fmt;

/// Why a lattice file gives no lattice: the first rule that it breaks.
#[derive(Debug, Drop)]
pub enum LatFileFault {
    /// L1: the bytes are no TOML document.
    NotToml,
    /// L2: the document is not of two keys, `levels` with an array of strings, and `below` with an
    /// array of arrays of two strings.
    Shape,
    /// L3 to L8: a rule on the names and the pairs, never want of memory.
    Rule(LatFault),
    /// Want of memory.
    Memory,
}

impl From<AllocError> for LatFileFault {
    ghost use Rattle.std.specs.Prelude.{◌≡◌};
    ghost use Rattle.sap_latfile.specs.declared.fault.LatFileFault.TheVariants.{Memory};

    ghost from_gives = { λ _ fault. fault ≡ Memory };

    fn from(_error: AllocError) -> LatFileFault {
        LatFileFault::Memory
    }
}

impl From<LatFault> for LatFileFault {
    ghost use Rattle.std.specs.Prelude.{◌≡◌};
    ghost use Rattle.sap_latfile.specs.Wrapped.{wrapped};

    ghost from_gives = { λ rule fault. fault ≡ wrapped rule };

    fn from(rule: LatFault) -> LatFileFault {
        match rule {
            LatFault::Memory => LatFileFault::Memory,
            rule => LatFileFault::Rule(rule),
        }
    }
}

impl fmt::Display for LatFileFault {
    ghost use Rattle.std.specs.Prelude.{Some};
    ghost use Rattle.sap_latfile.specs.FaultTexts.{lattice_text};

    ghost output = { λ fault. Some (lattice_text fault) };

    fn fmt<W: fmt::Write>(&self, f: &mut fmt::Formatter<W>) -> fmt::Result {
        match self {
            LatFileFault::NotToml => f.write_str("L1"),
            LatFileFault::Shape => f.write_str("L2"),
            LatFileFault::Rule(fault) => write!(f, "{fault}"),
            LatFileFault::Memory => f.write_str("memory"),
        }
    }
}

impl Error for LatFileFault {}
