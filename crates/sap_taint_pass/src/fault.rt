//! Why a netlist gets no tags.

ghost use Rattle.std.specs.Prelude.{◌≡◌};
ghost use Rattle.sap_taint_pass.specs.declared.fault.TaintFault.TheVariants.{Memory};

use sap_net::parts::Name;
use std::alloc::AllocError;
use std::error::Error;
use std::fmt;

/// Why no netlist with tags is made.
#[derive(Debug, Drop)]
pub enum TaintFault {
    /// The first declared name whose tag's name is taken.
    Clash(Name),
    /// Want of memory.
    Memory,
}

impl From<AllocError> for TaintFault {
    ghost from_gives = { λ _ fault. fault ≡ Memory };

    fn from(_error: AllocError) -> TaintFault {
        TaintFault::Memory
    }
}

impl fmt::Display for TaintFault {
    ghost use Rattle.std.specs.Prelude.{Some};
    ghost use Rattle.sap_taint_pass.specs.FaultTexts.{taint_text};

    ghost output = { λ fault. Some (taint_text fault) };

    fn fmt<W: fmt::Write>(&self, f: &mut fmt::Formatter<W>) -> fmt::Result {
        match self {
            TaintFault::Clash(name) => write!(f, "X1 {name}"),
            TaintFault::Memory => f.write_str("memory"),
        }
    }
}

impl Error for TaintFault {}
