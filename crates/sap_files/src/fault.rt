//! Why the text of a design gives no module, no run and no report.

use sap_lex::fault::ReadFault;
use sap_names::fault::CheckFault;
use std::fmt;

/// The first fault of the text of a design over a lattice; never want of memory.
#[derive(Drop)]
pub enum DesignFault {
    /// The text is no design within the limits.
    Read(ReadFault),
    /// The design isn't well formed.
    Check(CheckFault),
}

impl fmt::Display for DesignFault {
    ghost use Rattle.std.specs.Prelude.{Some};
    ghost use Rattle.sap_files.specs.Ending.{design_text};

    ghost output = { λ fault. Some (design_text fault) };

    fn fmt<W: fmt::Write>(&self, f: &mut fmt::Formatter<W>) -> fmt::Result {
        match self {
            DesignFault::Read(fault) => write!(f, "{fault}"),
            DesignFault::Check(fault) => write!(f, "{fault}"),
        }
    }
}
