// Which rule the wires of a system break.

use std::alloc::AllocError;
use std::error::Error;
use std::fmt;

/// A rule on a wire.
#[derive(Clone, Copy, Debug, PartialEq, Eq)]
pub enum LinkCode {
    /// The first text names no register of a part.
    K5,
    /// The second text names no input of a part.
    K6,
    /// An earlier wire feeds that input.
    K7,
    /// The register and the input differ in width.
    K8,
    /// The third text is no level.
    K9,
}

/// Why wires link no parts.
#[derive(Clone, Copy, Debug, PartialEq, Eq)]
pub enum LinkFault {
    /// The first rule that a wire breaks, and the wire, from 1.
    Rule(LinkCode, usize),
    /// Want of memory.
    Memory,
}

impl From<AllocError> for LinkFault {
    ghost use Rattle.std.specs.Prelude.{◌≡◌};
    ghost use Rattle.sap_system.specs.declared.link_fault.LinkFault.TheVariants.{Memory};

    ghost from_gives = { λ _ fault. fault ≡ Memory };

    fn from(_error: AllocError) -> LinkFault {
        LinkFault::Memory
    }
}

impl fmt::Display for LinkFault {
    ghost use Rattle.std.specs.Prelude.{Some};
    ghost use Rattle.sap_system.specs.FaultTexts.{wire_text};

    ghost output = { λ fault. Some (wire_text fault) };

    fn fmt<W: fmt::Write>(&self, f: &mut fmt::Formatter<W>) -> fmt::Result {
        match self {
            LinkFault::Rule(LinkCode::K5, wire) => write!(f, "K5 {wire}"),
            LinkFault::Rule(LinkCode::K6, wire) => write!(f, "K6 {wire}"),
            LinkFault::Rule(LinkCode::K7, wire) => write!(f, "K7 {wire}"),
            LinkFault::Rule(LinkCode::K8, wire) => write!(f, "K8 {wire}"),
            LinkFault::Rule(LinkCode::K9, wire) => write!(f, "K9 {wire}"),
            LinkFault::Memory => f.write_str("memory"),
        }
    }
}

impl Error for LinkFault {}
