// Why names and pairs give no lattice.

ghost use Rattle.std.specs.Prelude.{◌≡◌};
ghost use Rattle.sap_lattice.specs.declared.fault.LatFault.TheVariants.{Memory};

use crate::name::Name;
use std::alloc::AllocError;
use std::error::Error;
use std::fmt;

/// Why names and pairs give no lattice: the first rule that they break. Positions count from 1.
#[derive(Debug, Drop)]
pub enum LatFault {
    /// L3: there are not 2 to `MOST_LEVELS` levels, but so many.
    Count(usize),
    /// L4: the name at this position is no name, too long, a keyword, or stands earlier.
    Bad(usize),
    /// L5: the pair at this position has a name that is no level.
    UnknownPair(usize),
    /// L6: two levels, each at or below the other.
    Cycle(Name, Name),
    /// L7: two levels without a least upper bound.
    NoJoin(Name, Name),
    /// L8: there is no least level.
    NoLeast,
    /// Want of memory.
    Memory,
}

impl From<AllocError> for LatFault {
    ghost from_gives = { λ _ fault. fault ≡ Memory };

    fn from(_error: AllocError) -> LatFault {
        LatFault::Memory
    }
}

impl fmt::Display for LatFault {
    ghost use Rattle.std.specs.Prelude.{Some};
    ghost use Rattle.sap_lattice.specs.FaultTexts.{rule_text};

    ghost output = { λ fault. Some (rule_text fault) };

    fn fmt<W: fmt::Write>(&self, f: &mut fmt::Formatter<W>) -> fmt::Result {
        match self {
            LatFault::Count(count) => write!(f, "L3 {count}"),
            LatFault::Bad(position) => write!(f, "L4 {position}"),
            LatFault::UnknownPair(position) => write!(f, "L5 {position}"),
            LatFault::Cycle(x, y) => write!(f, "L6 {x} {y}"),
            LatFault::NoJoin(x, y) => write!(f, "L7 {x} {y}"),
            LatFault::NoLeast => f.write_str("L8"),
            LatFault::Memory => f.write_str("memory"),
        }
    }
}

impl Error for LatFault {}
