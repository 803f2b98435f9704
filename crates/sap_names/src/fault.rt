//! Faults.

ghost use Rattle.std.specs.Prelude.{◌≡◌};
ghost use Rattle.sap_names.specs.Fault.{number};
ghost use Rattle.sap_names.specs.declared.fault.CheckFault.TheVariants.{Memory};
ghost use Rattle.sap_names.specs.Best.{better, best_of, comes_first};
ghost use Rattle.sap_names.specs.NameFaults.{fault_if};

use crate::kind::Code;
use sap_tree::place::Place;
use std::alloc::{AllocError, AllocFailed};
use std::error::Error;
use std::fmt;

/// A fault of a design: its code and its place.
#[derive(Clone, Copy)]
pub struct Fault {
    pub code: Code,
    pub place: Place,
}

/// Why a design is not taken.
#[derive(Clone, Copy, Debug)]
pub enum CheckFault {
    /// The first fault: one of names and widths before one of shape, and of these the first by place, then by code.
    Rule(Code, Place),
    /// Want of memory.
    Memory,
}

impl From<AllocError> for CheckFault {
    ghost from_gives = { λ _ fault. fault ≡ Memory };

    fn from(_error: AllocError) -> CheckFault {
        CheckFault::Memory
    }
}

impl<T: Drop> From<AllocFailed<T>> for CheckFault {
    ghost from_gives = { λ _ fault. fault ≡ Memory };

    fn from(_error: AllocFailed<T>) -> CheckFault {
        CheckFault::Memory
    }
}

impl fmt::Display for CheckFault {
    ghost use Rattle.std.specs.Prelude.{Some};
    ghost use Rattle.sap_names.specs.FaultTexts.{check_text};

    ghost output = { λ fault. Some (check_text fault) };

    fn fmt<W: fmt::Write>(&self, f: &mut fmt::Formatter<W>) -> fmt::Result {
        match self {
            CheckFault::Rule(code, place) => {
                let number = code.number();
                write!(f, "E{number} {place}")
            }
            CheckFault::Memory => f.write_str("memory"),
        }
    }
}

impl Error for CheckFault {}

impl Code {
    /// The number of the code.
    pub fn number(self) -> u8
        ensures { result ≡ number self }
    {
        match self {
            Code::E3 => 3,
            Code::E4 => 4,
            Code::E5 => 5,
            Code::E6 => 6,
            Code::E7 => 7,
            Code::E8 => 8,
            Code::E9 => 9,
            Code::E10 => 10,
            Code::E11 => 11,
            Code::E12 => 12,
            Code::E14 => 14,
            Code::E15 => 15,
            Code::E16 => 16,
            Code::E17 => 17,
        }
    }
}

fn comes_first(a: &Fault, b: &Fault) -> bool
    ensures { result ≡ comes_first a.now b.now }
{
    let one = a.place;
    let other = b.place;
    one.line < other.line
        || (one.line == other.line
            && (one.column < other.column
                || (one.column == other.column && a.code.number() <= b.code.number())))
}

/// The first of the best so far and a fault.
pub fn better(best: Option<Fault>, fault: Fault) -> Option<Fault>
    ensures { result ≡ better best fault }
{
    match best {
        Some(first) => {
            if comes_first(&first, &fault) {
                Some(first)
            } else {
                Some(fault)
            }
        }
        None => Some(fault),
    }
}

/// Notes a fault where the test holds.
#[tactic(auto, using(crate::proofs::Faults::noting))]
pub fn note(best: &mut Option<Fault>, test: bool, code: Code, place: Place)
    ensures { best.new ≡ best_of best.old (fault_if test code place) }
{
    if test {
        *best = better(*best, Fault { code, place });
    }
}
