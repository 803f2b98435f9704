//! Faults.

ghost use Rattle.std.specs.Prelude.{◌≡◌};
ghost use Rattle.sap_vjudge.specs.declared.fault.JudgeFault.TheVariants.{Memory};
ghost use Rattle.sap_vjudge.specs.Best.{better, best_of, comes_first, fault_if};

use crate::code::Code;
use std::alloc::{AllocError, AllocFailed};

/// A code where it stands: how many bytes of the text stand before it.
#[derive(Clone, Copy)]
pub struct Fault {
    pub code: Code,
    pub place: u64,
}

/// Why a module is not taken.
#[derive(Clone, Copy)]
pub enum JudgeFault {
    /// The first fault, by place and then by code.
    Rule(Code, u64),
    /// Want of memory.
    Memory,
}

impl From<AllocError> for JudgeFault {
    ghost from_gives = { λ _ fault. fault ≡ Memory };

    fn from(_error: AllocError) -> JudgeFault {
        JudgeFault::Memory
    }
}

impl<T: Drop> From<AllocFailed<T>> for JudgeFault {
    ghost from_gives = { λ _ fault. fault ≡ Memory };

    fn from(_error: AllocFailed<T>) -> JudgeFault {
        JudgeFault::Memory
    }
}

fn comes_first(a: &Fault, b: &Fault) -> bool
    ensures { result ≡ comes_first a.now b.now }
{
    a.place < b.place || (a.place == b.place && a.code.number() <= b.code.number())
}

/// The first of the best so far and a fault.
fn better(best: Option<Fault>, fault: Fault) -> Option<Fault>
    ensures { result ≡ better best fault }
{
    match best {
        Some(first) => {
            if comes_first(&first, &fault) {
                Some(first)
            } else {
                Some(fault)
            }
        }
        None => Some(fault),
    }
}

/// Notes a fault where the test holds.
#[tactic(auto, using(crate::proofs::Noting::noting))]
pub(crate) fn note(best: &mut Option<Fault>, test: bool, code: Code, place: u64)
    ensures { best.new ≡ best_of best.old (fault_if test code place) }
{
    if test {
        *best = better(*best, Fault { code, place });
    }
}
