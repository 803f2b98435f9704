//! What expressions show.

ghost use Rattle.std.specs.Prelude.{◌≡◌};
ghost use Rattle.sap_meaning.specs.Expressions as expressions;
ghost use Rattle.sap_program.specs.Views as views;
ghost use Rattle.sap_store.specs.Able.{AbleLevel, AbleTerm};
ghost use Rattle.sap_store.specs.Code.{store_in, world_in};
ghost use Rattle.sap_store.specs.Kept.{Ready};

use crate::entries::{own, start_cell};
use crate::environment::Environment;
use crate::store::Store;
use sap_bits::{apply1, apply2, concat, slice};
use sap_lattice::level::Level;
use sap_program::program::{Number, TagOf};
use sap_program::widths::{one_width, two_width};

/// What an expression shows: its width, its number and its level.
#[derive(Clone, Copy)]
pub struct Seen {
    pub width: u32,
    pub number: u64,
    pub level: Level,
}

/// An expression. Memories are read as the cycle began.
#[tactic(auto, using(crate::proofs::Widths::terms))]
pub fn see(environment: &Environment<'_>, store: &Store, e: &Number) -> Seen
    requires ready { Ready (world_in environment.now) store.now }
    requires able { AbleTerm (world_in environment.now) (views.term_of e.now) }
    ensures width { result.width ≡ expressions.width_of (world_in environment.now) (views.term_of e.now) }
    ensures number { result.number ≡ expressions.value (world_in environment.now) (views.term_of e.now) (store_in environment.now store.now) }
    ensures level { result.level ≡ expressions.tag (world_in environment.now) (views.term_of e.now) (store_in environment.now store.now) }
{
    let lattice = environment.lattice;
    match e {
        Number::Constant { width, value } => Seen {
            width: *width as u32,
            number: *value,
            level: lattice.bottom(),
        },
        Number::Read(x) => {
            let cell = own(environment, store, *x);
            Seen {
                width: environment.program.width(*x) as u32,
                number: cell.number,
                level: cell.level,
            }
        }
        Number::Cell { memory, index } => {
            let index = see(environment, store, index);
            let cell = start_cell(environment, store, *memory, index.number);
            Seen {
                width: environment.program.width(*memory) as u32,
                number: cell.number,
                level: lattice.join(index.level, cell.level),
            }
        }
        Number::One(op, a) => {
            let a = see(environment, store, a);
            Seen {
                width: one_width(*op, a.width),
                number: apply1(*op, a.width, a.number),
                level: a.level,
            }
        }
        Number::Two(op, a, b) => {
            let a = see(environment, store, a);
            let b = see(environment, store, b);
            Seen {
                width: two_width(*op, a.width),
                number: apply2(*op, a.width, a.number, b.number),
                level: lattice.join(a.level, b.level),
            }
        }
        Number::Choose(c, a, b) => {
            let c = see(environment, store, c);
            let a = see(environment, store, a);
            let b = see(environment, store, b);
            Seen {
                width: a.width,
                number: if c.number == 0 { b.number } else { a.number },
                level: lattice.join(c.level, lattice.join(a.level, b.level)),
            }
        }
        Number::Join(a, b) => {
            let a = see(environment, store, a);
            let b = see(environment, store, b);
            Seen {
                width: a.width + b.width,
                number: concat(a.number, b.width, b.number),
                level: lattice.join(a.level, b.level),
            }
        }
        Number::Part { of, hi, lo } => {
            let of = see(environment, store, of);
            let hi = *hi as u32;
            let lo = *lo as u32;
            Seen {
                width: hi + 1 - lo,
                number: slice(of.number, hi, lo),
                level: of.level,
            }
        }
    }
}

/// The level that a tag expression gives.
pub fn new_level(environment: &Environment<'_>, store: &Store, n: &TagOf) -> Level
    requires ready { Ready (world_in environment.now) store.now }
    requires able { AbleLevel (world_in environment.now) (views.level_of n.now) }
    ensures { result ≡ expressions.new_level (world_in environment.now) (views.level_of n.now) (store_in environment.now store.now) }
{
    match n {
        TagOf::Fixed(level) => *level,
        TagOf::Of(e) => see(environment, store, e).level,
        TagOf::AtPlace(e) => {
            let _ = environment.lattice.count();
            environment
                .lattice
                .level_at(see(environment, store, e).number)
        }
        TagOf::Both(a, b) => {
            let a = new_level(environment, store, a);
            let b = new_level(environment, store, b);
            environment.lattice.join(a, b)
        }
    }
}

/// The level of what a tag expression tells.
pub fn told(environment: &Environment<'_>, store: &Store, n: &TagOf) -> Level
    requires ready { Ready (world_in environment.now) store.now }
    requires able { AbleLevel (world_in environment.now) (views.level_of n.now) }
    ensures { result ≡ expressions.told (world_in environment.now) (views.level_of n.now) (store_in environment.now store.now) }
{
    match n {
        TagOf::Fixed(_) => environment.lattice.bottom(),
        TagOf::Of(e) => see(environment, store, e).level,
        TagOf::AtPlace(e) => see(environment, store, e).level,
        TagOf::Both(a, b) => {
            let a = told(environment, store, a);
            let b = told(environment, store, b);
            environment.lattice.join(a, b)
        }
    }
}
