//! Whether two streams agree at a level.

ghost use Rattle.std.specs.Prelude.{◌≡◌, ◌↔◌, ◌<◌, ◌≤◌, IsTrue, MatchOption, drop, length};
ghost use Rattle.sap_lattice.specs.Levels.{order_of};
ghost use Rattle.sap_meaning.specs.Agree.{InputsAgree, StreamsAgree};
ghost use Rattle.sap_stream.specs.Ahead.{cycles_ahead};
ghost use Rattle.sap_stream.specs.Apart.{AreAlike, IsFirst, IsApart, AreOfOneLength};
ghost use Rattle.sap_stream.specs.Spans.{cycles_of};

use crate::inputs::Tagged;
use crate::span::{Span, Stream};
use sap_lattice::lattice::Lattice;
use sap_lattice::level::Level;

/// Where two streams first don't agree.
#[derive(Clone, Copy, Debug, PartialEq, Eq)]
pub enum Apart {
    /// How many cycles each has.
    Lengths(u64, u64),
    /// The cycle, from 1, and the input's place in the order of declaration, from 0.
    At { cycle: u64, input: u64 },
}

fn is_alike(first: Tagged, second: Tagged, level: Level, lattice: &Lattice) -> bool
    ensures { IsTrue result ↔ AreAlike (order_of lattice.now) level first second }
{
    if lattice.le(first.level(), level) {
        first.number() == second.number() && first.level() == second.level()
    } else {
        !lattice.le(second.level(), level)
    }
}

/// The first input that isn't alike in a cycle.
fn first_apart(
    first: &[Tagged],
    second: &[Tagged],
    level: Level,
    lattice: &Lattice,
) -> Option<usize>
    requires { length first.now ≡ length second.now }
    ensures { let o = order_of lattice.now in
        MatchOption result (InputsAgree o level first.now second.now) (λ input. IsFirst o level first.now second.now input) }
{
    for i in 0..first.len() {
        if !is_alike(first[i], second[i], level, lattice) {
            return Some(i);
        }
    }
    None
}

/// A stream from one of its cycles on.
#[derive(Drop)]
struct Ahead<'a> {
    /// What the inputs get in the next cycles.
    inputs: &'a [Tagged],
    /// How many cycles those are.
    left: u32,
    /// The cycles behind them.
    behind: &'a [Span],
}

impl<'a> Ahead<'a> {
    fn new(spans: &'a [Span]) -> Ahead<'a>
        ensures { cycles_ahead result ≡ cycles_of spans.now }
    {
        Ahead {
            inputs: &[],
            left: 0,
            behind: spans,
        }
    }

    /// Takes up the next span, where no cycle is left of the one before.
    fn take_up(&mut self)
        ensures same { cycles_ahead self.new ≡ cycles_ahead self.old }
        ensures some { 0 < length (cycles_ahead self.old) → 0 < self.new.left }
    {
        if self.left == 0
            && let [span, behind @ ..] = self.behind
        {
            self.inputs = span.inputs().values();
            self.left = span.count();
            self.behind = behind;
        }
    }

    /// Goes past cycles that are alike.
    fn skip(&mut self, count: u32)
        requires { count ≤ self.old.left }
        ensures { cycles_ahead self.new ≡ drop count (cycles_ahead self.old) }
    {
        self.left -= count;
    }
}

/// Where two streams of as many cycles first don't agree, span by span.
fn first_cycle_apart(
    first: &Stream,
    second: &Stream,
    level: Level,
    lattice: &Lattice,
) -> Option<Apart>
    requires cycles { length first.now ≡ length second.now }
    requires inputs { AreOfOneLength first.now second.now }
    ensures { let o = order_of lattice.now in
        MatchOption result (StreamsAgree o level first.now second.now) (λ apart. IsApart o level first.now second.now apart) }
{
    let cycles = first.cycles();
    let mut one = Ahead::new(first.spans());
    let mut other = Ahead::new(second.spans());
    let mut cycle = 0;
    while cycle < cycles {
        one.take_up();
        other.take_up();
        if let Some(input) = first_apart(one.inputs, other.inputs, level, lattice) {
            return Some(Apart::At {
                cycle: cycle + 1,
                input: input as u64,
            });
        }
        let alike = one.left.min(other.left);
        one.skip(alike);
        other.skip(alike);
        cycle += u64::from(alike);
    }
    None
}

/// Where two streams first don't agree at a level; `None` where they agree.
pub fn agree(first: &Stream, second: &Stream, level: Level, lattice: &Lattice) -> Option<Apart>
    requires { AreOfOneLength first.now second.now }
    ensures agree { (result ≡ None) ↔ StreamsAgree (order_of lattice.now) level first.now second.now }
    ensures apart { (apart : Apart) → (result ≡ Some apart) ↔ IsApart (order_of lattice.now) level first.now second.now apart }
{
    let cycles = first.cycles();
    let others = second.cycles();
    if cycles != others {
        return Some(Apart::Lengths(cycles, others));
    }
    first_cycle_apart(first, second, level, lattice)
}
