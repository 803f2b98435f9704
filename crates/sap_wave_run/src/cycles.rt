//! The cycles of a stream, one after another.

ghost use Rattle.std.specs.Prelude.{◌≡◌, ◌∷◌, ◌<◌, [], MatchOption, length};
ghost use Rattle.sap_stream.specs.Spans.{cycles_of};
ghost use Rattle.sap_wave_run.specs.Ahead.{cycles_ahead};

use sap_stream::{Span, Tagged};

/// A stream from one of its cycles on.
#[derive(Drop)]
pub struct Cycles<'a> {
    // what the inputs get in the next cycles, and how many those are
    inputs: &'a [Tagged],
    left: u32,
    // the cycles behind them
    behind: &'a [Span],
}

impl<'a> Cycles<'a> {
    pub fn new(spans: &'a [Span]) -> Cycles<'a>
        ensures { cycles_ahead result ≡ cycles_of spans.now }
    {
        Cycles {
            inputs: &[],
            left: 0,
            behind: spans,
        }
    }

    // Takes up the next span, where no cycle is left of the one before.
    fn take_up(&mut self)
        ensures same { cycles_ahead self.new ≡ cycles_ahead self.old }
        ensures some { 0 < length (cycles_ahead self.old) → 0 < self.new.left }
    {
        if self.left == 0
            && let [span, behind @ ..] = self.behind
        {
            self.inputs = span.inputs().values();
            self.left = span.count();
            self.behind = behind;
        }
    }

    /// What the inputs get in the next cycle; none at the end.
    pub fn next(&mut self) -> Option<&'a [Tagged]>
        ensures { MatchOption result (cycles_ahead self.old ≡ []) (λ line. cycles_ahead self.old ≡ line.now ∷ cycles_ahead self.new) }
    {
        self.take_up();
        if self.left == 0 {
            return None;
        }
        self.left -= 1;
        Some(self.inputs)
    }
}
