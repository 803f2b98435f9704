//! The same inputs in several cycles, and streams of them.

ghost use Rattle.std.specs.Prelude.{◌≡◌, ◌<◌, ◌^◌, length};
ghost use Rattle.sap_stream.specs.Spans.{IsCount, cycles_of};

use crate::inputs::Inputs;
use std::marker::Model;

/// The same inputs in each of 1 to 65,535 cycles.
#[derive(Debug, Drop)]
pub struct Span {
    inputs: Inputs,
    count: u32,
}

impl Model for Span {
    ghost use Rattle.sap_stream.specs.Spans.{IsCount, Span as Repeated};

    ghost Value = { Repeated };

    ghost view = { λ s. record { inputs = s.inputs; count = s.count } };

    ghost invariant = { λ s. IsCount s.count };
}

impl Span {
    pub fn new(inputs: Inputs, count: u32) -> Span
        requires { IsCount count }
        ensures inputs { result.inputs ≡ inputs }
        ensures count { result.count ≡ count }
    {
        Span { inputs, count }
    }

    /// What each input gets.
    pub fn inputs(&self) -> &Inputs
        ensures { result.now ≡ self.now.inputs }
    {
        &self.inputs
    }

    /// For how many cycles.
    pub fn count(&self) -> u32
        ensures number { result ≡ self.now.count }
        ensures within { IsCount self.now.count }
    {
        self.count
    }
}

/// The inputs of each cycle, from the first on; there are fewer than 2^48. Cycles with the same inputs take the memory of
/// one.
#[derive(Debug, Drop)]
pub struct Stream {
    spans: Vec<Span>,
}

impl Model for Stream {
    ghost use Rattle.std.specs.Prelude.{List, ◌<◌, ◌^◌, length};
    ghost use Rattle.sap_meaning.specs.Cycle.{Tagged as Given};
    ghost use Rattle.sap_stream.specs.Spans.{cycles_of};

    ghost Value = { List (List Given) };

    ghost view = { λ s. cycles_of s.spans.items };

    ghost invariant = { λ s. length (cycles_of s.spans.items) < 2 ^ 48 };
}

impl Stream {
    pub fn new(spans: Vec<Span>) -> Stream
        requires few { length (cycles_of spans.items) < 2 ^ 48 }
        ensures { result ≡ cycles_of spans.items }
    {
        Stream { spans }
    }

    pub fn spans(&self) -> &[Span]
        ensures { cycles_of result.now ≡ self.now }
    {
        self.spans.as_slice()
    }

    /// How many cycles there are.
    pub fn cycles(&self) -> u64
        ensures number { result ≡ length self.now }
        ensures few { length self.now < 2 ^ 48 }
    {
        let mut cycles = 0;
        for span in &self.spans {
            cycles += u64::from(span.count());
        }
        cycles
    }
}
