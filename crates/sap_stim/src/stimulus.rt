//! Stimulus files.

ghost use Rattle.std.specs.Prelude.{◌≡◌, ◌<◌, ◌+◌, ◌^◌, All, IfOk, length};
ghost use Rattle.sap_stream.specs.Spans.{cycles_of};
ghost use Rattle.sap_stim.specs.Line.{IsSized};
ghost use Rattle.sap_stim.specs.Stimulus.{stimulus_of};

use crate::fault::{StimCode, StimFault};
use crate::field::Fields;
use crate::line::read_line;
use crate::text::cut;
use sap_lattice::lattice::Lattice;
use sap_stream::span::{Span, Stream};
use std::alloc::{AllocError, Global};

/// What a stimulus file gives: the cycles of the lines before the first that is refused, and that one, where there
/// is one.
#[derive(Debug, Drop)]
pub struct Parsed {
    pub stream: Stream,
    pub fault: Option<StimFault>,
}

/// These lines, and the next one refused.
fn refused(spans: Vec<Span>, code: StimCode) -> Parsed
    requires lines { length spans.items + 1 < 2 ^ 64 }
    requires few { length (cycles_of spans.items) < 2 ^ 48 }
    ensures stream { result.stream ≡ cycles_of spans.items }
    ensures fault { result.fault ≡ Some (record { line = length spans.items + 1; code = code }) }
{
    let line = spans.len() as u64 + 1;
    Parsed {
        stream: Stream::new(spans),
        fault: Some(StimFault { line, code }),
    }
}

/// What the bytes of a stimulus file give, with these fields in each line.
pub fn parse_stream(
    alloc: Global,
    bytes: &[u8],
    fields: &Fields,
    lattice: &Lattice,
) -> Result<Parsed, AllocError>
    requires widths { All IsSized fields.now }
    requires short { length bytes.now < 2 ^ 32 }
    ensures read { IfOk result (λ parsed. parsed ≡ stimulus_of lattice.now fields.now bytes.now) }
{
    let fields = fields.as_slice();
    let mut spans: Vec<Span> = Vec::new(alloc);
    let mut rest = bytes;
    while !rest.is_empty() {
        let (line, behind) = cut(rest, b'\n');
        let ended = line.len() < rest.len();
        match read_line(alloc, line, ended, fields, lattice)? {
            Ok(span) => spans.push(span)?,
            Err(code) => return Ok(refused(spans, code)),
        }
        rest = behind;
    }
    Ok(Parsed {
        stream: Stream::new(spans),
        fault: None,
    })
}
