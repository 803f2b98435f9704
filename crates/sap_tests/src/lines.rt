//! A stimulus line by line, where a call fails on its file.

ghost use Rattle.std.specs.Prelude.{◌≢◌};

use crate::given::two;
use sap_desk::{Desk, MemoryDesk};
use sap_lattice::lattice::Lattice;
use sap_lines::{Lines, Next};
use sap_stim::{Field, Fields, StimCode, StimFault};
use std::alloc::{AllocError, Global};

const LINE: &[u8] = b"5@high\n";

/// How many lines the stimulus has: 8,400 bytes, which are read as 4,096, 4,096, 208 and none.
const LINES: usize = 1200;

fn stimulus(alloc: Global) -> Result<Vec<u8>, AllocError> {
    let mut bytes = Vec::new(alloc);
    for _ in 0..LINES {
        bytes.extend_from_slice(LINE)?;
    }
    Ok(bytes)
}

fn is_line(reader: &Lines) -> bool {
    let values = reader.inputs().values();
    reader.count() == 1
        && values.len() == 1
        && values[0].number() == 5
        && values[0].level().place() == 1
}

/// How many lines come before the last answer, which is this one; none where a line is another than said.
fn lines_before(
    desk: &mut MemoryDesk,
    channel: usize,
    reader: &mut Lines,
    lattice: &Lattice,
    last: Next,
) -> Option<usize>
    requires { channel ≢ 2 }
{
    for count in 0..=LINES {
        if !reader.live() {
            return None;
        }
        let next = reader.next(desk, channel, lattice);
        if next == last {
            return if reader.live() { None } else { Some(count) };
        }
        if next != Next::Line || !is_line(reader) {
            return None;
        }
    }
    None
}

/// Reads the stimulus from a desk whose call of this number fails, the first being the one that opens it.
fn read(alloc: Global, failing: u64, last: Next) -> Result<Option<usize>, AllocError> {
    let Some(lattice) = two(alloc) else {
        return Ok(None);
    };
    let mut desk = MemoryDesk::new(alloc, 0)?;
    desk.put_file("stimulus", stimulus(alloc)?.as_slice())?;
    desk.fail_at(failing)?;
    let Ok(channel) = desk.open_in("stimulus") else {
        return Ok(None);
    };
    let fields = Fields::new(vec![in alloc; Field::Tagged(8)]?);
    let mut reader = Lines::new(alloc, &fields)?;
    Ok(lines_before(&mut desk, channel, &mut reader, &lattice, last))
}

/// Whether the second line, which is refused, is told without a second read: the first call opens the file, the second
/// reads all of it, and the third would fail.
fn tells_before_a_second_read(alloc: Global) -> Result<bool, AllocError> {
    let Some(lattice) = two(alloc) else {
        return Ok(false);
    };
    let mut desk = MemoryDesk::new(alloc, 0)?;
    desk.put_file("stimulus", b"5@low\n256@low\n")?;
    desk.fail_at(3)?;
    let Ok(channel) = desk.open_in("stimulus") else {
        return Ok(false);
    };
    let fields = Fields::new(vec![in alloc; Field::Tagged(8)]?);
    let mut reader = Lines::new(alloc, &fields)?;
    if reader.next(&mut desk, channel, &lattice) != Next::Line || !reader.live() {
        return Ok(false);
    }
    let refused = Next::Fault(StimFault {
        line: 2,
        code: StimCode::S2,
    });
    Ok(reader.next(&mut desk, channel, &lattice) == refused)
}

/// The call that fails, the last answer, and how many lines come before it: 585 lines are 4,095 bytes, and 1,170 lines
/// are 8,190.
const READS: [(u64, Next, usize); 5] = [
    (2, Next::Failed, 0),
    (3, Next::Failed, 585),
    (4, Next::Failed, 1170),
    (5, Next::Failed, 1200),
    (6, Next::End, 1200),
];

#[test]
fn gives_the_lines_before_a_failed_read(rt: HostRuntime) {
    let alloc = rt.alloc();
    for (failing, last, lines) in READS {
        assert!(rt;
            matches!(read(alloc, failing, last), Ok(Some(count)) if count == lines),
            "{failing}"
        );
    }
}

#[test]
fn tells_a_refused_line_before_a_second_read(rt: HostRuntime) {
    assert!(rt; matches!(tells_before_a_second_read(rt.alloc()), Ok(true)));
}
