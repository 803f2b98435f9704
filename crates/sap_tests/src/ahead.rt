//! The line at the front of a text, with what is wrong with it, and one that has no LF.

use crate::given::two;
use sap_lattice::level::Level;
use sap_stim::{Field, StimCode, line_ahead};
use sap_stream::Tagged;
use std::alloc::Global;

/// Whether the front of a text gives this, where the number of its line's input is asked for, too.
fn gives(alloc: Global, text: &[u8], expected: Option<(Result<u32, StimCode>, usize)>) -> bool {
    let Some(lattice) = two(alloc) else {
        return false;
    };
    let mut inputs = [Tagged::new(0, Level::new(0))];
    let given = line_ahead(text, &[Field::Tagged(8)], &lattice, &mut inputs);
    given == expected
}

// The last three have no end of the line.
#[test]
fn a_line_at_the_front_is_read_or_told_wrong(rt: HostRuntime) {
    let alloc = rt.alloc();
    assert!(rt; gives(alloc, b"5@high\n", Some((Ok(1), 6))));
    assert!(rt; gives(alloc, b"5@high *3\n6@low", Some((Ok(3), 9))));
    assert!(rt; gives(alloc, b"5\n", Some((Err(StimCode::S1), 1))));
    assert!(rt; gives(alloc, b"256@high\n6@low\n", Some((Err(StimCode::S2), 8))));
    assert!(rt; gives(alloc, b"5@mid\n", Some((Err(StimCode::S3), 5))));
    assert!(rt; gives(alloc, b"\n", Some((Err(StimCode::S4), 0))));
    assert!(rt; gives(alloc, b"5@high *0\n", Some((Err(StimCode::S6), 9))));
    assert!(rt; gives(alloc, b"", None));
    assert!(rt; gives(alloc, b"5@high", None));
    assert!(rt; gives(alloc, b"256@high", None));
}
