//! The text of a row, and rows in a buffer.

use crate::given::{name, two};
use sap_desk::RowBuf;
use sap_stim::{row, row_into, row_room};
use std::alloc::{AllocError, Global};

fn is_row_of_two(alloc: Global) -> Result<bool, AllocError> {
    let Some(lattice) = two(alloc) else {
        return Ok(false);
    };
    let names = [name(alloc, "x")?, name(alloc, "y")?];
    let text = row(alloc, 12, &names, &[6, 70], &[1, 3], &lattice)?;
    Ok(text.as_slice() == b"cycle 12: x=6@high y=70@#3\n".as_slice())
}

#[test]
fn prints_a_row(rt: HostRuntime) {
    assert!(rt; matches!(is_row_of_two(rt.alloc()), Ok(true)));
}

// `cycle ` and `:` with 20 digits and LF are 28 bytes, ` x=` and `@` with 20 digits are 24; a level is a name,
// or `#` and 20 digits.
fn are_rows_of_one(alloc: Global) -> Result<bool, AllocError> {
    let Some(lattice) = two(alloc) else {
        return Ok(false);
    };
    let names = vec![in alloc; name(alloc, "x")?]?;
    let Some(room) = row_room(names.as_slice(), &lattice) else {
        return Ok(false);
    };
    let mut rows = RowBuf::new(alloc, room)?;
    let is_empty = rows.bytes().is_empty();
    row_into(&mut rows, 12, names.as_slice(), &[6], &[1], &lattice);
    let is_short = rows.bytes() == b"cycle 12: x=6@high\n".as_slice();
    rows.clear();
    row_into(
        &mut rows,
        u64::MAX,
        names.as_slice(),
        &[u64::MAX],
        &[u64::MAX],
        &lattice,
    );
    let is_long = rows.bytes()
        == b"cycle 18446744073709551615: x=18446744073709551615@#18446744073709551615\n".as_slice();
    Ok(room == 73 && is_empty && is_short && is_long)
}

#[test]
fn prints_rows_into_a_buffer(rt: HostRuntime) {
    assert!(rt; matches!(are_rows_of_one(rt.alloc()), Ok(true)));
}
