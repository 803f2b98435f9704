//! What hangs on points and on the root, as lists of numbers.

ghost use Rattle.std.specs.Prelude.{◌≡◌, IfOk};
ghost use Rattle.sap_program.specs.Hangs.{flags};
ghost use Rattle.sap_resolve.specs.Rows.{root_row_in, rows_in};

use sap_hang::HangTable;
use sap_program::hang::Hang;
use std::alloc::{AllocError, Global};

/// What hangs on a point, of the first `count` entities.
pub(crate) fn row(
    alloc: Global,
    table: &HangTable,
    count: u32,
    point: u32,
) -> Result<Hang, AllocError>
    ensures { IfOk result (λ h. flags count h ≡ rows_in count table.now point) }
{
    let mut numbers = Vec::new(alloc);
    for entity in 0..count {
        if table.hangs(point, entity) {
            numbers.push(entity as usize)?;
        }
    }
    Ok(Hang::new(numbers))
}

/// What the root's fall touches, of the first `count` entities.
pub(crate) fn root_row(alloc: Global, table: &HangTable, count: u32) -> Result<Hang, AllocError>
    ensures { IfOk result (λ h. flags count h ≡ root_row_in count table.now) }
{
    let mut numbers = Vec::new(alloc);
    for entity in 0..count {
        if table.touched_by_root(entity) {
            numbers.push(entity as usize)?;
        }
    }
    Ok(Hang::new(numbers))
}
