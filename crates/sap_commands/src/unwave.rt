//! The command `unwave`.

ghost use Rattle.sap_commands.specs.Commands.{asks_unwave};
ghost use Rattle.sap_files.specs.Steps.{Ends, ending_of, seen};

use sap_desk::{Desk, RowBuf};
use sap_files::failure::Failure;
use sap_files::{lattice_of_file, put_pieces, wave_of_file};
use sap_pieces::LARGE_BYTES;
use sap_wave_rows::BlockRows;
use std::alloc::Global;

/// Writes the rows of a value change dump, over a lattice file, one after another. All memory is taken before the first is written.
pub fn unwave<'a, D: Desk>(
    alloc: Global,
    desk: &mut D,
    lattice: &'a str,
    dump: &'a str,
) -> Result<(), Failure<'a>>
    ensures { Ends (asks_unwave lattice.now dump.now) (ending_of result) (seen D.told D.faults D.lost D.sure desk.old) (seen D.told D.faults D.lost D.sure desk.new) }
{
    let levels = lattice_of_file(alloc, desk, lattice)?;
    let wave = wave_of_file(alloc, desk, dump)?;
    let mut rows = BlockRows::new(alloc, &levels, &wave)?;
    let mut waiting = RowBuf::new(alloc, LARGE_BYTES)?;
    put_pieces(desk, &mut rows, &mut waiting)
}
