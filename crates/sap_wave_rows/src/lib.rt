//! The rows of a value change dump.
//!
//! Each law stands on an empty function, whose clauses a caller in another crate has by calling it.
#![tactic(auto)]

mod block_rows;
mod rows;
mod shown;

ghost use Rattle.sap_wave_rows.specs.Examples as examples;
ghost use Rattle.sap_wave_rows.specs.Laws.{RowsOfDumps, RowsOfRuns, RowsOfStimuli};

pub use block_rows::BlockRows;
use sap_wave::{one_wave_or_fault, runs_read_back};

/// The rows of the dump of a netlist's run are the rows of the run, and so those of the stimulus that it is on.
pub fn rows_of_dumps()
    ensures runs { RowsOfRuns }
    ensures dumps { RowsOfDumps }
    ensures stimuli { RowsOfStimuli }
{
    one_wave_or_fault();
    runs_read_back();
}

/// The rows of small waves, worked out.
pub fn worked_rows()
    ensures row { examples.Row }
    ensures nothing_shown { examples.NothingShown }
    ensures no_cycle { examples.NoCycle }
{}
