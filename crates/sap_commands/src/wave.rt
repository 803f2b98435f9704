//! The command `wave`.

ghost use Rattle.sap_sim.specs.Numbers.{numbers_of};
ghost use Rattle.sap_stim.specs.Fits.{StreamFits};
ghost use Rattle.sap_wave_run.specs.Dumped.{IsDumpOn};
ghost use Rattle.sap_wave_run.specs.Ready.{IsReady};
ghost use Rattle.sap_commands.specs.Commands.{asks_wave};
ghost use Rattle.sap_files.specs.Asks.{file, writes};
ghost use Rattle.sap_files.specs.Kinds.{module_stream_file};
ghost use Rattle.sap_files.specs.Steps.{Ends, ending_of, seen};

use sap_desk::{Desk, DeskError};
use sap_files::failure::Failure;
use sap_files::{lattice_of_file, lines_of_file, module_of_file};
use sap_lattice::Lattice;
use sap_net::netlist::Netlist;
use sap_stim::stimulus_fits;
use sap_stream::Stream;
use sap_wave_run::{Recording, write_run};
use std::alloc::Global;

/// Writes the value change dump of a module file's run on a stimulus file, over a lattice file.
pub fn wave<'a, D: Desk>(
    alloc: Global,
    desk: &mut D,
    lattice: &'a str,
    verilog: &'a str,
    stimulus: &'a str,
    out: &'a str,
) -> Result<(), Failure<'a>>
    ensures { Ends (asks_wave lattice.now verilog.now stimulus.now out.now) (ending_of result) (seen D.told D.faults D.lost D.sure desk.old) (seen D.told D.faults D.lost D.sure desk.new) }
{
    let levels = lattice_of_file(alloc, desk, lattice)?;
    let netlist = module_of_file(alloc, desk, verilog)?;
    record(alloc, desk, &levels, netlist, stimulus, out)
}

// Writes the dump of a netlist's run on a stimulus file to a file. The stimulus is read whole, and all memory taken, before
// that file is made.
fn record<'a, D: Desk>(
    alloc: Global,
    desk: &mut D,
    lattice: &Lattice,
    netlist: Netlist,
    stimulus: &'a str,
    out: &'a str,
) -> Result<(), Failure<'a>>
    ensures { Ends (file stimulus.now (module_stream_file lattice.now netlist) (λ stream. writes out.now (IsDumpOn netlist (numbers_of lattice.now netlist) stream)))
        (ending_of result) (seen D.told D.faults D.lost D.sure desk.old) (seen D.told D.faults D.lost D.sure desk.new) }
{
    lattice.lawful();
    stimulus_fits();
    let recording = Recording::new(alloc, lattice, netlist)?;
    let stream = lines_of_file(alloc, desk, lattice, recording.fields(), stimulus)?;
    write_dump(desk, lattice, recording, &stream, out)
}

// Writes the dump of a netlist's run on a stream to a file.
fn write_dump<'a, D: Desk>(
    desk: &mut D,
    lattice: &Lattice,
    recording: Recording,
    stream: &Stream,
    out: &'a str,
) -> Result<(), Failure<'a>>
    requires ready { IsReady lattice.now recording.simulation.runner.net recording }
    requires fits { StreamFits lattice.now recording.simulation.fields stream.now }
    ensures { Ends (writes out.now (IsDumpOn recording.simulation.runner.net (numbers_of lattice.now recording.simulation.runner.net) stream.now))
        (ending_of result) (seen D.told D.faults D.lost D.sure desk.old) (seen D.told D.faults D.lost D.sure desk.new) }
{
    match write_run(desk, out, lattice, recording, stream) {
        Ok(()) => Ok(()),
        Err(DeskError::Failed) => Err(Failure::Desk(out)),
        Err(DeskError::Memory) => Err(Failure::Memory),
    }
}
