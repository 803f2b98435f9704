//! Writing the dump of a netlist's run to a file.

ghost use Rattle.std.specs.Prelude.{◌≡◌, ℕ, List, OnOk, IsErrOf};
ghost use Rattle.sap_desk.specs.Cause.{CountsOpen};
ghost use Rattle.sap_desk.specs.Whole.{Between, FailedWriting, FillsFile, Wrote};
ghost use Rattle.sap_stim.specs.Fits.{StreamFits};
ghost use Rattle.sap_sim.specs.Numbers.{numbers_of};
ghost use Rattle.sap_wave_run.specs.Dumped.{IsDumpOn};
ghost use Rattle.sap_wave_run.specs.Ready.{IsReady};

use crate::cycles::Cycles;
use crate::dump::Dump;
use crate::recording::Recording;
use sap_desk::{Desk, DeskError};
use sap_lattice::Lattice;
use sap_net::laws::one_run;
use sap_pieces::write_pieces;
use sap_stream::Stream;

/// Makes a file of the dump of a netlist's run on a stream, as it is stepped. It takes no memory once the file is made,
/// and after a failed call it makes no further one.
pub fn write_run<D: Desk>(
    desk: &mut D,
    name: &str,
    lattice: &Lattice,
    recording: Recording,
    stream: &Stream,
) -> Result<(), DeskError>
    requires ready { IsReady lattice.now recording.simulation.runner.net recording }
    requires fits { StreamFits lattice.now recording.simulation.fields stream.now }
    ensures ok { OnOk result ((text : List ℕ) × IsDumpOn recording.simulation.runner.net (numbers_of lattice.now recording.simulation.runner.net) stream.now text × Between (D.told desk.old) (D.told desk.new) (Wrote name.now text)) }
    // It is cut off as one whole text would be.
    ensures failed { IsErrOf result DeskError.Failed → (text : List ℕ) × IsDumpOn recording.simulation.runner.net (numbers_of lattice.now recording.simulation.runner.net) stream.now text
        × Between (D.told desk.old) (D.told desk.new) (FailedWriting name.now text) × (D.sure desk.old → Between (D.told desk.old) (D.told desk.new) (FillsFile name.now text)) }
    ensures memory { IsErrOf result DeskError.Memory → D.told desk.new ≡ D.told desk.old }
    ensures counts { CountsOpen (D.faults desk.old) (D.faults desk.new) (D.lost desk.old) (D.lost desk.new) result }
    ensures sure { D.sure desk.old → D.sure desk.new }
{
    let Recording {
        simulation,
        dumper,
        places,
        head,
        mut waiting,
    } = recording;
    one_run(simulation.netlist());
    simulation.netlist().rules();
    lattice.lawful();
    stream.cycles();
    let cycles = Cycles::new(stream.spans());
    let mut dump = Dump {
        simulation,
        dumper,
        places,
        lattice,
        cycles,
    };
    write_pieces(desk, name, head.as_slice(), &mut dump, &mut waiting)
}
