// The output and the fault lines.
ghost use Rattle.std.specs.Prelude.{◌≡◌, OnOk, OnErr, IfSome, option_map};
ghost use Rattle.sap_desk.specs.Desk.{added, IsWriting};
ghost use Rattle.sap_desk.specs.Cause.{FillsRoom};
ghost use Rattle.sap_desk.specs.Whole.{CountsFailed, CutOutput, CutLine, joined, line_of};

use crate::{Desk, Failed};

/// Writes bytes to the output.
pub fn write_output<D: Desk>(desk: &mut D, bytes: &[u8]) -> Result<(), Failed>
    ensures told { OnOk result (D.told desk.new ≡ option_map (added 1 bytes.now) (D.told desk.old)) }
    ensures failed { OnErr result (CutOutput bytes.now (D.told desk.old) (D.told desk.new)) }
    ensures given { D.given desk.new ≡ D.given desk.old }
    ensures counts { CountsFailed (D.faults desk.old) (D.faults desk.new) result }
    ensures lost { D.lost desk.new ≡ D.lost desk.old }
    ensures sure { D.sure desk.old → D.sure desk.new }
    ensures cause { OnErr result (D.sure desk.old → IfSome (D.told desk.old) (λ t. IsWriting (t.uses 1) → FillsRoom 1 bytes.now t (D.told desk.new))) }
{
    desk.write(1, bytes)
}

// Writes the parts where fault lines go, one after another, and no further one after a failed call.
fn write_parts<D: Desk>(desk: &mut D, parts: &[&[u8]]) -> Result<(), Failed>
    ensures told { OnOk result (D.told desk.new ≡ option_map (added 2 (joined parts.now)) (D.told desk.old)) }
    ensures failed { OnErr result (CutLine (joined parts.now) (D.told desk.old) (D.told desk.new)) }
    ensures given { D.given desk.new ≡ D.given desk.old }
    ensures counts { CountsFailed (D.lost desk.old) (D.lost desk.new) result }
    ensures faults { D.faults desk.new ≡ D.faults desk.old }
    ensures sure { D.sure desk.old → D.sure desk.new }
    ensures cause { OnErr result (D.sure desk.old → IfSome (D.told desk.old) (λ t. IsWriting (t.uses 2) → FillsRoom 2 (joined parts.now) t (D.told desk.new))) }
{
    for part in parts {
        desk.write(2, part)?;
    }
    Ok(())
}

/// Writes a fault line: its parts and the line's end. It takes no memory, and after a failed call it makes no further one.
pub fn write_line<D: Desk>(desk: &mut D, parts: &[&[u8]]) -> Result<(), Failed>
    ensures told { OnOk result (D.told desk.new ≡ option_map (added 2 (line_of parts.now)) (D.told desk.old)) }
    ensures failed { OnErr result (CutLine (line_of parts.now) (D.told desk.old) (D.told desk.new)) }
    ensures given { D.given desk.new ≡ D.given desk.old }
    ensures counts { CountsFailed (D.lost desk.old) (D.lost desk.new) result }
    ensures faults { D.faults desk.new ≡ D.faults desk.old }
    ensures sure { D.sure desk.old → D.sure desk.new }
    ensures cause { OnErr result (D.sure desk.old → IfSome (D.told desk.old) (λ t. IsWriting (t.uses 2) → FillsRoom 2 (line_of parts.now) t (D.told desk.new))) }
{
    write_parts(desk, parts)?;
    desk.write(2, b"\n")
}
