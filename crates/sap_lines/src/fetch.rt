//! Reading as much as the next line needs.

ghost use Rattle.std.specs.Prelude.{◌≡◌, ◌≢◌, ◌<◌, ◌^◌, ◌↔◌, ◌++◌, ℕ, List, IsTrue, OnOk, OnErr, IfSome};
ghost use Rattle.sap_desk.specs.Cause.{CountsAt, FailsToRead};
ghost use Rattle.sap_lines.specs.Fetched.{EndsOrDecided, IsDecided, More, MoreAndFailed};

use crate::PIECE_BYTES;
use crate::held::Held;
use sap_desk::{Desk, Failed};
use sap_stim::MOST_LINE_BYTES;

// Whether the next line is told by the bytes that are held: it ends in them, or is too long.
pub(crate) fn is_decided(held: &Held) -> bool
    ensures { IsTrue result ↔ IsDecided held.now }
{
    held.has_line() || held.as_slice().len() > MOST_LINE_BYTES
}

// Reads pieces of a channel until the bytes that are held tell the next line, or the channel is at its end.
fn read_pieces<D: Desk>(held: &mut Held, desk: &mut D, channel: usize) -> Result<(), Failed>
    requires { channel ≢ 2 }
    ensures more { OnOk result (More channel held.old held.new (D.told desk.old) (D.told desk.new) (D.given desk.old) (D.given desk.new)) }
    ensures behind { (piece : List ℕ) × (held.new ≡ held.old ++ piece) }
    ensures decided { OnOk result (IfSome (D.told desk.new) (EndsOrDecided channel held.new)) }
    ensures wanted { OnErr result (¬ IsDecided held.new) }
    ensures failed { OnErr result (MoreAndFailed channel held.old held.new (D.told desk.old) (D.told desk.new) (D.given desk.old) (D.given desk.new)) }
    ensures bounded { D.given desk.old channel < 2 ^ 32 → D.given desk.new channel < 2 ^ 32 }
    ensures counts { CountsAt channel (D.faults desk.old) (D.faults desk.new) (D.lost desk.old) (D.lost desk.new) result }
    ensures sure { D.sure desk.old → D.sure desk.new }
    ensures cause { OnErr result (D.sure desk.old → IfSome (D.told desk.new) (FailsToRead channel (D.given desk.new channel) PIECE_BYTES)) }
{
    let mut piece = [0u8; PIECE_BYTES];
    while !is_decided(held) {
        let count = desk.read(channel, &mut piece)?;
        if count == 0 {
            return Ok(());
        }
        held.add(&piece[..count]);
    }
    Ok(())
}

/// Reads pieces of a channel until the bytes that are held tell the next line, or the channel is at
/// its end.
pub fn fetch<D: Desk>(held: &mut Held, desk: &mut D, channel: usize) -> Result<(), Failed>
    requires { channel ≢ 2 }
    ensures more { OnOk result (More channel held.old held.new (D.told desk.old) (D.told desk.new) (D.given desk.old) (D.given desk.new)) }
    ensures behind { (piece : List ℕ) × (held.new ≡ held.old ++ piece) }
    ensures decided { OnOk result (IfSome (D.told desk.new) (EndsOrDecided channel held.new)) }
    ensures wanted { OnErr result (¬ IsDecided held.new) }
    ensures still { IsDecided held.old → (held.new ≡ held.old) × (desk.new ≡ desk.old) }
    ensures failed { OnErr result (MoreAndFailed channel held.old held.new (D.told desk.old) (D.told desk.new) (D.given desk.old) (D.given desk.new)) }
    ensures bounded { D.given desk.old channel < 2 ^ 32 → D.given desk.new channel < 2 ^ 32 }
    ensures counts { CountsAt channel (D.faults desk.old) (D.faults desk.new) (D.lost desk.old) (D.lost desk.new) result }
    ensures sure { D.sure desk.old → D.sure desk.new }
    ensures cause { OnErr result (D.sure desk.old → IfSome (D.told desk.new) (FailsToRead channel (D.given desk.new channel) PIECE_BYTES)) }
{
    if is_decided(held) {
        return Ok(());
    }
    read_pieces(held, desk, channel)
}
