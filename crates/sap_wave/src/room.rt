//! How much room blocks take.

ghost use Rattle.std.specs.Prelude.{◌≡◌, ◌≤◌, ◌^◌, IfNone, IfSome};
ghost use Rattle.sap_wave.specs.Dumping.{block_room};

use crate::digits::identifier_len;
use crate::variable::Variable;

/// How many bytes a block of these variables takes at most. There is no answer where they are 2^64 or more.
pub fn block_room(variables: &[Variable]) -> Option<usize>
    ensures some { IfSome result (λ room. room ≡ block_room variables.now) }
    ensures none { IfNone result (2 ^ 64 ≤ block_room variables.now) }
{
    let mut room = 22usize;
    for k in 0..variables.len() {
        let size = (variables[k].width as usize).checked_add(identifier_len(k))?;
        room = room.checked_add(size.checked_add(3)?)?;
    }
    Some(room)
}
