//! What the reader answers.

ghost use Rattle.std.specs.Prelude.{◌≡◌};
ghost use Rattle.sap_lines.specs.Answers.{count_after, is_line};

use sap_stim::StimFault;

/// What asking for the next line answers.
#[derive(Clone, Copy, Debug, PartialEq, Eq)]
pub enum Next {
    /// There is a further line.
    Line,
    /// There is none, and no line was refused.
    End,
    /// The next line is refused.
    Fault(StimFault),
    /// A call on the desk failed.
    Failed,
}

// Keeps whether a further line may be asked for, and how many were given.
pub fn keep(next: Next, live: &mut bool, count: &mut u64)
    ensures live { live.new ≡ is_line next }
    ensures count { count.new ≡ count_after next count.old }
{
    match next {
        Next::Line => {
            *live = true;
            *count = count.saturating_add(1);
        }
        Next::End => *live = false,
        Next::Fault(_) => *live = false,
        Next::Failed => *live = false,
    }
}
