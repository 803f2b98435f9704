//! What steps on lines.

ghost use Rattle.std.specs.Prelude.{◌≡◌, ◌≤◌, ◌+◌, ◌++◌, ◌∷◌, [], ℕ, List, length};
ghost use Rattle.sap_lattice.specs.Levels.{Levels};
ghost use Rattle.sap_meaning.specs.Cycle.{Tagged as Given};
ghost use Rattle.sap_stim.specs.declared.field.Field.{Field};
ghost use Rattle.sap_stim.specs.Fits.{LineFits};
ghost use Rattle.sap_lines.specs.Stepping.Cycles.{StepShown};

use sap_desk::RowBuf;
use sap_lattice::Lattice;
use sap_stream::Inputs;

/// What steps on one line of a stimulus after another, and shows each step as text. A line that stands for several
/// cycles is as many lines here.
pub trait Steps {
    /// The levels of which lines speak.
    ghost levels: { Self → Levels };

    /// The fields of a line.
    ghost fields: { Self → List Field };

    /// How many bytes the text of any step takes at most.
    ghost room: { Self → ℕ };

    /// It stands behind the steps on these lines.
    ghost behind: { Self → List (List Given) → Type 0 };

    /// The steps on these lines show this text.
    ghost shows: { Self → List (List Given) → List ℕ → Type 0 };

    /// The lattice by which lines are read.
    fn lattice(&self) -> &Lattice
        ensures { result.now ≡ levels self.now };

    /// How many bytes the text of any step takes at most.
    fn room(&self) -> usize
        ensures { result ≡ room self.now };

    /// Steps on a line, and appends the text of the step, for which there is room. It takes no memory.
    fn step(&mut self, out: &mut RowBuf, cycle: u64, line: &Inputs)
        requires stands { (lines : List (List Given)) × behind self.old lines }
        requires line { LineFits (levels self.old) (fields self.old) line.now }
        requires room { length out.old.bytes + room self.old ≤ out.old.room }
        // It is a step further.
        ensures behind { (lines : List (List Given)) → behind self.old lines → behind self.new (lines ++ line.now ∷ []) }
        ensures shows { StepShown (behind self.old) (shows self.old) (shows self.new) cycle line.now (λ text. (out.new.bytes ≡ out.old.bytes ++ text) × (length text ≤ room self.old)) }
        // All else is as before.
        ensures same_levels { levels self.new ≡ levels self.old }
        ensures same_fields { fields self.new ≡ fields self.old }
        ensures same_room { room self.new ≡ room self.old }
        ensures same_shows { (lines : List (List Given)) (text : List ℕ) → shows self.new lines text → shows self.old lines text }
        ensures memory { out.old.room ≤ out.new.room };
}
